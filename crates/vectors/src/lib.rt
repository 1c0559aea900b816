// Vectors of up to five numbers. Each function equals a definition of Vectors, [3.4] to [3.6]: floats are f64, and
// each operation is rounded once.

#![tactic(auto)]

ghost use Rattle.std.specs.Prelude.{◌≡◌, ◌+◌, ◌≤◌, length, drop};
ghost use Rattle.definitions.specs.Vectors.{dot, norm, normalised, minus, plus_times};
ghost use Rattle.laws.specs.Segments.{onto};
ghost use Rattle.vectors.specs.Meaning.{vector_of, five};

// A d beside vectors is how many of their five places mean something: one number for all the vectors that meet, and
// no length of one array. The vectors of a call lie in arrays, one behind the other. The loops borrow such an array
// and are told where a vector begins: to copy it out would cost more than its arithmetic. The loops count an index:
// it names the same place of two or three arrays that begin at places of their own, and a `zip` of their parts says
// no more. The library has a sum of floats, which begins at −0, where the definition's begins at +0.

// The dot product: from +0, the products are added in index order. The second vector begins at a place.
pub fn dot_at(a: &[f64], b: &[f64], at: usize, d: usize) -> f64
    requires { (d ≤ length a.now) × (at + d ≤ length b.now) }
    ensures { result ≡ dot (vector_of d a.now) (vector_of d (drop at b.now)) }
{
    let mut sum = 0.0;
    for i in 0..d {
        sum += a[i] * b[at + i];
    }
    sum
}

fn dot(a: [f64; 5], b: [f64; 5], d: usize) -> f64
    requires { d ≤ 5 }
    ensures { result ≡ dot (vector_of d a) (vector_of d b) }
{
    dot_at(&a, &b, 0, d)
}

// [3.5] the norm
pub fn norm(v: [f64; 5], d: usize) -> f64
    requires { d ≤ 5 }
    ensures { result ≡ norm (vector_of d v) }
{
    root::root_or_nan(dot(v, v, d))
}

// A vector divided by its norm, and that norm.
#[derive(Clone, Copy)]
pub struct Normalised {
    pub vector: [f64; 5],
    pub norm: f64,
}

// Divides each component by the norm and returns the norm beside the vector. It divides before anyone looks at the
// norm, so that a norm of zero has its equation too. A loop, and no `map` of the array: behind d numbers the zeros
// stay, which a `map` would divide too, by a norm of zero into a NaN.
pub fn normalise(v: [f64; 5], d: usize) -> Normalised
    requires { d ≤ 5 }
    ensures { (result.vector ≡ five (normalised (vector_of d v))) × (result.norm ≡ norm (vector_of d v)) }
{
    let length = norm(v, d);
    let mut r = [0.0; 5];
    for i in 0..d {
        r[i] = v[i] / length;
    }
    Normalised {
        vector: r,
        norm: length,
    }
}

// p − q, written over the front of a slice. The first vector begins at a place.
pub fn take_from(p: &[f64], at: usize, q: &[f64], d: usize, out: &mut [f64])
    requires { (at + d ≤ length p.now) × (d ≤ length q.now) × (d ≤ length out.old) }
    ensures { out.new ≡ onto (minus (vector_of d (drop at p.now)) (vector_of d q.now)) out.old }
{
    for i in 0..d {
        out[i] = p[at + i] - q[i];
    }
}

// p − q
pub fn minus(p: [f64; 5], q: [f64; 5], d: usize) -> [f64; 5]
    requires { d ≤ 5 }
    ensures { result ≡ five (minus (vector_of d p) (vector_of d q)) }
{
    let mut r = [0.0; 5];
    take_from(&p, 0, &q, d, &mut r);
    r
}

// q gains b × s. The vector b begins at a place.
pub fn gain(q: &mut [f64], b: &[f64], at: usize, s: f64, d: usize)
    requires { (d ≤ length q.old) × (at + d ≤ length b.now) }
    ensures { q.new ≡ onto (plus_times (vector_of d q.old) (vector_of d (drop at b.now)) s) q.old }
{
    for i in 0..d {
        q[i] += b[at + i] * s;
    }
}
