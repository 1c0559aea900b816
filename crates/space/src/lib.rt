// Subspaces, points and limits. Each function equals a definition of Subspace or Orbits, chapter 4 and [5.3], at
// every d up to five and at any tolerance. Numbers lie in flat arrays, five places to a vector; only the first d of
// them mean something, and zeros stand behind all that mean something.

#![tactic(auto)]

ghost use Rattle.std.specs.Prelude.{◌≡◌, ◌∷◌, [], ◌++◌, map, ◌+◌, ◌*◌, ◌≤◌, ◌<◌, length, take, drop, ◌||◌};
ghost use Rattle.std.specs.Float.Ieee.{lt};
ghost use Rattle.std.specs.Float.{nan};
ghost use Rattle.definitions.specs.Vectors.{minus, norm};
ghost use Rattle.definitions.specs.Subspace.{project, residual, distance, add_point, from_points, is_hyperplane};
ghost use Rattle.definitions.specs.Subspace.{flatten};
ghost use Rattle.definitions.specs.Orbits.{point_at, too_short, too_long, breaks_limit};
ghost use Rattle.laws.specs.Parts.{set_five};
ghost use Rattle.vectors.specs.Meaning.{vector_of, five};
ghost use Rattle.space.specs.Fits.{SubspaceFits, PointsFit};

// ---- subspaces

// [4.1] d numbers of offset, and `rank` basis vectors. The counts fit the arrays, and zeros stand behind what they
// reach. The counts stand beside the arrays: d is one length for all the vectors, which an `ArrayVec` for each would
// say once more for each, and the vectors lie one behind another, since the loops of `vectors` borrow them so.
#[derive(Clone, Copy)]
pub struct Subspace {
    pub offset: [f64; 5],
    pub basis: [f64; 25],
    pub d: usize,
    pub rank: usize,
    pub ghost fits: { SubspaceFits offset basis d rank },
}

impl Subspace {
    ghost use Rattle.space.specs.Meaning.{subspace_of, HoldsSubspace, point_alone, with_vector, is_full_rank};
    ghost use Rattle.space.specs.Meaning.{points_of};

    // A point alone: its basis has no vector yet.
    pub fn new(offset: [f64; 5], d: usize) -> Subspace
        requires { (d ≤ 5) × (offset ≡ five (vector_of d offset)) }
        ensures { HoldsSubspace result (point_alone (vector_of d offset)) × (result.d ≡ d) × (result.rank ≡ 0) }
    {
        Subspace {
            offset,
            basis: [0.0; 25],
            d,
            rank: 0,
        }
    }

    // A vector joins the basis as it is. Its five numbers are written one by one, for the reason at `point_at`.
    pub fn push(&mut self, v: [f64; 5])
        requires { (self.old.rank < 5) × (v ≡ five (vector_of self.old.d v)) }
        ensures { HoldsSubspace self.new (with_vector (subspace_of self.old) (vector_of self.old.d v))
            × (self.new.d ≡ self.old.d) × (self.new.rank ≡ self.old.rank + 1) }
    {
        let at = 5 * self.rank;
        self.basis[at] = v[0];
        self.basis[at + 1] = v[1];
        self.basis[at + 2] = v[2];
        self.basis[at + 3] = v[3];
        self.basis[at + 4] = v[4];
        self.rank += 1;
    }

    // p − offset
    fn away(&self, p: [f64; 5]) -> [f64; 5]
        ensures { vector_of self.now.d result ≡ minus (vector_of self.now.d p) (subspace_of self.now).offset }
    {
        vectors::minus(p, self.offset, self.d)
    }

    // [4.2] the projection of the point that begins at a place. A local for d, since each turn of the loop hands it
    // on twice.
    fn project_at(&self, points: &[f64], at: usize) -> [f64; 5]
        requires { at + self.now.d ≤ length points.now }
        ensures { result ≡ five (project (subspace_of self.now) (vector_of self.now.d (drop at points.now))) }
    {
        let d = self.d;
        let mut away = [0.0; 5];
        vectors::take_from(points, at, &self.offset, d, &mut away);
        let mut q = self.offset;
        for j in 0..self.rank {
            let s = vectors::dot_at(&away, &self.basis, 5 * j, d);
            vectors::gain(&mut q, &self.basis, 5 * j, s, d);
        }
        q
    }

    // [4.2] the projection
    pub fn project(&self, p: [f64; 5]) -> [f64; 5]
        ensures { result ≡ five (project (subspace_of self.now) (vector_of self.now.d p)) }
    {
        self.project_at(&p, 0)
    }

    // [4.2] p less its projection
    fn residual(&self, p: [f64; 5]) -> [f64; 5]
        ensures { result ≡ five (residual (subspace_of self.now) (vector_of self.now.d p)) }
    {
        vectors::minus(p, self.project(p), self.d)
    }

    // [4.2] the norm of the residual
    pub fn distance(&self, p: [f64; 5]) -> f64
        ensures { result ≡ distance (subspace_of self.now) (vector_of self.now.d p) }
    {
        vectors::norm(self.residual(p), self.d)
    }

    // Whether the point that begins at a place is at a distance below the tolerance.
    pub fn is_near(&self, points: &[f64], at: usize, tolerance: f64) -> bool
        requires { at + self.now.d ≤ length points.now }
        ensures { result ≡ lt (distance (subspace_of self.now) (vector_of self.now.d (drop at points.now))) tolerance }
    {
        let q = self.project_at(points, at);
        let mut r = [0.0; 5];
        vectors::take_from(points, at, &q, self.d, &mut r);
        root::root_below(vectors::dot_at(&r, &r, 0, self.d), tolerance)
    }

    // [4.3] a basis vector more, where the residual is longer than the tolerance. The subspace goes by value and is
    // handed back: a form that was asked for (docs/DECISIONS.md, "Language forms").
    pub fn add(self, p: [f64; 5], tolerance: f64) -> Subspace
        requires { self.rank < 5 }
        ensures { HoldsSubspace result (add_point tolerance (subspace_of self) (vector_of self.d p))
            × (result.d ≡ self.d) }
    {
        let unit = vectors::normalise(self.residual(p), self.d);
        if unit.norm > tolerance {
            let mut wider = self;
            wider.push(unit.vector);
            return wider;
        }
        self
    }

    // [4.4] Without a point the offset has no numbers; else d is the points' own.
    pub fn from_points(points: &Points, tolerance: f64) -> Subspace
        ensures { HoldsSubspace result (from_points tolerance (points_of points.now))
            × (0 < points.now.n → result.d ≡ points.now.d) }
    {
        if points.n == 0 {
            return Subspace::new([0.0; 5], 0);
        }
        let mut s = Subspace::new(point_at(&points.at, 0), points.d);
        for i in 1..points.n {
            if s.is_full_rank() {
                return s;
            }
            s = s.add(point_at(&points.at, i), tolerance);
        }
        s
    }

    // (p − offset) · b for each basis vector b: `rank` numbers.
    pub fn flatten(&self, p: [f64; 5]) -> [f64; 5]
        ensures { result ≡ five (flatten (subspace_of self.now) (vector_of self.now.d p)) }
    {
        let away = self.away(p);
        let mut r = [0.0; 5];
        for j in 0..self.rank {
            r[j] = vectors::dot_at(&away, &self.basis, 5 * j, self.d);
        }
        r
    }

    // A hyperplane has d − 1 basis vectors.
    pub fn is_hyperplane(&self) -> bool
        ensures { result ≡ is_hyperplane (subspace_of self.now) }
    {
        self.d == self.rank + 1
    }

    // The basis has d vectors, and no point is added any more.
    fn is_full_rank(&self) -> bool
        ensures { result ≡ is_full_rank (subspace_of self.now) }
    {
        self.d <= self.rank
    }
}

// ---- points

// n points of d numbers each, 20 at most. Their numbers lie one behind another, and not point by point in an
// `ArrayVec`: what works on points borrows the numbers where they lie. d is one length for all of them.
#[derive(Clone, Copy)]
pub struct Points {
    pub at: [f64; 100],
    pub n: usize,
    pub d: usize,
    pub ghost fits: { PointsFit at n d },
}

impl Points {
    ghost use Rattle.space.specs.Meaning.{subspace_of, points_of, HoldsPoints, limits_of};

    pub fn new(d: usize) -> Points
        requires { d ≤ 5 }
        ensures { HoldsPoints result d [] }
    {
        Points {
            at: [0.0; 100],
            n: 0,
            d,
        }
    }

    pub fn point(&self, i: usize) -> [f64; 5]
        requires { i < self.now.n }
        ensures { result ≡ five (point_at (points_of self.now) i) }
    {
        point_at(&self.at, i)
    }

    // One point more, at the end.
    pub fn push(&mut self, p: [f64; 5])
        requires { (self.old.n < 20) × (p ≡ five (vector_of self.old.d p)) }
        ensures { HoldsPoints self.new self.old.d (points_of self.old ++ (vector_of self.old.d p ∷ []))
            × (self.new.n ≡ self.old.n + 1) }
    {
        put_point(&mut self.at, self.n, p);
        self.n += 1;
    }

    // Every point, flattened by a plane that has the points' d.
    pub fn flatten_all(&self, plane: &Subspace) -> Points
        requires { self.now.d ≡ plane.now.d }
        ensures { HoldsPoints result plane.now.rank (map (flatten (subspace_of plane.now)) (points_of self.now))
            × (result.n ≡ self.now.n) }
    {
        let mut flat = Points::new(plane.rank);
        for i in 0..self.n {
            flat.push(plane.flatten(self.point(i)));
        }
        flat
    }

    // The length from point v to point w.
    fn length_between(&self, v: usize, w: usize) -> f64
        requires { (v < self.now.n) × (w < self.now.n) }
        ensures { result ≡ norm (minus (point_at (points_of self.now) w) (point_at (points_of self.now) v)) }
    {
        vectors::norm(vectors::minus(self.point(w), self.point(v), self.d), self.d)
    }

    // [5.3] Whether the length from point v to point w breaks a limit. No length is taken where no limit is given.
    pub fn breaks_limit(&self, v: usize, w: usize, limits: Limits, tolerance: f64) -> bool
        requires { (v < self.now.n) × (w < self.now.n) }
        ensures { result ≡ breaks_limit tolerance (limits_of limits) (points_of self.now) v w }
    {
        !limits.is_empty() && limits.broken_by(self.length_between(v, w), tolerance)
    }
}

// What works on points borrows their numbers: to hand a struct of them on would copy it. Five numbers are read and
// written one by one. A range of five, read by `try_into` and written by `copy_from_slice`, was tried and is slower:
// in a copy of these loops, to copy a point took 2 to 3 times as long, and to lay a plane through three points and
// take the distances of 16 points from it 8 percent longer in three dimensions, and 16 in four.

// The five places of point i.
pub fn point_at(points: &[f64], i: usize) -> [f64; 5]
    requires { 5 * i + 5 ≤ length points.now }
    ensures { result ≡ take 5 (drop (5 * i) points.now) }
{
    let at = 5 * i;
    [
        points[at],
        points[at + 1],
        points[at + 2],
        points[at + 3],
        points[at + 4],
    ]
}

// A point's five numbers to place i.
pub fn put_point(points: &mut [f64; 100], i: usize, p: [f64; 5])
    requires { i < 20 }
    ensures { points.new ≡ set_five points.old (5 * i) p nan }
{
    let at = 5 * i;
    points[at] = p[0];
    points[at + 1] = p[1];
    points[at + 2] = p[2];
    points[at + 3] = p[3];
    points[at + 4] = p[4];
}

// ---- limits on lengths

// [5.3] The shortest and the longest length that is allowed, each absent or a length.
#[derive(Clone, Copy)]
pub struct Limits {
    pub shortest: Option<f64>,
    pub longest: Option<f64>,
}

impl Limits {
    ghost use Rattle.space.specs.Meaning.{no_limits};

    // Whether neither limit is given.
    fn is_empty(self) -> bool
        ensures { result ≡ no_limits self }
    {
        self.shortest.is_none() && self.longest.is_none()
    }

    // Whether a length breaks a limit. Each limit is matched: a form that was asked for (docs/DECISIONS.md, "Language
    // forms").
    #[tactic(auto, unfolding(definitions::specs::Orbits::too_short, definitions::specs::Orbits::too_long))]
    pub fn broken_by(self, length: f64, tolerance: f64) -> bool
        ensures { result ≡ (too_short tolerance self.shortest length || too_long tolerance self.longest length) }
    {
        let too_short = match self.shortest {
            None => false,
            Some(min) => length < min - tolerance,
        };
        let too_long = match self.longest {
            None => false,
            Some(max) => length > max + tolerance,
        };
        too_short || too_long
    }
}
