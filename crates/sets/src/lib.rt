// Sets of vertices as numbers: the sum of 2 ^ v. A set's vertices, and how many they are; its image under a row, the
// points near a plane as a set, and a set's points with the plane that they fit. Each function equals a definition of
// Orbits or Recursion: [5.1], [5.6], [6.4].

#![tactic(auto)]

ghost use Rattle.std.specs.Prelude.{◌≡◌, map, ℕ, ◌^◌, ◌≤◌, ◌<◌, length};
ghost use Rattle.definitions.specs.Subspace.{from_points};
ghost use Rattle.definitions.specs.Orbits.{point_at, points_near, set_image};
ghost use Rattle.laws.specs.Sets.{set_number, vertices_of};
ghost use Rattle.space.specs.Meaning.{points_of, HoldsPoints, subspace_of};
ghost use Rattle.rows.specs.Rows.{row_at};
ghost use Rattle.sets.specs.Refitting.{Refitted};
ghost use Rattle.sets.specs.Vertices.{Below, RowSends};

use arrayvec::ArrayVec;
use rows::ROW_BYTES;
use space::{Points, Subspace};

// 2 ^ v
fn power(v: usize) -> u32
    requires { v < 20 }
    ensures { result ≡ 2 ^ v }
{
    1 << v
}

// ---- vertices

// The vertices of a set, ascending.
pub fn vertices_of(set: u32, n: usize) -> ArrayVec<usize, 20>
    requires { n ≤ 20 }
    ensures { result.items ≡ vertices_of n set }
{
    let mut found = ArrayVec::new();
    for v in 0..n {
        if (set >> v) % 2 == 1 {
            found.push(v);
        }
    }
    found
}

// How many vertices of a set are below n: n's place in the set, if it is there. By the bits alone, so that any n will
// do; the list of `vertices_of` has room for 20 vertices.
pub fn count_below(set: u32, n: usize) -> usize
    ensures { (result ≡ length (vertices_of n set)) × (result ≤ n) }
{
    let below = if n < 32 { set % (1 << n) } else { set };
    below.count_ones() as usize
}

// ---- images

// The image of a set's vertices under row i, as a set. It takes the bytes and no `Rows`: it reads row i alone, and
// asks for no room of the others.
pub fn set_image(rows: &[u8], i: usize, vertices: &ArrayVec<usize, 20>) -> u32
    requires { RowSends i rows.now vertices.now.items }
    ensures { (n : ℕ) → Below n vertices.now.items
        → result ≡ set_number (set_image vertices.now.items (row_at n i rows.now)) }
{
    let mut sum = 0;
    for v in vertices.as_slice() {
        sum += power(usize::from(rows[ROW_BYTES * i + *v]));
    }
    sum
}

// ---- points near a plane

// The set of all points at a distance below the tolerance.
pub fn points_near(flat: &Points, plane: &Subspace, tolerance: f64) -> u32
    requires { flat.now.d ≡ plane.now.d }
    ensures { result ≡ set_number (points_near tolerance (subspace_of plane.now) (points_of flat.now) 0) }
{
    let mut sum = 0;
    for v in 0..flat.n {
        if plane.is_near(&flat.at, 5 * v, tolerance) {
            sum += power(v);
        }
    }
    sum
}

// ---- a set's points

// The points of a set, ascending.
pub fn chosen_points(flat: &Points, set: u32) -> Points
    ensures { HoldsPoints result flat.now.d (map (point_at (points_of flat.now)) (vertices_of flat.now.n set)) }
{
    let vertices = vertices_of(set, flat.n);
    let mut chosen = Points::new(flat.d);
    for v in vertices.as_slice() {
        chosen.push(flat.point(*v));
    }
    chosen
}

// ---- a set's plane

// [6.4] the plane made from a set's points in their order: an error where it has another rank than the one wanted.
// The error hands the plane back too, though no caller reads it: a public function keeps what it promised, and that
// is the plane in both cases.
pub fn refit(points: Points, tolerance: f64, wanted: usize) -> Result<Subspace, Subspace>
    ensures { Refitted result points (from_points tolerance (points_of points)) wanted }
{
    let plane = Subspace::from_points(&points, tolerance);
    if plane.rank == wanted {
        Ok(plane)
    } else {
        Err(plane)
    }
}
