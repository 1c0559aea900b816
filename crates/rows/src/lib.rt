// Permutations of vertices where they lie in bytes, their images of vertices and of pairs, and marks of the images of
// a pair. A row is read where it lies, at a stride of 32 bytes. The sizes that follow from 20 points and 120 rows are
// here too.

#![tactic(auto)]

ghost use Rattle.std.specs.Prelude.{◌≡◌, ◌+◌, ◌*◌, ◌≤◌, ◌<◌, min, max, length, get_or};
ghost use Rattle.rows.specs.Rows.{rows_in, ImagesBelow};
ghost use Rattle.rows.specs.Marks.{marked};
ghost use Rattle.rows.specs.Codes.{pair_codes};

// ---- sizes

// As many points as a job may have.
pub const MOST_POINTS: usize = 20;

// A pair (v, w) of vertices has the code 20 v + w: so many codes there are.
pub const EDGE_CODES: usize = 400;

// As many rows as a job may have.
pub const MOST_ROWS: usize = 120;

// As many bytes as a row takes, of which a call on n points reads the first n.
pub const ROW_BYTES: usize = 32;

// The bytes that as many rows as a job may have take.
pub const ROWS_ROOM: usize = ROW_BYTES * MOST_ROWS;

// ---- rows

// Rows where they lie, one behind another: row i's image of v is byte 32 · i + v. The region of rows is lent whole,
// 3,840 bytes, and the job says how many rows lie in it: from a slice cut to length the count would be read by a
// division by 32. No slice of arrays `&[[u8; 32]]`: the public functions that load rows or hand them on take bytes
// (`load::copy_rows`, `load::Job::load_rows`, `stabilizers::Symmetries::rows_within` and `answering::write_called` a
// region of any length with room for the rows, those of `job_calls` 3,840), and arrays would ask more of their
// callers.
#[derive(Clone, Copy)]
pub struct Rows<'a> {
    pub bytes: &'a [u8],
    pub count: usize,
    pub ghost room: { 32 * count ≤ length bytes.now },
}

impl<'a> Rows<'a> {
    // Row i's image of v.
    pub fn image(self, i: usize, v: usize) -> usize
        requires { 32 * i + v < length self.bytes.now }
        ensures { result ≡ get_or self.entry.bytes.now (32 * i + v) 0 }
    {
        usize::from(self.bytes[ROW_BYTES * i + v])
    }

    // The code of row i's image of the pair (v, w), smaller first.
    pub fn pair_image(self, i: usize, v: usize, w: usize) -> usize
        requires { (32 * i + v < length self.bytes.now)
            × (32 * i + w < length self.bytes.now)
            × (get_or self.bytes.now (32 * i + v) 0 < 20) × (get_or self.bytes.now (32 * i + w) 0 < 20) }
        ensures code { result
            ≡ 20 * min (get_or self.entry.bytes.now (32 * i + v) 0) (get_or self.entry.bytes.now (32 * i + w) 0)
            + max (get_or self.entry.bytes.now (32 * i + v) 0) (get_or self.entry.bytes.now (32 * i + w) 0) }
        ensures small { result < 400 }
    {
        code(self.image(i, v), self.image(i, w))
    }
}

// ---- pairs

// The code of the pair of a and b, smaller first.
pub fn code(a: usize, b: usize) -> usize
    requires { (a < 20) × (b < 20) }
    ensures { result ≡ 20 * min a b + max a b }
{
    if a < b {
        MOST_POINTS * a + b
    } else {
        MOST_POINTS * b + a
    }
}

// The images of the pair (v, w), smaller first, are marked. A vertex is marked as the pair of it with itself.
// `ImagesBelow` stays a clause: it speaks of one vertex, another parameter.
pub fn mark_pair_images(rows: Rows, v: usize, w: usize, marks: &mut [bool; EDGE_CODES])
    requires { (v < 32)
        × (w < 32)
        × ImagesBelow 20 v rows.count rows.bytes.now × ImagesBelow 20 w rows.count rows.bytes.now }
    ensures { marks.new ≡ marked marks.old (pair_codes (rows_in 32 rows.entry.count rows.entry.bytes.now) (v, w)) }
{
    for i in 0..rows.count {
        let at = rows.pair_image(i, v, w);
        marks[at] = true;
    }
}
