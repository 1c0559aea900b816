// The rows that keep a set, rewritten to positions in it, in order, with repeats kept: the rows of an inner call
// [6.5]. A set is the number of its vertices; rows lie at a stride of 32 bytes, and so do the rows that are written.
// Leans on the sets' images.

#![tactic(auto)]

ghost use Rattle.std.specs.Prelude.{◌≡◌, ◌*◌, ◌^◌, ◌≤◌, ◌<◌, length};
ghost use lib.Seq.{sets};
ghost use Rattle.definitions.specs.Recursion.{keeps_set, rows_within};
ghost use Rattle.laws.specs.Sets.{vertices_of};
ghost use Rattle.rows.specs.Rows.{rows_in, row_at, written_rows};
ghost use Rattle.stabilizers.specs.Permutations.{Permutations};
ghost use Rattle.stabilizers.specs.Places.{places};

use arrayvec::ArrayVec;
use rows::{ROW_BYTES, Rows};
use sets::{count_below, set_image, vertices_of};

// Rows that are permutations of n vertices. How many rows there are is not bounded here: `rows_within` takes any
// number of them, and what gathers images by them asks for 120 at most, by a clause.
#[derive(Clone, Copy)]
pub struct Symmetries<'a> {
    pub rows: Rows<'a>,
    pub n: usize,
    pub ghost permute: { Permutations n rows.count rows.bytes.now },
}

impl<'a> Symmetries<'a> {
    // Whether row i keeps a set, whose vertices are listed beside it.
    fn keeps_set(self, i: usize, set: u32, vertices: &ArrayVec<usize, 20>) -> bool
        requires { (i < self.rows.count) × (set < 2 ^ self.n) × (vertices.now.items ≡ vertices_of self.n set) }
        ensures { result ≡ keeps_set (vertices_of self.entry.n set) (row_at self.entry.n i self.entry.rows.bytes.now) }
    {
        set_image(self.rows.bytes, i, vertices) == set
    }

    // The places of the images of a set's vertices under row i, written to the front of `row`.
    fn write_row(self, i: usize, set: u32, vertices: &ArrayVec<usize, 20>, row: &mut [u8])
        requires { (i < self.rows.count) × (vertices.now.items ≡ vertices_of self.n set) × (length row.old ≡ 32) }
        ensures { row.new ≡ sets row.old 0 (places self.entry.rows.bytes.now i set (vertices_of self.entry.n set)) }
    {
        for (k, v) in vertices.as_slice().iter().enumerate() {
            let place = count_below(set, self.rows.image(i, *v));
            row[k] = place as u8;
        }
    }

    // The rows that keep a set, rewritten to positions in it; returns how many there are, and no `Rows`: of a region
    // that goes into the result no clause can say what it ends as. Counted by hand: the count is the place of the
    // next row that is written, and in the end the answer. `filter` with `enumerate` would tell the places, and not
    // how many rows there were.
    pub fn rows_within(self, set: u32, out: &mut [u8]) -> usize
        requires { (set < 2 ^ self.n) × (32 * self.rows.count ≤ length out.old) }
        ensures count { result ≡ length (rows_within (vertices_of self.entry.n set)
            (rows_in self.entry.n self.entry.rows.count self.entry.rows.bytes.now)) }
        ensures rows { out.new ≡ written_rows (rows_within (vertices_of self.entry.n set)
            (rows_in self.entry.n self.entry.rows.count self.entry.rows.bytes.now)) 0 out.old }
    {
        let vertices = vertices_of(set, self.n);
        let mut count = 0;
        for i in 0..self.rows.count {
            if self.keeps_set(i, set, &vertices) {
                self.write_row(
                    i,
                    set,
                    &vertices,
                    &mut out[ROW_BYTES * count..ROW_BYTES * count + ROW_BYTES],
                );
                count += 1;
            }
        }
        count
    }
}
