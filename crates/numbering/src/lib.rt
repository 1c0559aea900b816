// The number of the ridge orbit that holds a ridge. A ridge is the code of its two ends, as in the crate `rows`; the
// images of one that is new get its number as their mark, by [6.7], with marks for the 400 codes. Any rows, with the
// identity among them or not.

#![tactic(auto)]

ghost use Rattle.std.specs.Prelude.{◌≡◌, ◌≤◌, ◌<◌, length};
ghost use Rattle.definitions.specs.Lists.{Pair};
ghost use Rattle.rows.specs.Rows.{rows_in};
ghost use Rattle.rows.specs.Codes.{pair_of, pair_codes};
ghost use Rattle.shapes.specs.Ridges.{KnownKeys, no_keys};
ghost use Rattle.shapes.specs.Kept.{number_ends};
ghost use Rattle.numbering.specs.Numbering.{Sent, marks_joined, many_joined};
ghost use Rattle.numbering.specs.RidgesMatch.{RidgesMatch};

use arrayvec::ArrayVec;
use rows::{EDGE_CODES, MOST_POINTS, Rows};

// ---- ridge orbits

// The images of a ridge that have no mark get this number as theirs; returns how many they are. Counted by hand: the
// loop marks what it counts, and a `filter` would have to mark in its test.
fn open_ridge(rows: Rows, key: usize, number: u16, marks: &mut [Option<u16>; EDGE_CODES]) -> usize
    requires { (key < 400) × Sent rows.count rows.bytes.now (pair_of key) }
    ensures counts { result ≡ many_joined marks.old number
        (pair_codes (rows_in 32 rows.entry.count rows.entry.bytes.now) (pair_of key)) }
    ensures marks { marks.new ≡ marks_joined marks.old number
        (pair_codes (rows_in 32 rows.entry.count rows.entry.bytes.now) (pair_of key)) }
{
    let mut count = 0;
    for i in 0..rows.count {
        let at = rows.pair_image(i, key / MOST_POINTS, key % MOST_POINTS);
        if marks[at].is_none() {
            marks[at] = Some(number);
            count += 1;
        }
    }
    count
}

// The ridge orbits opened so far: for each code of two ends the number of the ridge orbit that holds it, and how many
// ridges each ridge orbit has.
#[derive(Drop)]
pub struct RidgeOrbits {
    pub marks: [Option<u16>; EDGE_CODES],
    pub counts: ArrayVec<u32, 190>,
}

impl RidgeOrbits {
    // None is opened.
    pub fn new() -> RidgeOrbits
        ensures { RidgesMatch result (no_keys Pair) }
    {
        RidgeOrbits {
            marks: [None; EDGE_CODES],
            counts: ArrayVec::new(),
        }
    }

    // The number of the ridge orbit that holds a ridge; where there is none, one is opened and its count noted.
    // `RidgesMatch` stays a clause: it speaks of the keys, which are an argument of the proof alone, so that no field
    // can hold them. So does that there are 120 rows at most: `Rows` are any number of them.
    pub fn number(&mut self, rows: Rows, key: usize) -> u16
        requires { (rows.count ≤ 120)
            × (key < 400)
            × Sent rows.count rows.bytes.now (pair_of key)
            × ((keys : KnownKeys Pair) × RidgesMatch self.old keys
            × (length (number_ends (rows_in 32 rows.count rows.bytes.now) keys (pair_of key)).1.counts ≤ 190)) }
        ensures { (keys : KnownKeys Pair) → RidgesMatch self.old keys
            → (result ≡ (number_ends (rows_in 32 rows.entry.count rows.entry.bytes.now) keys (pair_of key)).0)
            × RidgesMatch self.new
            (number_ends (rows_in 32 rows.entry.count rows.entry.bytes.now) keys (pair_of key)).1 }
    {
        match self.marks[key] {
            Some(number) => number,
            None => {
                let number = self.counts.len() as u16;
                let count = open_ridge(rows, key, number, &mut self.marks);
                self.counts.push(count as u32);
                number
            }
        }
    }
}
