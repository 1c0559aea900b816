// Openers: the vertices and the pairs of vertices that open an orbit under the rows, in the order of [5.2] and [5.4].
// Marks stand in local arrays. Each function equals a definition of Orbits for every n up to 20 and any number of
// rows, which need not be closed under composition. Leans on rows and their marks.

#![tactic(auto)]

ghost use Rattle.std.specs.Prelude.{◌≡◌, [], ◌++◌, ◌+◌, ◌-◌, ◌≤◌, ◌<◌, length};
ghost use Rattle.definitions.specs.Lists.{count_from};
ghost use Rattle.definitions.specs.Orbits.{vertex_openers, breaks_limit, pair_openers, pairs_from};
ghost use Rattle.space.specs.Meaning.{points_of, limits_of};
ghost use Rattle.rows.specs.Rows.{rows_in, RowsFit};
ghost use Rattle.rows.specs.Marks.{walked, marks_after};
ghost use Rattle.rows.specs.Codes.{pair_code, pair_codes};
ghost use Rattle.openers.specs.Meaning.{breaks, pairs_above};

use arrayvec::ArrayVec;
use rows::{EDGE_CODES, MOST_POINTS, Rows, mark_pair_images};
use space::{Limits, Points};

// ---- a call's openers

// What the openers of a call go by: its points as passed, on which lengths are taken, its rows, which send these
// points' vertices to one another, the limits on lengths and the tolerance.
#[derive(Clone, Copy)]
pub struct PairSearch<'a> {
    pub points: &'a Points,
    pub rows: Rows<'a>,
    pub limits: Limits,
    pub tolerance: f64,
    pub ghost fit: { RowsFit points.now.n rows.count rows.bytes.now },
}

impl<'a> PairSearch<'a> {
    // [5.2] the vertices that open an orbit, upward; what the rows carry one to is marked. Marks are those of pairs,
    // a vertex v being the pair (v, v).
    fn vertex_openers(self) -> ArrayVec<usize, 20>
        ensures { result.items
            ≡ vertex_openers (rows_in self.entry.points.now.n self.entry.rows.count self.entry.rows.bytes.now) []
            (count_from 0 self.entry.points.now.n) }
    {
        let mut marks = [false; EDGE_CODES];
        let mut found = ArrayVec::new();
        for v in 0..self.points.n {
            if !marks[MOST_POINTS * v + v] {
                mark_pair_images(self.rows, v, v, &mut marks);
                found.push(v);
            }
        }
        found
    }

    // Whether the length of the pair (v, w) breaks a limit.
    pub fn breaks_limit(self, v: usize, w: usize) -> bool
        requires { (v < self.points.now.n) × (w < self.points.now.n) }
        ensures { result ≡ breaks_limit self.entry.tolerance (limits_of self.entry.limits)
            (points_of self.entry.points.now) v w }
    {
        self.points.breaks_limit(v, w, self.limits, self.tolerance)
    }

    // The pairs (v, w) for each w > v, in order: one that is marked or whose length breaks a limit opens nothing and
    // marks nothing; any other opens an orbit and joins the pairs.
    fn pairs_above(
        self,
        v: usize,
        marks: &mut [bool; EDGE_CODES],
        pairs: &mut ArrayVec<(u8, u8), 190>,
    )
        requires { (v < self.points.now.n) × (length pairs.old.items + (self.points.now.n - (v + 1)) ≤ 190) }
        ensures joins { pairs.new.items ≡ pairs.old.items
            ++ walked pair_code (pair_codes (rows_in 32 self.entry.rows.count self.entry.rows.bytes.now))
            (breaks self.entry.tolerance (limits_of self.entry.limits) (points_of self.entry.points.now)) marks.old
            (pairs_above self.entry.points.now.n v) }
        ensures marks { marks.new
            ≡ marks_after pair_code (pair_codes (rows_in 32 self.entry.rows.count self.entry.rows.bytes.now))
            (breaks self.entry.tolerance (limits_of self.entry.limits) (points_of self.entry.points.now)) marks.old
            (pairs_above self.entry.points.now.n v) }
    {
        for w in v + 1..self.points.n {
            if !marks[MOST_POINTS * v + w] && !self.breaks_limit(v, w) {
                mark_pair_images(self.rows, v, w, marks);
                pairs.push((v as u8, w as u8));
            }
        }
    }

    // [5.4] the pairs that open an orbit, for each opener and each vertex above it. Vertices stand in bytes, since
    // the list is handed out by value once a facet.
    pub fn pair_openers(self) -> ArrayVec<(u8, u8), 190>
        ensures { result.items ≡ pair_openers
            (breaks self.entry.tolerance (limits_of self.entry.limits) (points_of self.entry.points.now))
            (rows_in self.entry.points.now.n self.entry.rows.count self.entry.rows.bytes.now) []
            (pairs_from self.entry.points.now.n (vertex_openers (rows_in self.entry.points.now.n self.entry.rows.count
            self.entry.rows.bytes.now) [] (count_from 0 self.entry.points.now.n))) }
    {
        let openers = self.vertex_openers();
        let mut marks = [false; EDGE_CODES];
        let mut pairs = ArrayVec::new();
        for v in openers.as_slice() {
            self.pairs_above(*v, &mut marks, &mut pairs);
        }
        pairs
    }
}
