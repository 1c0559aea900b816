// The words of the possible facets of a call, orbit by orbit: how many there are, and the figure of each, an edge or
// a polygon (`FacetFigure`). Leans on the words of figures.

#![tactic(auto)]

ghost use Rattle.std.specs.Prelude.{◌≡◌, ⊤, List, ℕ, ◌+◌, ◌*◌, ◌-◌, ◌≤◌, ◌<◌, length, get_or, drop};
ghost use mathlib.Core.List.{flat_map};
ghost use Rattle.laws.specs.Segments.{part};
ghost use Rattle.words.specs.Words.{words};
ghost use Rattle.words.specs.Wrote.{Writes};
ghost use Rattle.pool.specs.Pool.{count, closed_lists};
ghost use Rattle.order.specs.Areas.{list_at};
ghost use Rattle.possible_facets.specs.Facets.{leading};
ghost use Rattle.possible_facets.specs.Possible.{edge_figure_words, polygon_words, size_in, possible_from};

use order::Pool;
use words::{Word, Writer};

// ---- figures of facets

// The facets of a call: over how many points those of an orbit lie, and what is written of one.
pub trait FacetFigure {
    // the orbits that are known
    ghost knows: { Self → ℕ → Type 0 };

    ghost size: { Self → ℕ → ℕ };

    ghost words: { ℕ → List ℕ → List ℕ };

    // Over how many points the facets of an orbit lie.
    fn size(&self, orbit: usize) -> usize
        requires { knows self.now orbit }
        ensures { (result ≡ size self.now orbit) × (result < 4294967296) };

    // The figure of facet x, which lies over so many points.
    fn write(&self, w: &mut Writer, points: usize, edges: Pool, x: usize)
        requires { (points < 4294967296) × (x < count edges.bytes.now) }
        ensures { Writes w.old w.new (words points (list_at edges.entry.most edges.entry.bytes.now x)) };
}

// Facets of rank 2: edges, over their two ends.
#[derive(Drop)]
pub struct Edges;

impl FacetFigure for Edges {
    ghost knows = { λ it orbit. ⊤ };

    ghost size = { λ it orbit. 2 };

    ghost words = { λ points. edge_figure_words };

    fn size(&self, _: usize) -> usize {
        2
    }

    fn write(&self, w: &mut Writer, _: usize, edges: Pool, x: usize) {
        figure_words::write_edge_figure(w, first_code(edges, x));
    }
}

// The code of a facet's first edge, or 0.
fn first_code(edges: Pool, x: usize) -> usize
    requires { x < count edges.bytes.now }
    ensures { (result ≡ get_or (list_at edges.entry.most edges.entry.bytes.now x) 0 0) × (result < 65536) }
{
    if edges.length(x) == 0 {
        return 0;
    }
    usize::from(edges.item(x, 0))
}

// Facets of rank 3: polygons, over the points of their orbit's set, of n vertices. The sets lie in a workspace.
#[derive(Drop)]
pub struct Polygons<'a> {
    pub ws: &'a [u8],
    pub n: usize,
}

impl FacetFigure for Polygons<'_> {
    ghost knows = { λ it orbit. (8 * orbit + 4 ≤ length it.ws.now) × (it.n < 4294967296) };

    ghost size = { λ it orbit. size_in it.n it.ws.now orbit };

    ghost words = { polygon_words };

    fn size(&self, orbit: usize) -> usize {
        sets::count_below(u32::get(self.ws, 8 * orbit), self.n)
    }

    fn write(&self, w: &mut Writer, points: usize, edges: Pool, x: usize) {
        figure_words::write_polygon(w, points, edges, x);
    }
}

// ---- orbits of facets

// The orbit of each facet, a number of two bytes. The bytes are an area of a workspace, up to where the next one
// begins, and a layout tells how many facets it has: of a slice cut to their length the number of facets would be
// half the bytes, which each clause would have to say. `facet_images::Ids` is alike, with numbers of four bytes. No
// type for every `Word` serves both: a `Word` has its number as a ghost alone, so that each user would turn a word
// into a place by itself. And `end_of`, and the bound that `orbit` promises, are of `Owners` alone.
#[derive(Clone, Copy)]
pub struct Owners<'a> {
    pub bytes: &'a [u8],
    pub facets: usize,
    pub ghost room: { 2 * facets ≤ length bytes.now },
}

impl<'a> Owners<'a> {
    // The orbit of facet x.
    pub fn orbit(self, x: usize) -> usize
        requires { x < self.facets }
        ensures { (result ≡ get_or (words 2 self.entry.bytes.now self.entry.facets) x 0) × (result < 65536) }
    {
        usize::from(u16::get(self.bytes, 2 * x))
    }

    // The first facet from x on that is not of an orbit, or the number of facets.
    fn end_of(self, x: usize, orbit: usize) -> usize
        requires { x ≤ self.facets }
        ensures { (result ≡ x + leading orbit (drop x (words 2 self.entry.bytes.now self.entry.facets)))
            × (result ≤ self.entry.facets) }
    {
        (x..self.facets)
            .find(|i| self.orbit(*i) != orbit)
            .unwrap_or(self.facets)
    }
}

// ---- possible facets

// The figures of the facets from one number to another, over so many points.
fn write_facets<T: FacetFigure>(
    w: &mut Writer,
    figures: &T,
    points: usize,
    edges: Pool,
    from: usize,
    to: usize,
)
    requires { (points < 4294967296) × (from ≤ to) × (to ≤ count edges.bytes.now) }
    ensures { Writes w.old w.new (flat_map (T.words points)
        (part from (to - from) (closed_lists 2 edges.entry.most edges.entry.bytes.now))) }
{
    for x in from..to {
        figures.write(w, points, edges, x);
    }
}

// For each orbit the number of its facets, then their figures.
pub fn write_possible<T: FacetFigure>(
    w: &mut Writer,
    figures: &T,
    owners: Owners,
    orbits: usize,
    edges: Pool,
)
    requires { ((orbit : ℕ) → orbit < orbits → T.knows figures.now orbit)
        × (owners.facets < 4294967296) × (owners.facets ≤ count edges.bytes.now) }
    ensures { Writes w.old w.new (possible_from (λ (orbit : ℕ). T.words (T.size figures.now orbit)) orbits 0
        (words 2 owners.entry.bytes.now owners.entry.facets)
        (closed_lists 2 edges.entry.most edges.entry.bytes.now)) }
{
    let mut x = 0;
    for orbit in 0..orbits {
        let points = figures.size(orbit);
        let end = owners.end_of(x, orbit);
        w.push((end - x) as u32);
        write_facets(w, figures, points, edges, x, end);
        x = end;
    }
}
