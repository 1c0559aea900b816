// Edges as marks: a table of 400, with a mark at the code 20 v + w of each edge of an entry. The marks of a facet's
// images, their number, and their words. Leans on the words of figures.

#![tactic(auto)]

ghost use Rattle.std.specs.Prelude.{◌≡◌, ◌+◌, ◌*◌, ◌-◌, ◌/◌, ◌%◌, ◌≤◌, ◌<◌, false, length};
ghost use Rattle.pool.specs.Pool.{count, closed_lists};
ghost use Rattle.definitions.specs.Job.{figure_words};
ghost use Rattle.order.specs.Areas.{list_at, list_of};
ghost use Rattle.order.specs.Numbers.{ItemsBelow};
ghost use Rattle.rows.specs.Marks.{marked};
ghost use Rattle.rows.specs.Rows.{rows_in};
ghost use Rattle.shapes.specs.EdgeSets.{polygon};
ghost use Rattle.shapes.specs.FigureWords.{edge_words};
ghost use Rattle.words.specs.Wrote.{Writes};
ghost use Rattle.shapes.specs.UsedPoints.{end_of, ends_used};
ghost use Rattle.edge_marks.specs.Summaries.{summary_marked};
ghost use Rattle.edge_marks.specs.Marks.{EdgesFit, image_codes, marks_of, codes_marked, edges_marked};

use order::{Lists, Pool};
use rows::{EDGE_CODES, MOST_POINTS, Rows};
use words::Writer;

// ---- edges as marks

// The edges of facets, a list of codes for each, and the rows that carry them. A code is packed, since the lists lie
// in bytes of the workspace that a caller lends (no heap), and taken apart where it is used.
#[derive(Clone, Copy)]
pub struct Facets<'a> {
    pub edges: Pool<'a>,
    pub rows: Rows<'a>,
    pub ghost most: { edges.most ≡ 1024 },
    pub ghost fit: { EdgesFit rows.count rows.bytes.now edges.bytes.now },
}

// All row images of the edges of facet x are marked.
pub fn mark_facet(facets: Facets, x: usize, marks: &mut [bool; EDGE_CODES])
    requires { x < count facets.edges.bytes.now }
    ensures { marks.new
        ≡ marked marks.old (image_codes (rows_in 32 facets.entry.rows.count facets.entry.rows.bytes.now)
        (list_at 1024 facets.entry.edges.bytes.now x)) }
{
    for edge in facets.edges.items(x) {
        let code = usize::from(edge);
        rows::mark_pair_images(facets.rows, code / MOST_POINTS, code % MOST_POINTS, marks);
    }
}

// All row images of the edges of the facets of list k. `ItemsBelow` stays a clause: it speaks of that one list, and k
// is another parameter.
pub fn mark_list(lists: Lists, k: usize, facets: Facets) -> [bool; EDGE_CODES]
    requires { (k < lists.area.count)
        × ItemsBelow (count facets.edges.bytes.now) (list_of lists.area lists.bytes.now k) }
    ensures { result ≡ marks_of (rows_in 32 facets.entry.rows.count facets.entry.rows.bytes.now)
        (closed_lists 2 1024 facets.entry.edges.bytes.now) (list_of lists.entry.area lists.entry.bytes.now k) }
{
    let mut marks = [false; EDGE_CODES];
    for x in lists.items(k) {
        mark_facet(facets, usize::from(x), &mut marks);
    }
    marks
}

// How many edges are marked. A sum, which the compiler makes additions: `filter(..).count()` branches at each of the
// 400 marks. With this and `write_marks` in their old forms (a chain here, `iter().enumerate()` there) a hexagon's
// job took 1.25 times as long as it does (docs/MEASUREMENTS.md, "Forms that were slower").
pub fn count_marks(marks: &[bool; EDGE_CODES]) -> usize
    ensures { (result ≡ length (codes_marked marks.now 400)) × (result ≤ 400) }
{
    let mut many = 0;
    for code in 0..EDGE_CODES {
        many += usize::from(marks[code]);
    }
    many
}

// The marked edges, upward. By the codes: `iter().enumerate()` was measured to be slower (see `count_marks`).
pub fn write_marks(w: &mut Writer, marks: &[bool; EDGE_CODES])
    ensures { Writes w.old w.new (edge_words (edges_marked marks.now)) }
{
    for code in 0..EDGE_CODES {
        if marks[code] {
            figure_words::write_edge(w, code);
        }
    }
}

// The polygon over n points with the marked edges.
pub fn write_marked(w: &mut Writer, n: usize, marks: &[bool; EDGE_CODES])
    requires { n < 4294967296 }
    ensures { Writes w.old w.new (figure_words (polygon n (edges_marked marks.now))) }
{
    let edges = count_marks(marks);
    figure_words::write_head(w, 4, n);
    w.push(edges as u32);
    write_marks(w, marks);
    figure_words::write_body(w, edges);
}

// ---- summaries

// Whether a vertex is an end of some marked edge.
fn is_end(marks: &[bool; EDGE_CODES], v: usize) -> bool
    requires { v < 20 }
    ensures { result ≡ end_of (edges_marked marks.now) v }
{
    (0..MOST_POINTS).any(|w| marks[MOST_POINTS * v + w] || marks[MOST_POINTS * w + v])
}

// How many of n vertices are an end of some marked edge.
fn count_ends(marks: &[bool; EDGE_CODES], n: usize) -> usize
    requires { n ≤ 20 }
    ensures { (result ≡ ends_used n (edges_marked marks.now)) × (result ≤ n) }
{
    (0..n).filter(|v| is_end(marks, *v)).count()
}

// The summary of a figure over n points, with the marked edges, which are so many, and with so many facets, at every
// rank: the points that are an end of an edge, the edges, the facets.
pub fn write_summary(
    w: &mut Writer,
    marks: &[bool; EDGE_CODES],
    n: usize,
    edges: usize,
    facets: usize,
)
    requires { (n ≤ 20) × (edges ≡ length (codes_marked marks.now 400)) × (edges ≤ 400) × (facets < 4294967296) }
    ensures { Writes w.old w.new (summary_marked n marks.now facets) }
{
    let points = count_ends(marks, n);
    w.push_three(points as u32, edges as u32, facets as u32);
}
