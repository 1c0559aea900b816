// The words of a figure into an answer: points, edges, a body, a whole edge or polygon. Every function takes the
// answer's writer; its contract names the words that it writes behind those that stand there (`Writes`). Words for
// which there is no room are dropped, and the writer's cursor tells.

#![tactic(auto)]

ghost use Rattle.std.specs.Prelude.{◌∷◌, [], map, ◌<◌};
ghost use Rattle.words.specs.Wrote.{Writes};
ghost use Rattle.pool.specs.Pool.{count};
ghost use Rattle.definitions.specs.Job.{figure_words};
ghost use Rattle.order.specs.Areas.{list_at};
ghost use Rattle.rows.specs.Codes.{pair_of};
ghost use Rattle.shapes.specs.Edges.{edge_figure};
ghost use Rattle.shapes.specs.EdgeSets.{polygon};
ghost use Rattle.shapes.specs.FigureWords.{point_words, edge_words, body_words};

use order::Pool;
use words::Writer;

// ---- the ranks of a figure

// An element with the one sub 0 for each point.
fn write_points(w: &mut Writer, n: usize)
    ensures { Writes w.old w.new (point_words n) }
{
    for i in 0..n {
        w.push(1);
        w.push(0);
    }
}

// The number of ranks, the empty element, and the points.
pub fn write_head(w: &mut Writer, ranks: u32, n: usize)
    requires { n < 4294967296 }
    ensures { Writes w.old w.new (ranks ∷ 1 ∷ 0 ∷ n ∷ point_words n) }
{
    w.push_three(ranks, 1, 0);
    w.push(n as u32);
    write_points(w, n);
}

// The ends of the edge with a code, 20 v + w: packed, since the lists of codes lie in bytes of the workspace that a
// caller lends (no heap), and taken apart here, where it is used.
pub fn write_edge(w: &mut Writer, code: usize)
    requires { code < 65536 }
    ensures { Writes w.old w.new (edge_words (pair_of code ∷ [])) }
{
    w.push_three(2, (code / 20) as u32, (code % 20) as u32);
}

// The edges whose codes are list k of a pool.
fn write_edges(w: &mut Writer, pool: Pool, k: usize)
    requires { k < count pool.bytes.now }
    ensures { Writes w.old w.new (edge_words (map pair_of (list_at pool.entry.most pool.entry.bytes.now k))) }
{
    for edge in pool.items(k) {
        write_edge(w, usize::from(edge));
    }
}

// A body that names the facets 0 to n - 1.
pub fn write_body(w: &mut Writer, n: usize)
    requires { n < 4294967296 }
    ensures { Writes w.old w.new (body_words n) }
{
    w.push(1);
    w.push(n as u32);
    for facet in 0..n {
        w.push(facet as u32);
    }
}

// ---- figures of facets

// The figure of rank 2 that is an edge.
pub fn write_edge_figure(w: &mut Writer, code: usize)
    requires { code < 65536 }
    ensures { Writes w.old w.new (figure_words (edge_figure (pair_of code))) }
{
    write_head(w, 3, 2);
    w.push(1);
    write_edge(w, code);
}

// The polygon over n points with the edges whose codes are list k of a pool.
pub fn write_polygon(w: &mut Writer, n: usize, pool: Pool, k: usize)
    requires { (n < 4294967296) × (k < count pool.bytes.now) }
    ensures { Writes w.old w.new
        (figure_words (polygon n (map pair_of (list_at pool.entry.most pool.entry.bytes.now k)))) }
{
    let edges = pool.length(k);
    write_head(w, 4, n);
    w.push(edges as u32);
    write_edges(w, pool, k);
    write_body(w, edges);
}
