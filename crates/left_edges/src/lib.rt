// What an inner call of rank 3 has left, read: the facets of its entries and their edges. The images of an entry's
// edges are marked, and the marked ones, moved to the vertices of the orbit's set, are one list more.

#![tactic(auto)]

ghost use Rattle.std.specs.Prelude.{◌≡◌, true, false, List, [], map, ℕ, ◌-◌, ◌/◌, ◌%◌, ◌≤◌, ◌<◌, length, get_or, drop};
ghost use Rattle.definitions.specs.Orbits.{pair_image};
ghost use Rattle.rows.specs.Rows.{rows_in};
ghost use Rattle.rows.specs.Marks.{marked};
ghost use Rattle.rows.specs.Codes.{pair_code};
ghost use Rattle.order.specs.Areas.{HoldsOrder};
ghost use Rattle.shapes.specs.Kept.{Kept};
ghost use Rattle.layout.specs.Areas.{area_of};
ghost use Rattle.layout.specs.Keeps.{LayoutFits, Lists, edges_part};
ghost use Rattle.layout.specs.Leaves.{lists_left};
ghost use Rattle.keep.specs.Storing.{ListRoom, Stored};
ghost use Rattle.left_edges.specs.Marked.{marked_codes};
ghost use Rattle.left_edges.specs.Polygons.{edge_at, images_of, EdgesLeft};
ghost use Rattle.left_edges.specs.Reading.{moved_code, PairHasVertices};

use arrayvec::ArrayVec;
use layout::{KeptLayout, Level};
use pool::MOST_FACETS;
use rows::{EDGE_CODES, MOST_POINTS, Rows};

// ---- what an inner call of rank 3 has left

// The workspace and the level go side by side, and not in a struct such as `writing::Left`: `ListsHeld`, which `Left`
// holds, is more than is known here.

// The lists of its entries, in their order: list k is the facets of entry k.
pub fn entries(s: &[u8], level: Level) -> order::Lists
    requires { (level.lists ≤ length s.now) × HoldsOrder 1024 level.bytes level.count (drop level.lists s.now) }
    ensures { (result.bytes.now ≡ drop level.lists s.now) × (result.area ≡ area_of level) }
{
    order::Lists {
        bytes: &s[level.lists..],
        area: level.area(),
    }
}

// The first edge of facet x, as its code 20 v + w: packed, since the lists lie in bytes of the workspace that a
// caller lends (no heap), and taken apart where it is used. `LayoutFits` stays a clause: elsewhere it is asked of a
// workspace that is written, and no other function of this crate asks it.
pub fn edge_at(s: &[u8], layout: KeptLayout, x: usize) -> usize
    requires { LayoutFits layout (length s.now)
        × ((lists : List (List ℕ)) × Lists 2 1024 (edges_part layout s.now) lists × (x < length lists)
        × (0 < length (get_or lists x []))) }
    ensures { (lists : List (List ℕ)) → Lists 2 1024 (edges_part layout s.now) lists → x < length lists
        → 0 < length (get_or lists x []) → result ≡ get_or (get_or lists x []) 0 0 }
{
    usize::from(pool::item::<u16>(&s[layout.edges..layout.labels], MOST_FACETS, x, 0))
}

// ---- a facet's edges

// The images of facet x's edge are marked. `EdgesLeft` stays a clause, here and below: it speaks of the list of kept
// facets, which stands in no memory, so that no field can hold it.
fn mark_facet(s: &[u8], level: Level, x: usize, rows: Rows, marks: &mut [bool; EDGE_CODES])
    requires { (n : ℕ)
        × (inner : List Kept)
        × EdgesLeft n rows.count inner level rows.bytes.now s.now × (x < length inner) }
    ensures { (n : ℕ) (inner : List Kept) → EdgesLeft n rows.entry.count inner level rows.entry.bytes.now s.now
        → x < length inner → marks.new ≡ marked marks.old
        (map pair_code (map (pair_image (edge_at inner x)) (rows_in n rows.entry.count rows.entry.bytes.now))) }
{
    let code = edge_at(s, level.layout, x);
    rows::mark_pair_images(rows, code / MOST_POINTS, code % MOST_POINTS, marks);
}

// The images of the edges of entry k's facets are marked.
pub fn mark_entry(s: &[u8], level: Level, k: usize, rows: Rows, marks: &mut [bool; EDGE_CODES])
    requires { (n : ℕ)
        × (inner : List Kept)
        × EdgesLeft n rows.count inner level rows.bytes.now s.now × (k < level.count) }
    ensures { (n : ℕ) (inner : List Kept) → EdgesLeft n rows.entry.count inner level rows.entry.bytes.now s.now
        → marks.new ≡ marked marks.old (map pair_code (images_of
        (rows_in n rows.entry.count rows.entry.bytes.now) inner (get_or (lists_left level s.now) k []))) }
{
    for x in entries(s, level).items(k) {
        mark_facet(s, level, usize::from(x), rows, marks);
    }
}

// The vertex at a position, and 0 behind the last.
fn vertex_at(vertices: &ArrayVec<usize, 20>, position: usize) -> usize
    ensures { result ≡ get_or vertices.now.items position 0 }
{
    vertices.as_slice().get(position).copied().unwrap_or(0)
}

// The code of a pair of positions, moved to the vertices at them.
pub fn moved(code: usize, vertices: &ArrayVec<usize, 20>) -> usize
    requires { PairHasVertices vertices.now.items code }
    ensures { (result ≡ moved_code vertices.now.items code) × (result < 400) }
{
    MOST_POINTS * vertex_at(vertices, code / MOST_POINTS) + vertex_at(vertices, code % MOST_POINTS)
}

// The marked edges, ascending, moved to the vertices, are one list more. `ListRoom` stays a clause: the workspace
// that it speaks of is written, and a struct that held it would have the contract say besides that the places and the
// loan are as they were. No slice of the area: the clauses speak of the workspace as it was around the area.
pub fn store_edges(
    ws: &mut [u8],
    from: usize,
    to: usize,
    marks: &[bool; EDGE_CODES],
    vertices: &ArrayVec<usize, 20>,
)
    requires { (from ≤ to)
        × ListRoom 2 1024 from (to - from) ws.old (length (marked_codes marks.now))
        × ((c : ℕ) → c < 400 → get_or marks.now c false ≡ true → PairHasVertices vertices.now.items c) }
    ensures { Stored 2 1024 from (to - from) ws.old ws.new
        (map (moved_code vertices.now.items) (marked_codes marks.now)) }
{
    for (c, marked) in marks.iter().enumerate() {
        if *marked {
            let code = moved(c, vertices) as u16;
            pool::push(&mut ws[from..to], MOST_FACETS, code);
        }
    }
    pool::end_list(&mut ws[from..to]);
}
