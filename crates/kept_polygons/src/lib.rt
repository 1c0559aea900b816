// What a call of rank 4 stores of an inner call of rank 3 in its kept areas: the orbit's ridges, and for each entry a
// facet with its edges, its places, its components and its orbit. The contract of `keep_polygons` says what is kept
// then, as `kept_of` has it.

#![tactic(auto)]

ghost use Rattle.std.specs.Prelude.{◌≡◌, List, ◌∷◌, [], ◌++◌, ℕ, ◌+◌, ◌-◌, ◌/◌, ◌%◌, ◌≤◌, ◌<◌, length, get_or, take};
ghost use Rattle.std.specs.Prelude.{drop};
ghost use Rattle.std.specs.Prelude.{None};
ghost use Rattle.definitions.specs.Recursion.{Inner};
ghost use Rattle.orbits.specs.Numbers.{orbit_of};
ghost use Rattle.order.specs.Areas.{HoldsOrder};
ghost use Rattle.labels.specs.Labels.{label_of};
ghost use Rattle.shapes.specs.Kept.{Kept, kept_of};
ghost use Rattle.layout.specs.Keeps.{Keeps, Ridges, LayoutFits, raised};
ghost use Rattle.layout.specs.Leaves.{lists_left};
ghost use Rattle.keep.specs.Storing.{ListRoom, Stored};
ghost use Rattle.keep.specs.AreasHold.{KeptWritten};
ghost use Rattle.keep.specs.Adding.{with_facets, orbit_at};
ghost use Rattle.left_edges.specs.Polygons.{EdgesLeft};
ghost use Rattle.left_edges.specs.Reading.{HasVertex, ridges_moved};
ghost use Rattle.kept_polygons.specs.Facets.{Source, FacetStored, FacetsStored, FacetsRoom, entry_at, labels_left};
ghost use Rattle.kept_polygons.specs.Facets.{codes_of, all_codes, all_labels, all_lists};
ghost use Rattle.kept_polygons.specs.Whole.{InnerLeft, PolygonRoom, inner_answer};

use arrayvec::ArrayVec;
use layout::{KeptLayout, Level, ORDER_BYTES};
use pool::{MOST_FACETS, MOST_ORBITS};
use rows::{EDGE_CODES, Rows};
use words::{HIGH, Word};

// ---- what is read of an inner call

// What is read of an inner call of rank 3: the place in the workspace from which it has left its answer, its level,
// its rows, and the vertices of the orbit's set, which its points are moved to.
#[derive(Clone, Copy)]
struct InnerPart<'a> {
    at: usize,
    level: Level,
    rows: Rows<'a>,
    vertices: &'a ArrayVec<usize, 20>,
}

// ---- a facet's places and label, and the ridges

// The facets of entry k of the inner call, which begins at a place behind the pool, are one list more. By their
// number: an iterator of them (`Lists::items`) would hold what the inner call left from one to the next, and the pool
// before it is written in between, so that it is lent anew each turn. `ListRoom` stays a clause, and so does
// `LayoutFits` below: the workspace that they speak of is written, and a struct that held it would have each contract
// say besides that the places and the loan are as they were.
fn store_places(ws: &mut [u8], part: InnerPart, k: usize, from: usize, to: usize)
    requires { (from ≤ to)
        × (to ≤ part.at)
        × (part.at + part.level.lists ≤ length ws.old)
        × HoldsOrder 1024 part.level.bytes part.level.count (drop part.level.lists (drop part.at ws.old))
        × (k < part.level.count)
        × ListRoom 2 1024 from (to - from) ws.old
        (length (get_or (lists_left part.level (drop part.at ws.old)) k [])) }
    ensures { Stored 2 1024 from (to - from) ws.old ws.new
        (get_or (lists_left part.entry.level (drop part.entry.at ws.old)) k []) }
{
    let items = left_edges::entries(&ws[part.at..], part.level).length(k);
    for i in 0..items {
        let x = left_edges::entries(&ws[part.at..], part.level).item(k, i);
        pool::push(&mut ws[from..to], MOST_FACETS, x);
    }
    pool::end_list(&mut ws[from..to]);
}

// Each inner orbit's edge, moved to the vertices, with its count: the orbit's ridges. `EdgesLeft` stays a clause: it
// speaks of the list of kept facets, which stands in no memory, so that no field can hold it.
fn store_ridges(ws: &mut [u8], part: InnerPart, from: usize, to: usize)
    requires { (from ≤ to)
        × (to ≤ part.at)
        × (part.at ≤ length ws.old)
        × ((n : ℕ) × (m : ℕ) × (rows : List ℕ) × (inner : List Kept)
        × EdgesLeft n m inner part.level rows (drop part.at ws.old)
        × ListRoom 4 256 from (to - from) ws.old (length inner)
        × ((p : ℕ) → p < n → HasVertex part.vertices.now.items p)) }
    ensures { (n m : ℕ) (rows : List ℕ) (inner : List Kept)
        → EdgesLeft n m inner part.entry.level rows (drop part.entry.at ws.old)
        → Stored 4 256 from (to - from) ws.old ws.new (ridges_moved part.entry.vertices.now.items inner) }
{
    for a in 0..part.level.layout.orbits {
        let code = left_edges::moved(
            left_edges::edge_at(&ws[part.at..], part.level.layout, a),
            part.vertices,
        ) as u32;
        let count = u32::get(&ws[part.at..], 8 * a + 4);
        pool::push(&mut ws[from..to], MOST_ORBITS, code + HIGH * count);
    }
    pool::end_list(&mut ws[from..to]);
}

// A facet's label, its components raised by the number of facets kept before. The label stays one packed number, as
// the bytes of its area hold it: to unpack it into an Option of a pair, only to pack it again, would be longer.
fn raise(label: u32, first: usize) -> u32
    requires { (first ≤ 1024) × (65536 ≤ label → (label / 65536 < 1024) × (label % 65536 < 1024)) }
    ensures { label_of result ≡ raised first (label_of label) }
{
    if label < HIGH {
        return 0;
    }
    label + 65537 * first as u32
}

// ---- a polygon

// Entry k of the inner call is one facet more: its edges, its places, its label and its orbit.
fn keep_facet(ws: &mut [u8], layout: KeptLayout, part: InnerPart, k: usize)
    requires { LayoutFits layout (length ws.old)
        × (layout.end ≤ part.at)
        × (layout.orbits < 256)
        × (layout.facets + part.level.count ≤ 1024)
        × (k < part.level.count)
        × ((n : ℕ) × (inner : List Kept)
        × Source n part.rows.count inner part.level part.rows.bytes.now part.at part.vertices.now.items ws.old
        × ListRoom 2 1024 layout.edges (layout.labels - layout.edges) ws.old (length (codes_of n part.rows.count
        part.rows.bytes.now inner part.vertices.now.items (entry_at part.level part.at ws.old k)))
        × ListRoom 2 1024 layout.places (layout.end - layout.places) ws.old
        (length (entry_at part.level part.at ws.old k))) }
    ensures { (n : ℕ) (inner : List Kept) → Source n part.entry.rows.count inner part.entry.level
        part.entry.rows.bytes.now part.entry.at part.entry.vertices.now.items ws.old
        → FacetStored layout k (codes_of n part.entry.rows.count part.entry.rows.bytes.now inner
        part.entry.vertices.now.items (entry_at part.entry.level part.entry.at ws.old k))
        (raised layout.facets (get_or (labels_left part.entry.level part.entry.at ws.old) k None))
        (entry_at part.entry.level part.entry.at ws.old k) ws.old ws.new }
{
    let mut marks = [false; EDGE_CODES];
    left_edges::mark_entry(&ws[part.at..], part.level, k, part.rows, &mut marks);
    left_edges::store_edges(ws, layout.edges, layout.labels, &marks, part.vertices);
    store_places(ws, part, k, layout.places, layout.end);
    let place = part.level.lists + (part.level.bytes + ORDER_BYTES + 4 * k);
    let label = raise(u32::get(&ws[part.at..], place), layout.facets);
    keep::store_facet(ws, layout, layout.facets + k, label, layout.orbits as u16);
}

// Every entry of the inner call is a facet.
fn keep_facets(ws: &mut [u8], layout: KeptLayout, part: InnerPart)
    requires { (layout.end ≤ part.at)
        × (layout.orbits < 256)
        × (layout.facets + part.level.count ≤ 1024)
        × ((n : ℕ) × (inner : List Kept)
        × Source n part.rows.count inner part.level part.rows.bytes.now part.at part.vertices.now.items ws.old
        × FacetsRoom layout n part.rows.count inner part.level part.rows.bytes.now part.at part.vertices.now.items
        ws.old) }
    ensures { (n : ℕ) (inner : List Kept) → Source n part.entry.rows.count inner part.entry.level
        part.entry.rows.bytes.now part.entry.at part.entry.vertices.now.items ws.old
        → FacetsStored layout part.entry.level.count (all_codes layout n part.entry.rows.count inner
        part.entry.level part.entry.rows.bytes.now part.entry.at part.entry.vertices.now.items ws.old)
        (all_labels layout n part.entry.rows.count inner part.entry.level part.entry.rows.bytes.now part.entry.at
        part.entry.vertices.now.items ws.old) (all_lists layout n part.entry.rows.count inner part.entry.level
        part.entry.rows.bytes.now part.entry.at part.entry.vertices.now.items ws.old) ws.old ws.new }
{
    for k in 0..part.level.count {
        keep_facet(ws, layout, part, k);
    }
}

// The facets of the next orbit of a call of rank 4: the entries of its inner call of rank 3, which has left its
// answer behind what is kept, from a place on. Its rows are `rows`. The place stays an argument: the function
// promises this for any place behind what is kept, and one that took the layout's end as the place would ask more.
pub fn keep_polygons(
    ws: &mut [u8],
    layout: KeptLayout,
    n: usize,
    at: usize,
    level: Level,
    rows: Rows,
) -> KeptLayout
    requires { (n ≤ 20)
        × (layout.end ≤ at)
        × (at ≤ length ws.old)
        × ((kept : List Kept) × (inner : List Kept) × Keeps n layout kept ws.old × Ridges layout kept ws.old
        × InnerLeft n layout at rows.count inner level rows.bytes.now ws.old
        × PolygonRoom n layout at rows.count kept inner level rows.bytes.now ws.old) }
    ensures layout { result ≡ with_facets layout level.count }
    ensures within { (take 2048 ws.new ≡ take 2048 ws.old) × KeptWritten layout ws.old ws.new }
    ensures keeps { (kept inner : List Kept) (i : Inner) (left : ℕ) → Keeps n layout kept ws.old
        → Ridges layout kept ws.old → InnerLeft n layout at rows.entry.count inner level rows.entry.bytes.now ws.old
        → i.orbit ≡ orbit_of n (orbit_at ws.old layout.orbits)
        → i.answer ≡ inner_answer n layout at rows.entry.count inner level rows.entry.bytes.now ws.old left
        → Keeps n result (kept ++ (kept_of i ∷ [])) ws.new × Ridges result (kept ++ (kept_of i ∷ [])) ws.new }
{
    let vertices = sets::vertices_of(u32::get(ws, 8 * layout.orbits), n);
    let part = InnerPart {
        at,
        level,
        rows,
        vertices: &vertices,
    };
    store_ridges(ws, part, layout.ridges, layout.places);
    keep_facets(ws, layout, part);
    keep::one_more(layout, level.count)
}
