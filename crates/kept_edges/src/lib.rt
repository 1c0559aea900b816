// What a call of rank 3 stores of an inner call of rank 2 in its kept areas: the edge between the first two vertices
// of the orbit's set, its ends as ridges, and its places among them. The contract of `keep_edge` says what is kept
// then, as `kept_of` has it.

#![tactic(auto)]

ghost use Rattle.std.specs.Prelude.{◌≡◌, cond, map, List, ◌∷◌, [], ◌++◌, ℕ, ◌+◌, ◌*◌, ◌-◌, ◌≤◌, ◌<◌, length, get_or};
ghost use Rattle.std.specs.Prelude.{take};
ghost use Rattle.definitions.specs.Job.{number_at};
ghost use Rattle.definitions.specs.Recursion.{Inner};
ghost use Rattle.laws.specs.Sets.{vertices_of};
ghost use Rattle.orbits.specs.Numbers.{orbit_of};
ghost use Rattle.shapes.specs.Kept.{Kept, kept_of};
ghost use Rattle.layout.specs.Keeps.{Keeps, Ridges, LayoutFits};
ghost use Rattle.keep.specs.Storing.{ListRoom, Stored};
ghost use Rattle.keep.specs.AreasHold.{KeptWritten};
ghost use Rattle.keep.specs.Adding.{with_facets, orbit_at};
ghost use Rattle.keep.specs.Rooms.{RoomFor};
ghost use Rattle.keep.specs.Short.{Fitting};
ghost use Rattle.kept_edges.specs.Edges.{edge_answer, EndsStored};

use arrayvec::ArrayVec;
use layout::KeptLayout;
use pool::{MOST_FACETS, MOST_ORBITS};
use rows::MOST_POINTS;
use words::{HIGH, Word};

// The second vertex: a line may have more points, and its edge ends at the second.
fn second(vertices: &ArrayVec<usize, 20>) -> usize
    requires { 2 ≤ length vertices.now.items }
    ensures { result ≡ get_or vertices.now.items 1 0 }
{
    vertices[1]
}

// ---- one list, label and owner

// These items, as one list more in the pool of an area. `ListRoom` stays a clause, and so does `LayoutFits` below:
// the workspace that they speak of is written, and a struct that held it would have each contract say besides that
// the places and the loan are as they were. No slice of the area: the clauses speak of the workspace as it was around
// the area.
fn store<T: Word>(ws: &mut [u8], from: usize, to: usize, most: usize, items: &[T])
    requires { (from ≤ to)
        × ListRoom T.BYTES most from (to - from) ws.old (length items.now)
        × Fitting T.BYTES (map T.number items.now) }
    ensures { Stored T.BYTES most from (to - from) ws.old ws.new (map T.number items.now) }
{
    for v in items {
        pool::push(&mut ws[from..to], most, *v);
    }
    pool::end_list(&mut ws[from..to]);
}

// ---- an edge

// A vertex as a ridge, with its count: 2 where some row swaps the ends, else 1. The two are packed into one number,
// as the vertices of an edge are below: a pool holds lists of numbers of one width, in bytes of the workspace that a
// caller lends, since there is no heap.
fn end_code(v: usize, swapped: bool) -> u32
    requires { v < 20 }
    ensures { result ≡ 21 * v + 65536 * cond swapped 2 1 }
{
    if swapped {
        return (21 * v) as u32 + HIGH * 2;
    }
    (21 * v) as u32 + HIGH
}

// The ends of an edge as ridges, one for both or one each, and the edge's places among them. `swapped` is a flag: it
// is what the inner call of rank 2 has answered, and a closure would be picked by the same flag.
fn keep_ends(ws: &mut [u8], layout: KeptLayout, v: usize, w: usize, swapped: bool)
    requires { (v < 20)
        × (w < 20)
        × LayoutFits layout (length ws.old)
        × ListRoom 4 256 layout.ridges (layout.places - layout.ridges) ws.old 2
        × ListRoom 2 1024 layout.places (layout.end - layout.places) ws.old 2 }
    ensures { EndsStored layout swapped v w ws.old ws.new }
{
    let many = if swapped { 1 } else { 2 };
    let codes = [end_code(v, swapped), end_code(w, swapped)];
    let numbers: [u16; 2] = [0, 1];
    store(
        ws,
        layout.ridges,
        layout.places,
        MOST_ORBITS,
        &codes[..many],
    );
    store(ws, layout.places, layout.end, MOST_FACETS, &numbers[..many]);
}

// The edge between the first two vertices of the next orbit's set, of which the inner call of rank 2 has answered
// whether some row swaps them.
pub fn keep_edge(ws: &mut [u8], layout: KeptLayout, n: usize, swapped: bool) -> KeptLayout
    requires { (n ≤ 20)
        × (2 ≤ length (vertices_of n (number_at ws.old (8 * layout.orbits) 4)))
        × ((kept : List Kept) × Keeps n layout kept ws.old × Ridges layout kept ws.old
        × RoomFor layout kept 1 1 2 2) }
    ensures layout { result ≡ with_facets layout 1 }
    ensures within { (take 2048 ws.new ≡ take 2048 ws.old) × KeptWritten layout ws.old ws.new }
    ensures keeps { (kept : List Kept) (i : Inner) (left : ℕ) → Keeps n layout kept ws.old → Ridges layout kept ws.old
        → i.orbit ≡ orbit_of n (orbit_at ws.old layout.orbits) → i.answer ≡ edge_answer swapped left
        → Keeps n result (kept ++ (kept_of i ∷ [])) ws.new × Ridges result (kept ++ (kept_of i ∷ [])) ws.new }
{
    let vertices = sets::vertices_of(u32::get(ws, 8 * layout.orbits), n);
    let v = vertices[0];
    let w = second(&vertices);
    keep_ends(ws, layout, v, w, swapped);
    store(
        ws,
        layout.edges,
        layout.labels,
        MOST_FACETS,
        &[(MOST_POINTS * v + w) as u16],
    );
    keep::store_facet(ws, layout, layout.facets, 0, layout.orbits as u16);
    keep::one_more(layout, 1)
}
