// The call above rank 2 [9.1]: what an inner call answers is kept, and from what is kept comes the answer. All in the
// workspace.

#![tactic(auto)]

ghost use Rattle.std.specs.Prelude.{◌≡◌, ℕ, ◌*◌, ◌-◌, ◌^◌, ◌≤◌, ◌<◌, length, List, [], map};
ghost use Rattle.inner_answers.specs.AnswerMatches.{AnswerMatches};
ghost use Rattle.faceting.specs.Asked.{Asked};
ghost use Rattle.faceting.specs.Ways.{way_of, WayFits, taken_or_refusal};
ghost use Rattle.definitions.specs.Subspace.{from_points};
ghost use Rattle.definitions.specs.Orbits.{Orbit, point_at, hyperplane_orbits};
ghost use Rattle.definitions.specs.Recursion.{rows_within};
ghost use Rattle.laws.specs.Sets.{vertices_of};
ghost use Rattle.rows.specs.Rows.{rows_in, written_rows};
ghost use Rattle.space.specs.Meaning.{points_of, subspace_of, HoldsPoints, limits_of};
ghost use Rattle.orbits.specs.Workspace.{orbits_room};
ghost use Rattle.orbits.specs.Answers.{answer_in, orbits_or_refusal};
ghost use Rattle.layout.specs.Keeps.{LayoutFits, Keeps, Ridges};
ghost use Rattle.layout.specs.Capacities.{layout_for};
ghost use Rattle.sets.specs.Refitting.{Refitted};
ghost use Rattle.call_search.specs.PreparedCalls.{call_rules};

use calls::{Called, Rules};
use inner_answers::Stored;
use openers::PairSearch;
use orbits::Search;
use refusals::Refusal;
use rows::{ROWS_ROOM, Rows};
use space::{Points, Subspace};
use stabilizers::Symmetries;
use tallies::Package;

// ---- the orbits

// Of so many orbits that were found those that the way keeps, moved together: how many they are. A call goes plain or
// by a package [17.8]; without one every orbit stays. They lie in the bytes of the workspace, so that their number
// goes beside it. `WayFits` stays a clause, here and below: it speaks of a package that may be there or not, and of
// the number of points, which are the search's. So do `orbits_room` and `LayoutFits`: each function writes the
// workspace that they speak of. That these are the orbits found stays one too: this function alone asks it, of the
// answer of the one that found them.
fn keep_found(count: usize, way: Option<Package>, n: usize, ws: &mut [u8]) -> usize
    requires { WayFits n way
        × (orbits_room ≤ length ws.old)
        × ((bound : ℕ) × (orbits : List Orbit) × (bound ≤ 256)
        × (answer_in n (Ok count) ws.old ≡ orbits_or_refusal bound orbits)) }
    ensures { (bound : ℕ) (orbits : List Orbit) → answer_in n (Ok count) ws.old ≡ orbits_or_refusal bound orbits
        → answer_in n (Ok result) ws.new ≡ taken_or_refusal (way_of n way.entry) bound orbits }
{
    match way {
        Some(package) => tallies::keep_orbits(package, n, count, ws),
        None => count,
    }
}

// A call's hyperplane orbits are found, or refused: 13 counts them all. Then those are kept that its way keeps.
fn find_kept(
    ws: &mut [u8],
    rank: usize,
    search: Search,
    rules: Rules,
    way: Option<Package>,
) -> Result<usize, Refusal>
    requires { (rules.orbits ≤ 256) × (orbits_room ≤ length ws.old) × (3 ≤ rank) × WayFits search.flat.now.n way }
    ensures { answer_in search.entry.flat.now.n result ws.new
        ≡ taken_or_refusal (way_of search.entry.flat.now.n way.entry) rules.orbits
        (hyperplane_orbits search.entry.pairs.tolerance (limits_of search.entry.pairs.limits) rules.rule (rank - 3)
        (points_of search.entry.pairs.points.now) (points_of search.entry.flat.now)
        (rows_in search.entry.flat.now.n search.entry.pairs.rows.count search.entry.pairs.rows.bytes.now)) }
{
    let found = orbits::find_orbits(search, rank - 3, rules.rule, rules.orbits, ws)?;
    Ok(keep_found(found, way, search.flat.n, ws))
}

// A call's orbits, or a refusal. The kept areas of its rank are cleared behind the orbits.
fn start_call(
    ws: &mut [u8],
    rank: usize,
    search: Search,
    rules: Rules,
    way: Option<Package>,
) -> Result<usize, Refusal>
    requires { (rules.orbits ≤ 256)
        × (orbits_room ≤ length ws.old)
        × LayoutFits (layout_for rank) (length ws.old)
        × (3 ≤ rank) × WayFits search.flat.now.n way }
    ensures { (answer_in search.entry.flat.now.n result ws.new
        ≡ taken_or_refusal (way_of search.entry.flat.now.n way.entry) rules.orbits
        (hyperplane_orbits search.entry.pairs.tolerance (limits_of search.entry.pairs.limits) rules.rule (rank - 3)
        (points_of search.entry.pairs.points.now) (points_of search.entry.flat.now)
        (rows_in search.entry.flat.now.n search.entry.pairs.rows.count search.entry.pairs.rows.bytes.now)))
        × ((k : ℕ) → Keeps k (layout_for rank) [] ws.new × Ridges (layout_for rank) [] ws.new) }
{
    let answer = find_kept(ws, rank, search, rules, way);
    let layout = layout::layout_for(rank);
    keep::clear_kept(ws, layout);
    answer
}

// ---- the inner calls

// What an inner call is given: the plane of its set, an error where it has not the rank that is wanted, its points,
// and how many rows keep the set.
#[derive(Clone, Copy)]
pub struct Next {
    pub plane: Result<Subspace, Subspace>,
    pub points: Points,
    pub m: usize,
}

// The inner call on a set: its points from the flattened ones, its plane fitted anew, and the rows that keep it,
// written. That the set is one of these points stays a clause: the orbit that holds it lies in bytes of the
// workspace.
fn next_call(
    flat: &Points,
    set: u32,
    full: Symmetries,
    tolerance: f64,
    wanted: usize,
    inner: &mut [u8],
) -> Next
    requires { (set < 2 ^ full.n) × (full.n ≡ flat.now.n) × (32 * full.rows.count ≤ length inner.old) }
    ensures points { HoldsPoints result.points flat.now.d
        (map (point_at (points_of flat.now)) (vertices_of flat.now.n set)) }
    ensures plane { Refitted result.plane result.points
        (from_points tolerance (map (point_at (points_of flat.now)) (vertices_of flat.now.n set))) wanted }
    ensures count { result.m ≡ length (rows_within (vertices_of full.entry.n set)
        (rows_in full.entry.n full.entry.rows.count full.entry.rows.bytes.now)) }
    ensures rows { inner.new ≡ written_rows (rows_within (vertices_of full.entry.n set)
        (rows_in full.entry.n full.entry.rows.count full.entry.rows.bytes.now)) 0 inner.old }
{
    let points = sets::chosen_points(flat, set);
    let plane = sets::refit(points, tolerance, wanted);
    let m = full.rows_within(set, inner);
    Next { plane, points, m }
}

// ---- the call

// The call of every rank [9.1]. At rank 2 the rows alone answer. Above, the hyperplane orbits are found, each orbit's
// set is faceted in its own plane by the call itself at the rank below, behind what is kept, and what that answers is
// kept; then the search. The inner calls are plain, whatever the way. The first refusal met is the call's. Behind
// each turn `done` has the layout with one orbit more, and what is left of the budget. The rank ends the recursion, a
// form that was asked for. `Asked` stays a clause: it speaks of the workspace too, which the function writes. The
// loop goes by the number of an orbit: an iterator of the orbits would hold on to the workspace that the loop writes.
pub fn faceting(
    rank: usize,
    plane: Subspace,
    points: Points,
    rows: Rows,
    rules: Rules,
    budget: u32,
    ws: &mut [u8],
    way: Option<Package>,
) -> Result<Called, Refusal>
    requires { Asked rank plane points rows.bytes.now rows.count rules ws.old way }
    ensures { AnswerMatches (way_of points.n way.entry) (rank - 2) (call_rules rules) (subspace_of plane)
        (points_of points) (rows_in points.n rows.entry.count rows.entry.bytes.now) budget result ws.new }
{
    if rank == 2 {
        return Ok(Called::Ends(calls::swaps_ends(rows), budget));
    }
    let flat = points.flatten_all(&plane);
    let full = Symmetries { rows, n: flat.n };
    let pairs = PairSearch {
        points: &points,
        rows,
        limits: rules.limits,
        tolerance: rules.tolerance,
    };
    let search = Search { pairs, flat: &flat };
    let count = start_call(ws, rank, search, rules, way)?;
    let mut done = Stored {
        layout: layout::layout_for(rank),
        left: budget,
    };
    for k in 0..count {
        let mut kept = [0; ROWS_ROOM];
        let set = orbits::set_at(ws, k, flat.n);
        let next = next_call(&flat, set, full, rules.tolerance, rank - 2, &mut kept);
        let inner_plane = next.plane.map_err(|_| Refusal::Plane)?;
        let inner_rows = Rows {
            bytes: &kept,
            count: next.m,
        };
        let called = faceting(
            rank - 1,
            inner_plane,
            next.points,
            inner_rows,
            rules,
            done.left,
            &mut ws[done.layout.end..],
            None,
        );
        done = inner_answers::keep_inner(
            ws,
            done.layout,
            flat.n,
            called,
            inner_rows,
            rules.facets,
        )?;
    }
    call_search::search_call(ws, done.layout, rank, rows, rules, way.is_none(), done.left)
}
