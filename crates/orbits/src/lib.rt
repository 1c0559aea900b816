// Hyperplane orbits in the workspace. Its first 2,048 bytes hold up to 256 orbits, eight bytes each: the number of
// the first set, and how many sets the orbit has. Behind them lie the numbers of all sets seen, ascending, at most
// 120 for an orbit. Each function equals a step of [5.5] to [5.7], at any tolerance and any rank from 3.

#![tactic(auto)]

ghost use Rattle.std.specs.Prelude.{◌≡◌, ◌∷◌, [], ◌+◌, ◌*◌, ◌%◌, ◌^◌, ◌≤◌, ◌<◌, length, OnErr};
ghost use Rattle.definitions.specs.Job.{number_at};
ghost use Rattle.definitions.specs.Orbits.{point_at, most_vertices, hyperplane_orbits};
ghost use Rattle.space.specs.Meaning.{points_of, HoldsPoints, limits_of};
ghost use Rattle.words.specs.Words.{words};
ghost use Rattle.sorted.specs.Ascending.{Ascending};
ghost use Rattle.sorted.specs.Gathering.{Gathering};
ghost use Rattle.rows.specs.Rows.{rows_in};
ghost use Rattle.orbits.specs.Numbers.{image_numbers, may_open};
ghost use Rattle.orbits.specs.Workspace.{seen_in, orbits_room, OrbitsRoom, Opened};
ghost use Rattle.orbits.specs.Walks.{Walked, extensions, keeps_limits};
ghost use Rattle.orbits.specs.Answers.{CallFits, PairsRise, pair_tuples, answer_in, orbits_or_refusal};

use arrayvec::ArrayVec;
use openers::PairSearch;
use refusals::Refusal;
use rows::MOST_ROWS;
use sets::{points_near, set_image, vertices_of};
use sorted::Sorted;
use space::{Points, Subspace};
use stabilizers::Symmetries;
use words::Word;

// How many sets were seen and how many orbits found.
#[derive(Clone, Copy)]
pub struct Progress {
    pub known: usize,
    pub count: usize,
}

// ---- sets seen

// The sets seen, as they lie in the workspace: in its bytes, so that their number goes beside it.
fn seen(ws: &[u8], known: usize) -> Sorted
    requires { (2048 + 4 * known ≤ length ws.now) × Ascending (seen_in known ws.now) }
    ensures { words 4 result.bytes.now result.count ≡ seen_in known ws.now }
{
    Sorted {
        bytes: &ws[ORBITS_BYTES..],
        count: known,
    }
}

// [5.7] [5.8] Whether a set opens an orbit: it was not seen, and has not more than so many of n vertices.
fn may_open(seen: Sorted, set: u32, n: usize, most: usize) -> bool
    requires { n ≤ 20 }
    ensures { result ≡ may_open n most (words 4 seen.entry.bytes.now seen.entry.count) set }
{
    seen.find(set).is_none() && sets::count_below(set, n) <= most
}

// The images of a set that were not seen, ascending.
fn gather_images(full: Symmetries, set: u32, seen: Sorted) -> ArrayVec<u32, 120>
    requires { full.rows.count ≤ 120 }
    ensures { Gathering (words 4 seen.entry.bytes.now seen.entry.count) (image_numbers full.entry.n set
        (rows_in full.entry.n full.entry.rows.count full.entry.rows.bytes.now)) result.items }
{
    let vertices = vertices_of(set, full.n);
    let mut new = ArrayVec::new();
    for i in 0..full.rows.count {
        seen.gather(&mut new, set_image(full.rows.bytes, i, &vertices));
    }
    new
}

// An orbit more, or refusal 13 where there are as many as the bound allows: its first set, how many sets it has, and
// its sets among those seen. A refusal leaves the workspace as it was. `OrbitsRoom` stays a clause, here and below:
// the workspace that it speaks of is written, and a struct that held it would have each contract say besides that the
// loan is as it was.
fn open_orbit(
    full: Symmetries,
    set: u32,
    bound: usize,
    state: Progress,
    ws: &mut [u8],
) -> Result<Progress, Refusal>
    requires { (full.rows.count ≤ 120) × OrbitsRoom bound state.known state.count ws.old }
    ensures opened { Opened bound state.known state.count ws.old set (image_numbers full.entry.n set
        (rows_in full.entry.n full.entry.rows.count full.entry.rows.bytes.now)) result ws.new }
    ensures refused { OnErr result (ws.new ≡ ws.old) }
{
    if state.count == bound {
        return Err(Refusal::Orbits);
    }
    let new = gather_images(full, set, seen(ws, state.known));
    let many = new.len();
    u32::put(ws, 8 * state.count, set);
    u32::put(ws, 8 * state.count + 4, many as u32);
    sorted::merge(&mut ws[ORBITS_BYTES..], state.known, new.as_slice());
    Ok(Progress {
        known: state.known + many,
        count: state.count + 1,
    })
}

// ---- tuples

// What the orbits of a call are found by: what its pairs are chosen by, the points as passed among it, and these
// points flattened, which the rows permute.
#[derive(Clone, Copy)]
pub struct Search<'a> {
    pub pairs: PairSearch<'a>,
    pub flat: &'a Points,
    pub ghost fits: { CallFits pairs.points.now flat.now pairs.rows.count pairs.rows.bytes.now },
}

// What a walk along tuples of points goes by: the search that it is part of, how many vertices a set may have that
// opens an orbit, and how many orbits there may be.
#[derive(Clone, Copy)]
struct Walk<'a> {
    search: Search<'a>,
    most: usize,
    bound: usize,
}

// [5.6] [5.7] A tuple opens an orbit where it makes a hyperplane whose set may open one. That a tuple has points, and
// of the flattened points' dimension, stays a clause, here and in `extend`: it speaks of the tuple and of the walk, and
// the tuple is made longer from call to call.
fn fit_tuple(
    walk: Walk,
    tuple: &Points,
    state: Progress,
    ws: &mut [u8],
) -> Result<Progress, Refusal>
    requires { (0 < tuple.now.n)
        × (tuple.now.d ≡ walk.search.flat.now.d) × OrbitsRoom walk.bound state.known state.count ws.old }
    ensures walked { Walked walk.entry.search.pairs.tolerance walk.entry.most (points_of walk.entry.search.flat.now)
        (rows_in walk.entry.search.flat.now.n walk.entry.search.pairs.rows.count
        walk.entry.search.pairs.rows.bytes.now) walk.entry.bound state ws.old (points_of tuple.now ∷ []) result ws.new }
    ensures refused { OnErr result (ws.new ≡ ws.old) }
{
    let flat = walk.search.flat;
    let tolerance = walk.search.pairs.tolerance;
    let plane = Subspace::from_points(tuple, tolerance);
    if !plane.is_hyperplane() {
        return Ok(state);
    }
    let set = points_near(flat, &plane, tolerance);
    if !may_open(seen(ws, state.known), set, flat.n, walk.most) {
        return Ok(state);
    }
    let full = Symmetries {
        rows: walk.search.pairs.rows,
        n: flat.n,
    };
    open_orbit(full, set, walk.bound, state, ws)
}

// A tuple that begins with v is extended by as many vertices as are wanted, ascending from one on [5.5]; a vertex
// that breaks a limit with v is passed over.
fn extend(
    walk: Walk,
    tuple: &Points,
    v: usize,
    from: usize,
    more: usize,
    state: Progress,
    ws: &mut [u8],
) -> Result<Progress, Refusal>
    requires { (0 < tuple.now.n)
        × (tuple.now.d ≡ walk.search.flat.now.d)
        × OrbitsRoom walk.bound state.known state.count ws.old
        × (v < walk.search.pairs.points.now.n) × (tuple.now.n ≤ from) }
    ensures { Walked walk.entry.search.pairs.tolerance walk.entry.most (points_of walk.entry.search.flat.now)
        (rows_in walk.entry.search.flat.now.n walk.entry.search.pairs.rows.count
        walk.entry.search.pairs.rows.bytes.now) walk.entry.bound state ws.old
        (extensions (keeps_limits walk.entry.search.pairs.tolerance (limits_of walk.entry.search.pairs.limits)
        (points_of walk.entry.search.pairs.points.now) v) (points_of walk.entry.search.flat.now)
        (points_of tuple.now) walk.entry.search.flat.now.n from more) result ws.new }
{
    if more == 0 {
        return fit_tuple(walk, tuple, state, ws);
    }
    let pairs = walk.search.pairs;
    let mut reached = state;
    for u in from..pairs.points.n {
        if pairs.breaks_limit(v, u) {
            continue;
        }
        let mut longer = *tuple;
        longer.push(walk.search.flat.point(u));
        reached = extend(walk, &longer, v, u + 1, more - 1, reached, ws)?;
    }
    Ok(reached)
}

// ---- pairs

// The flattened points of a pair.
fn pair_points(flat: &Points, v: usize, w: usize) -> Points
    requires { (v < flat.now.n) × (w < flat.now.n) }
    ensures { HoldsPoints result flat.now.d (point_at (points_of flat.now) v ∷ point_at (points_of flat.now) w ∷ []) }
{
    let mut pair = Points::new(flat.d);
    pair.push(flat.point(v));
    pair.push(flat.point(w));
    pair
}

// Each pair's opener, in order, extended by so many vertices. The walk ends at a refusal. `PairsRise` stays a clause:
// this function alone asks it, of the answer of the one that found the pairs.
fn walk_pairs(
    walk: Walk,
    pairs: &ArrayVec<(u8, u8), 190>,
    more: usize,
    state: Progress,
    ws: &mut [u8],
) -> Result<Progress, Refusal>
    requires { PairsRise walk.search.flat.now.n pairs.now.items × OrbitsRoom walk.bound state.known state.count ws.old }
    ensures { Walked walk.entry.search.pairs.tolerance walk.entry.most (points_of walk.entry.search.flat.now) (rows_in
        walk.entry.search.flat.now.n walk.entry.search.pairs.rows.count walk.entry.search.pairs.rows.bytes.now)
        walk.entry.bound state ws.old (pair_tuples walk.entry.search.pairs.tolerance
        (limits_of walk.entry.search.pairs.limits) (points_of walk.entry.search.pairs.points.now)
        (points_of walk.entry.search.flat.now) walk.entry.search.flat.now.n more pairs.now.items) result ws.new }
{
    let mut reached = state;
    for &(first, second) in pairs.as_slice() {
        let v = usize::from(first);
        let w = usize::from(second);
        let pair = pair_points(walk.search.flat, v, w);
        reached = extend(walk, &pair, v, w + 1, more, reached, ws)?;
    }
    Ok(reached)
}

// [5.8] The most vertices of a set that opens an orbit: two on a line of a rank 3 call under rule 2. The rule is a
// number and no enum: `find_orbits` takes any number, and a narrower type would ask more of its callers.
fn most_vertices(rule: usize, more: usize, n: usize) -> usize
    ensures { result ≡ most_vertices rule more n }
{
    if rule != 2 {
        return n;
    }
    if more == 0 { 2 } else { n }
}

// The bytes of the orbits of a call, eight for each of 256; and the room that finding them takes: behind them four
// bytes for each of the sets seen, as many for an orbit as there are rows.
pub const ORBITS_BYTES: usize = 8 * 256;

pub const ORBITS_ROOM: usize = ORBITS_BYTES + 4 * (MOST_ROWS * 256);

// How many hyperplane orbits a call has, or refusal 13 where there are more than the bound.
pub fn find_orbits(
    search: Search,
    more: usize,
    rule: usize,
    bound: usize,
    ws: &mut [u8],
) -> Result<usize, Refusal>
    requires { (bound ≤ 256) × (orbits_room ≤ length ws.old) }
    ensures { answer_in search.entry.flat.now.n result ws.new ≡ orbits_or_refusal bound
        (hyperplane_orbits search.entry.pairs.tolerance (limits_of search.entry.pairs.limits) rule more
        (points_of search.entry.pairs.points.now) (points_of search.entry.flat.now)
        (rows_in search.entry.flat.now.n search.entry.pairs.rows.count search.entry.pairs.rows.bytes.now)) }
{
    let pairs = search.pairs.pair_openers();
    let walk = Walk {
        search,
        most: most_vertices(rule, more, search.flat.n),
        bound,
    };
    let none = Progress { known: 0, count: 0 };
    let done = walk_pairs(walk, &pairs, more, none, ws)?;
    Ok(done.count)
}

// ---- reading an orbit

// An orbit's first set as it is stored. Its vertices are its bits below n: nothing more is promised of its number, so
// what lies above is cut off. Behind the set lies how many sets the orbit has. There is no struct of the two: most
// places, here and in the crates above, read or write one of them.
pub fn set_at(ws: &[u8], k: usize, n: usize) -> u32
    requires { (8 * k + 4 ≤ length ws.now) × (n ≤ 20) }
    ensures { (result ≡ number_at ws.now (8 * k) 4 % 2 ^ n) × (result < 2 ^ n) }
{
    let one: u32 = 1;
    u32::get(ws, 8 * k) % (one << n)
}
