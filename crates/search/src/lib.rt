// The search, chapter 7, in a workspace: from the facets of a call, what each adds to each ridge orbit and where it
// has shares of 1, to the emitted lists and the budget that is left. The lists are examined in the order of the
// definition's stack, by a path with a place for each depth.

#![tactic(auto)]

ghost use Rattle.std.specs.Prelude.{◌≡◌, ◌+◌, ◌-◌, ◌<◌, length, take};
ghost use Rattle.definitions.specs.Search.{Table, closed, limit_reached, search as searchOf};
ghost use Rattle.facets.specs.Layout.{AreasFit, Inputs, verdict, lists_part};
ghost use Rattle.frames.specs.Paths.{PathHeld};
ghost use Rattle.search.specs.Outcomes.{entry_limits_of, search_outcome, counted_lists};
ghost use Rattle.search.specs.SearchSteps.{Judged, Followed};
ghost use Rattle.pool.specs.Pool.{count};
ghost use Rattle.frames.specs.Steps.{Withdrawn};

use facets::{Areas, Verdict};
use refusals::Refusal;
use visits::State;

// How the search goes: its limit on entries, and whether a closed list is extended. `extended` is a flag that picks a
// step: it is what the call's way says of closed lists. A closure for the step would be picked by the same flag,
// where the course is made.
#[derive(Clone, Copy)]
pub struct Course {
    pub limit: Option<u32>,
    pub extended: bool,
}

// How many lists were emitted, and what is left of the budget.
#[derive(Clone, Copy)]
pub struct Listed {
    pub lists: u32,
    pub left: u32,
}

// [7.9] whether the entry limit ends the search, with so many lists emitted
#[tactic(auto, unfolding(definitions::specs::Search::limit_reached))]
fn reached(limit: Option<u32>, emitted: u32) -> bool
    ensures { result ≡ limit_reached (limit) emitted }
{
    limit.is_some_and(|m| m <= emitted)
}

// A closed list is emitted, unless the entry is past the bound. The limit is tested behind the emission. Then the
// list is extended by every facet above the mark, or, where closed lists are not extended, withdrawn. Some: the
// search goes on with so many frames. None: the limit ends it. That the list is judged is a clause, here and below,
// and so is what the path and the workspace hold: each speaks of some table, and a ghost field cannot say which; and
// the workspace is written.
fn close(ws: &mut [u8], a: Areas, course: Course, depth: usize) -> Result<Option<usize>, Refusal>
    requires { (t : Table) × Judged t a ws.old depth closed }
    ensures { (t : Table) → Judged t a ws.old depth closed → Followed t a course ws.old ws.new depth result }
{
    let emitted = pool::lists(&ws[a.lists..a.end]);
    if a.bound <= emitted as usize {
        return Err(Refusal::Bound);
    }
    emission::emit(ws, a, depth);
    if reached(course.limit, emitted + 1) {
        return Ok(None);
    }
    if course.extended {
        depths::enter(ws, a, depth, None);
        return Ok(Some(depth + 1));
    }
    depths::withdraw(ws, a, depth);
    Ok(Some(depth))
}

// What the verdict says is done: a list that is over is dropped, one that is open is extended where it is open, a
// closed one is emitted. Some and None as of `close`.
fn follow(ws: &mut [u8], a: Areas, course: Course, s: State) -> Result<Option<usize>, Refusal>
    requires { (t : Table) × Judged t a ws.old s.depth (verdict s.verdict) }
    ensures { (t : Table) → Judged t a ws.old s.depth (verdict s.verdict)
        → Followed t a course ws.old ws.new s.depth result }
{
    match s.verdict {
        Verdict::Over => {
            depths::withdraw(ws, a, s.depth);
            Ok(Some(s.depth))
        }
        Verdict::Open(ridge) => {
            depths::enter(ws, a, s.depth, Some(usize::from(ridge)));
            Ok(Some(s.depth + 1))
        }
        Verdict::Closed => close(ws, a, course, s.depth),
    }
}

// The deepest frame has no candidate left and goes; the facet that led to it leaves the list.
fn back(ws: &mut [u8], a: Areas, s: State) -> State
    requires { (t : Table) × PathHeld t a ws.old s.depth (s.depth - 1) × (0 < s.depth) }
    ensures { (result.depth ≡ s.depth - 1)
        × (result.left ≡ s.left)
        × ((t : Table) → PathHeld t a ws.old s.depth (s.depth - 1) → Withdrawn t a ws.old ws.new (s.depth - 1)) }
{
    let depth = s.depth - 1;
    if 0 < depth {
        depths::withdraw(ws, a, depth);
    }
    State { depth, ..s }
}

// The state with another number of frames.
fn at_depth(s: State, depth: usize) -> State
    ensures { (result.depth ≡ depth) × (result.left ≡ s.left) }
{
    State { depth, ..s }
}

// What is found with the lists that were emitted. The workspace and the areas are two parameters, and that the areas
// fit a clause: a struct that lends the workspace would be made for this call alone.
fn found(ws: &[u8], a: Areas, left: u32) -> Listed
    requires { AreasFit a (length ws.now) }
    ensures { result ≡ record { lists = count (lists_part a ws.now); left = left } }
{
    Listed {
        lists: pool::lists(&ws[a.lists..a.end]),
        left,
    }
}

// The search [7.8]: the lists emitted, in order, and what is left of the budget. No `for`: the number of frames goes
// up and down.
pub fn search(ws: &mut [u8], a: Areas, course: Course, budget: u32) -> Result<Listed, Refusal>
    requires { (t : Table) × Inputs t a ws.old }
    ensures found { (t : Table) → Inputs t a ws.old
        → search_outcome t a result ws.new ≡ searchOf t (entry_limits_of a course) budget }
    ensures many { (t : Table) → counted_lists t a result ws.new }
    ensures kept { take a.frames ws.new ≡ take a.frames ws.old }
{
    emission::start(ws, a);
    let mut s = State {
        verdict: Verdict::Closed,
        depth: 1,
        left: budget,
    };
    while 0 < s.depth {
        match visits::next(ws, a, s.depth) {
            None => {
                s = back(ws, a, s);
            }
            Some(place) => {
                if s.left == 0 {
                    return Err(Refusal::Budget);
                }
                s = visits::visit(ws, a, s, place);
                let Some(deep) = follow(ws, a, course, s)? else {
                    return Ok(found(ws, a, s.left));
                };
                s = at_depth(s, deep);
            }
        }
    }
    Ok(found(ws, a, s.left))
}
