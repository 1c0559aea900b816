// One depth less, where the last facet leaves the list, and one more, where a list is entered and its candidates
// above the mark are due.

#![tactic(auto)]

ghost use Rattle.std.specs.Prelude.{◌≡◌, ◌-◌, ◌≤◌, ◌<◌};
ghost use Rattle.definitions.specs.Search.{Table};
ghost use Rattle.facets.specs.Layout.{KindIn, frames_part};
ghost use Rattle.frames.specs.Paths.{list_to, mark_after, PathHeld};
ghost use Rattle.frames.specs.Steps.{Entered, Withdrawn, Light};

use candidates::Candidates;
use facets::Areas;
use words::Word;

// The last facet leaves the list. `PathHeld` stays a clause, here and below: it speaks of some table, and a ghost
// field cannot say which; and the workspace is written.
pub fn withdraw(ws: &mut [u8], a: Areas, depth: usize)
    requires { (t : Table) × PathHeld t a ws.old depth depth × (0 < depth) }
    ensures { (t : Table) → PathHeld t a ws.old depth depth → Withdrawn t a ws.old ws.new depth }
{
    let x = frames::taken(a.frames(ws), depth - 1);
    totals::leave(ws, a, usize::from(x));
}

// The mark of the list: at an open list the mark stays, at a closed one it moves to the orbit of the facet that
// joins. The workspace and the areas are two parameters: the workspace is written right after, so that the loan of a
// struct of both would end with this call. `Candidates`, which is made for one call too, adds to them the kind, which
// its five methods share.
fn mark_after(ws: &[u8], a: Areas, depth: usize) -> u16
    requires { (t : Table) × PathHeld t a ws.now depth depth × (0 < depth) }
    ensures { (t : Table) → PathHeld t a ws.now depth depth → result ≡ mark_after t (frames_part a ws.now) (depth - 1) }
{
    let k = depth - 1;
    let frames = a.frames(ws);
    match frames::kind(frames, k) {
        None => u16::get(ws, 2 * usize::from(frames::taken(frames, k))),
        Some(_) => frames::mark(frames, k),
    }
}

// A list is entered: all its candidates above the mark are due.
pub fn enter(ws: &mut [u8], a: Areas, depth: usize, kind: Option<usize>)
    requires { (t : Table)
        × PathHeld t a ws.old depth depth
        × (0 < depth)
        × KindIn a kind × Light t a (list_to t (frames_part a ws.old) depth) }
    ensures { (t : Table) → PathHeld t a ws.old depth depth → Entered t a ws.old ws.new depth kind }
{
    let mark = mark_after(ws, a, depth);
    let candidates = Candidates { ws, areas: a, kind };
    let low = candidates.binary(usize::from(mark));
    let place = candidates.count();
    frames::put_frame(
        &mut ws[a.frames..a.totals],
        depth,
        place as u32,
        low as u32,
        mark,
        kind,
    );
}
