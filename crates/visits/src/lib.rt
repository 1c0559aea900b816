// The next candidate of the deepest frame: it is found, taken, and the list that it makes is judged.

#![tactic(auto)]

ghost use Rattle.std.specs.Prelude.{◌≡◌, ◌-◌, ◌<◌};
ghost use Rattle.definitions.specs.Search.{Table};
ghost use Rattle.facets.specs.Layout.{verdict, frames_part};
ghost use Rattle.frames.specs.Paths.{frame_at, PathHeld};
ghost use Rattle.frames.specs.Steps.{next_place, Visited, CandidateDue};

use candidates::Candidates;
use facets::{Areas, Verdict};

// Where the search stands: the verdict on the list that was examined last, how many frames there are, and how many
// lists may still be examined.
#[derive(Clone, Copy)]
pub struct State {
    pub verdict: Verdict,
    pub depth: usize,
    pub left: u32,
}

// The place of the next candidate in the deepest frame, if any is left. The workspace and the areas are two
// parameters: the search writes the workspace between two calls, so that the loan of a struct of both would end with
// each call. `Candidates`, which is made for one call too, adds to them the kind, which its five methods share.
// `PathHeld` stays a clause, here and below: it speaks of some table, and a ghost field cannot say which.
pub fn next(ws: &[u8], a: Areas, depth: usize) -> Option<usize>
    requires { (t : Table) × PathHeld t a ws.now depth (depth - 1) × (0 < depth) }
    ensures { (t : Table) → PathHeld t a ws.now depth (depth - 1)
        → result ≡ next_place t (frame_at t (frames_part a ws.now) (depth - 1)) }
{
    let k = depth - 1;
    let frames = a.frames(ws);
    let candidates = Candidates {
        ws,
        areas: a,
        kind: frames::kind(frames, k),
    };
    candidates.latest(frames::low(frames, k), frames::place(frames, k))
}

// The next candidate is taken, and the list that it makes is judged.
pub fn visit(ws: &mut [u8], a: Areas, s: State, place: usize) -> State
    requires { (t : Table) × CandidateDue t a ws.old s.depth place × (0 < s.left) }
    ensures { (result.depth ≡ s.depth)
        × (result.left ≡ s.left - 1)
        × ((t : Table) → CandidateDue t a ws.old s.depth place
        → Visited t a ws.old ws.new s.depth place result.verdict) }
{
    let k = s.depth - 1;
    let candidates = Candidates {
        ws,
        areas: a,
        kind: frames::kind(a.frames(ws), k),
    };
    let x = candidates.facet(place);
    frames::take_place(&mut ws[a.frames..a.totals], k, place as u32, x as u16);
    let over = totals::join(ws, a, x);
    let verdict = facets::judge_totals(&ws[a.totals..a.used], over);
    State {
        verdict,
        left: s.left - 1,
        ..s
    }
}
