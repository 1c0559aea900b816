// What becomes of an inner call's answer: its refusal is the call's, or the orbit's facets and ridges are stored in
// the kept areas, or there are too many facets, 15. The laws of a call's state after so many orbits stand in specs/.

#![tactic(auto)]

ghost use Rattle.std.specs.Prelude.{◌≡◌, ℕ, length, List};
ghost use Rattle.inner_answers.specs.AnswerMatches.{OuterCall, Step};
ghost use Rattle.inner_answers.specs.Stored.{Storing};
ghost use Rattle.calls.specs.declared.Called.TheVariants.{Ends, Left};

use calls::Called;
use layout::{KeptLayout, Level};
use refusals::Refusal;
use rows::Rows;

// What became of an inner call: the layout with one orbit more, and what is left of the budget.
#[derive(Clone, Copy)]
pub struct Stored {
    pub layout: KeptLayout,
    pub left: u32,
}

// The edge of an inner call of rank 2 is kept, unless it is past the bound. `Step` stays a clause, here and below:
// the workspace that it speaks of is written, and `OuterCall`, the call that the inner ones are made for, is of the
// definitions and lies in no memory, so that no field can hold it.
fn keep_ends(
    ws: &mut [u8],
    layout: KeptLayout,
    n: usize,
    swapped: bool,
    rest: u32,
    bound: usize,
) -> Result<Stored, Refusal>
    requires { (g : OuterCall)
        × (left : ℕ)
        × (rows : List ℕ)
        × (m : ℕ)
        × Step g layout left layout.orbits (Ok (Ends swapped rest)) rows m ws.old
        × (n ≡ length g.points) × (bound ≡ g.rules.bounds.facets) }
    ensures { (g : OuterCall) (left : ℕ) (rows : List ℕ) (m : ℕ)
        → Step g layout left layout.orbits (Ok (Ends swapped rest)) rows m ws.old → n ≡ length g.points
        → bound ≡ g.rules.bounds.facets → Storing g layout result ws.new }
{
    if bound < layout.facets + 1 {
        return Err(Refusal::Bound);
    }
    let more = kept_edges::keep_edge(ws, layout, n, swapped);
    Ok(Stored {
        layout: more,
        left: rest,
    })
}

// The entries of an inner call of rank 3, which it left behind the kept areas, are kept, unless they are past the
// bound.
fn keep_left(
    ws: &mut [u8],
    layout: KeptLayout,
    n: usize,
    level: Level,
    rest: u32,
    rows: Rows,
    bound: usize,
) -> Result<Stored, Refusal>
    requires { (g : OuterCall)
        × (left : ℕ)
        × Step g layout left layout.orbits (Ok (Left level rest)) rows.bytes.now rows.count ws.old
        × (n ≡ length g.points) × (bound ≡ g.rules.bounds.facets) }
    ensures { (g : OuterCall) (left : ℕ)
        → Step g layout left layout.orbits (Ok (Left level rest)) rows.entry.bytes.now rows.entry.count ws.old
        → n ≡ length g.points → bound ≡ g.rules.bounds.facets → Storing g layout result ws.new }
{
    if bound < layout.facets + level.count {
        return Err(Refusal::Bound);
    }
    let more = kept_polygons::keep_polygons(ws, layout, n, layout.end, level, rows);
    Ok(Stored {
        layout: more,
        left: rest,
    })
}

// What the inner call on the next orbit's set says: a refusal is passed on, and else its answer is kept.
pub fn keep_inner(
    ws: &mut [u8],
    layout: KeptLayout,
    n: usize,
    called: Result<Called, Refusal>,
    rows: Rows,
    bound: usize,
) -> Result<Stored, Refusal>
    requires { (g : OuterCall)
        × (left : ℕ)
        × Step g layout left layout.orbits called rows.bytes.now rows.count ws.old
        × (n ≡ length g.points) × (bound ≡ g.rules.bounds.facets) }
    ensures { (g : OuterCall) (left : ℕ)
        → Step g layout left layout.orbits called rows.entry.bytes.now rows.entry.count ws.old → n ≡ length g.points
        → bound ≡ g.rules.bounds.facets → Storing g layout result ws.new }
{
    match called? {
        Called::Ends(swapped, rest) => keep_ends(ws, layout, n, swapped, rest, bound),
        Called::Left(level, rest) => keep_left(ws, layout, n, level, rest, rows, bound),
    }
}
