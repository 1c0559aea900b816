// The lists that a search emits, in a pool behind its frames; and how it starts, with no list there and every facet
// alone due.

#![tactic(auto)]

ghost use Rattle.std.specs.Prelude.{◌≡◌, ◌-◌, ◌<◌};
ghost use Rattle.definitions.specs.Search.{Table};
ghost use Rattle.laws.specs.Segments.{placed};
ghost use Rattle.facets.specs.Layout.{Inputs, frames_part, lists_part};
ghost use Rattle.frames.specs.Paths.{PathHeld, Emitted, path, pushed_all};
ghost use Rattle.emission.specs.Emission.{Started};
ghost use Rattle.pool.specs.Pool.{count, ended};

use facets::Areas;

// The list joins the emitted ones. Its frames are gone through by their numbers: an iterator of them would hold the
// workspace, which each turn writes. `PathHeld` stays a clause, and below what the workspace holds: both speak of
// some table, and a ghost field cannot say which; and the bytes are written.
pub fn emit(ws: &mut [u8], a: Areas, depth: usize)
    requires { (t : Table)
        × PathHeld t a ws.old depth depth
        × Emitted a (lists_part a ws.old) × (count (lists_part a ws.old) < a.bound) }
    ensures { ws.new ≡ placed a.lists (a.end - a.lists) ws.old
        (ended (pushed_all a.bound (lists_part a ws.old) (path (frames_part a ws.old) depth))) }
{
    for k in 0..depth {
        let x = frames::taken(a.frames(ws), k);
        pool::push(&mut ws[a.lists..a.end], a.bound, x);
    }
    pool::end_list(&mut ws[a.lists..a.end]);
}

// Nothing is counted, nothing is emitted, and every facet alone is due.
#[tactic(auto, unfolding(facets::specs::Layout::code_of))]
pub fn start(ws: &mut [u8], a: Areas)
    requires { (t : Table) × Inputs t a ws.old }
    ensures { (t : Table) → Inputs t a ws.old → Started t a ws.old ws.new }
{
    ws[a.totals..a.used].fill(0);
    ws[a.used..a.lists].fill(0);
    pool::clear(&mut ws[a.lists..a.end]);
    frames::put_frame(&mut ws[a.frames..a.totals], 0, a.facets as u32, 0, 0, None);
}
