// From what a call keeps to its answer: the tables are laid, searched, and the lists emitted become the call's
// entries. A refusal of the search is the call's.

#![tactic(auto)]

ghost use Rattle.std.specs.Prelude.{◌≡◌};
ghost use Rattle.call_search.specs.PreparedCalls.{PreparedCall, CallPrepared};
ghost use Rattle.call_search.specs.Answers.{Searched};
ghost use Rattle.call_search.specs.Searched.{ListsReady, EntriesListed};

use calls::{Called, Rules};
use facets::Areas;
use layout::{KeptLayout, Level};
use refusals::Refusal;
use rows::Rows;
use search::Course;

// The call's entries from the lists that its search emitted. At rank 3 no facet is a compound, and the lists are only
// put in order. A test of the rank and no closure: the two ways differ here alone, and a caller would pick the
// closure by the same test.
fn list_entries(ws: &mut [u8], layout: KeptLayout, rank: usize, areas: Areas) -> Level
    requires { ListsReady layout rank areas ws.old }
    ensures { EntriesListed layout rank areas ws.old result ws.new }
{
    let at = layout.owners + areas.lists;
    let bytes = areas.end - areas.lists;
    if rank == 3 {
        return entries::sort_entries(ws, layout, at, bytes);
    }
    entries::split_entries(ws, layout, at, bytes)
}

// The second half of a call: from what it keeps of its inner calls to its answer, or a refusal. The search is given
// the workspace from the owners on, and told whether closed lists are extended. `CallPrepared` stays a clause: it
// speaks of some prepared call, and a ghost field cannot say which; and the workspace is written.
pub fn search_call(
    ws: &mut [u8],
    layout: KeptLayout,
    rank: usize,
    rows: Rows,
    rules: Rules,
    extended: bool,
    left: u32,
) -> Result<Called, Refusal>
    requires { (k : PreparedCall) × CallPrepared k layout rank rows.bytes.now rows.count rules extended left ws.old }
    ensures { (k : PreparedCall)
        → CallPrepared k layout rank rows.entry.bytes.now rows.entry.count rules extended left ws.old
        → Searched k rules result ws.new }
{
    let tables = layout::table_layout_for(rank);
    let areas = ridges::lay_tables(rows, layout, tables, ws);
    let course = Course {
        limit: rules.limit,
        extended,
    };
    let found = search::search(&mut ws[layout.owners..], areas, course, left)?;
    let level = list_entries(ws, layout, rank, areas);
    Ok(Called::Left(level, found.left))
}
