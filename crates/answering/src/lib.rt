// A job from its bytes to its answer's: checked, called, and what the call leaves written into a cleared buffer. What
// comes of it is told as it is, a refusal, an answer that has no room, or the length of one that stands there: the
// exported functions make their return codes of that.

#![tactic(auto)]

ghost use Rattle.std.specs.Prelude.{◌≡◌, List, ◌-◌, ◌≤◌, length, replicate};
ghost use Rattle.definitions.specs.Outcome.{Outcome, answered};
ghost use Rattle.definitions.specs.Recursion.{Answer};
ghost use Rattle.definitions.specs.Job.{answer_words, alone};
ghost use Rattle.rows.specs.Rows.{rows_in};
ghost use Rattle.shapes.specs.Kept.{Kept};
ghost use Rattle.layout.specs.Leaves.{answer_left};
ghost use Rattle.kept_edges.specs.Edges.{edge_answer};
ghost use Rattle.job.specs.Refusal.{checked_of};
ghost use Rattle.refusals.specs.Refused.{outcome_of};
ghost use Rattle.words.specs.Wrote.{Writes};
ghost use Rattle.job_calls.specs.Writable.{Writable};
ghost use Rattle.job_calls.specs.CallMatches.{CallMatches};
ghost use Rattle.answering.specs.Answered.{bytes_of};
ghost use Rattle.answering.specs.Closed.{written_in, buffer_in, written_to, buffer_to};

use calls::Called;
use facet_images::Ids;
use layout::Level;
use load::Fields;
use polyhedra::Imaged;
use refusals::Refusal;
use rows::Rows;
use words::Writer;
use writing::{Budget, Carried, Left};

// ---- writing what a call leaves

// The answer of a call of rank 2.
fn write_ends(w: &mut Writer, swapped: bool, budget: Budget)
    ensures { Writes w.old w.new (answer_words budget.whole (edge_answer swapped budget.rest)) }
{
    if swapped {
        writing::write_swapped(w, budget);
    } else {
        writing::write_separate(w, budget);
    }
}

// The answer of a call of rank 4: the images of all its facets are put in order behind its entries, and its figures
// are written from there. `Writable` stays a clause, here and below: it speaks of a list of kept facets, which stands
// in no memory, so that no field can hold it. `quotes::price_left` makes the same `Imaged`: a function of both would
// hand out a loan of what it has written, and its clauses would be longer than these lines.
fn write_polyhedra(
    w: &mut Writer,
    ws: &mut [u8],
    level: Level,
    rows: Rows,
    n: usize,
    budget: Budget,
)
    requires { (kept : List Kept) × Writable 1 n rows.count rows.bytes.now kept level budget.whole budget.rest ws.old }
    ensures { (kept : List Kept)
        → Writable 1 n rows.entry.count rows.entry.bytes.now kept level budget.whole budget.rest ws.old
        → Writes w.old w.new (answer_words budget.whole
        (answer_left 1 n (rows_in n rows.entry.count rows.entry.bytes.now) kept level ws.old budget.rest)) }
{
    let images = polygons::order_left(ws, level, rows);
    let left = Left { ws: &ws[..], level };
    let ids = Ids {
        bytes: &left.ws[images.at..],
        count: images.count,
    };
    let carried = Carried::new(left, rows);
    let imaged = Imaged::new(carried, ids);
    polyhedra::write_solid_answer(w, imaged, n, budget);
}

// The answer of a call of rank 3 or 4. A test of the rank and no closure: the two ways differ here alone, and a
// caller would pick the closure by the same test.
fn write_left(
    w: &mut Writer,
    ws: &mut [u8],
    rank: usize,
    level: Level,
    rows: Rows,
    n: usize,
    budget: Budget,
)
    requires { (3 ≤ rank)
        × (rank ≤ 4)
        × ((kept : List Kept)
        × Writable (rank - 3) n rows.count rows.bytes.now kept level budget.whole budget.rest ws.old) }
    ensures { (kept : List Kept)
        → Writable (rank - 3) n rows.entry.count rows.entry.bytes.now kept level budget.whole budget.rest ws.old
        → Writes w.old w.new (answer_words budget.whole (answer_left (rank - 3) n
        (rows_in n rows.entry.count rows.entry.bytes.now) kept level ws.old budget.rest)) }
{
    if rank == 3 {
        let left = Left { ws, level };
        let carried = Carried::new(left, rows);
        writing::write_answer(w, carried, n, budget);
    } else {
        write_polyhedra(w, ws, level, rows, n, budget);
    }
}

// ---- the answer

// The cursor behind the last word is the answer's length. Where some word had no room, or the cursor is past the
// buffer, there is none, and the buffer is cleared again.
#[tactic(auto, unfolding(crate::specs::Closed::written_to, crate::specs::Closed::buffer_to))]
pub fn close(w: Writer) -> Option<usize>
    ensures result { answered result ≡ written_to (length w.entry.buffer.now) w.entry.at }
    ensures buffer { w.exit.0.now ≡ buffer_to w.entry.buffer.now w.entry.at }
{
    if let Some(at) = w.at {
        if at <= w.buffer.len() {
            return Some(at);
        }
    }
    w.buffer.fill(0);
    None
}

// What a call says, written into the cleared buffer. The rows are bytes until there is an answer of rank 3 or 4: a
// refused call and one of rank 2 read none of them. That the buffer is cleared stays a clause, here and below: the
// function writes the buffer that it speaks of. So does `CallMatches`: it speaks of the workspace, which is written
// too.
pub fn write_called(
    called: Result<Called, Refusal>,
    fields: Fields,
    rows: &[u8],
    ws: &mut [u8],
    answer: &mut [u8],
) -> Result<Option<usize>, Refusal>
    requires { (answer.old ≡ replicate (length answer.old) 0)
        × ((call : Outcome Answer)
        × CallMatches fields.rank fields.n fields.count rows.now fields.budget call called ws.old) }
    ensures result { (call : Outcome Answer)
        → CallMatches fields.rank fields.n fields.count rows.now fields.budget call called ws.old
        → outcome_of result ≡ written_in (length answer.old) (bytes_of fields.budget call) }
    ensures buffer { (call : Outcome Answer)
        → CallMatches fields.rank fields.n fields.count rows.now fields.budget call called ws.old
        → answer.new ≡ buffer_in (length answer.old) (bytes_of fields.budget call) }
{
    match called? {
        Called::Ends(swapped, rest) => {
            let mut w = Writer::new(answer);
            let budget = Budget {
                whole: fields.budget,
                rest,
            };
            write_ends(&mut w, swapped, budget);
            Ok(close(w))
        }
        Called::Left(level, rest) => {
            let mut w = Writer::new(answer);
            let loaded = Rows {
                bytes: rows,
                count: fields.count,
            };
            let budget = Budget {
                whole: fields.budget,
                rest,
            };
            write_left(&mut w, ws, fields.rank, level, loaded, fields.n, budget);
            Ok(close(w))
        }
    }
}

// A job that passed the refusals before the call, called, and what its call says written into the cleared buffer.
// That the job passed stays a clause: it speaks of the length of the workspace too, which the function writes.
fn write_job(
    job: &[u8],
    fields: Fields,
    ws: &mut [u8],
    answer: &mut [u8],
) -> Result<Option<usize>, Refusal>
    requires { (answered fields ≡ checked_of job.now (length ws.old)) × (answer.old ≡ replicate (length answer.old) 0) }
    ensures result { outcome_of result ≡ written_in (length answer.old) (alone job.now (length ws.old)) }
    ensures buffer { answer.new ≡ buffer_in (length answer.old) (alone job.now (length ws.old)) }
{
    let mut rows = [0; rows::ROWS_ROOM];
    let called = job_calls::call_job(job, fields, ws, &mut rows);
    write_called(called, fields, &rows, ws, answer)
}

// Any job, answered into a cleared buffer.
pub fn answer_job(
    job: &[u8],
    workspace: &mut [u8],
    answer: &mut [u8],
) -> Result<Option<usize>, Refusal>
    requires { answer.old ≡ replicate (length answer.old) 0 }
    ensures result { outcome_of result ≡ written_in (length answer.old) (alone job.now (length workspace.old)) }
    ensures buffer { answer.new ≡ buffer_in (length answer.old) (alone job.now (length workspace.old)) }
{
    let fields = job::check(job, workspace.len())?;
    write_job(job, fields, workspace, answer)
}
