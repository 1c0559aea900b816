// The plain entries of a job [18.3]: it is checked, loaded and called, and the numbers of the entries in which
// `filter_irc` finds no other are written, how many of them first. No figure is worked out.

#![tactic(auto)]

ghost use Rattle.std.specs.Prelude.{◌≡◌, List, [], ◌∷◌, ℕ, ◌+◌, ◌*◌, ◌≤◌, ◌<◌, length, drop, replicate};
ghost use Rattle.definitions.specs.Orbits.{Row};
ghost use Rattle.definitions.specs.Plain.{plain_alone};
ghost use Rattle.words.specs.Words.{words};
ghost use Rattle.shapes.specs.Kept.{Kept};
ghost use Rattle.layout.specs.Leaves.{Leaves, answer_left};
ghost use Rattle.job.specs.Refusal.{checked_of};
ghost use Rattle.definitions.specs.Outcome.{answered};
ghost use Rattle.refusals.specs.Refused.{outcome_of};
ghost use Rattle.words.specs.Wrote.{Writes};
ghost use Rattle.answering.specs.Closed.{written_in, buffer_in};
ghost use Rattle.plain.specs.Numbers.{number_words, plain_words};

use calls::Called;
use layout::{Level, ORDER_BYTES};
use load::Fields;
use refusals::Refusal;
use words::{Word, Writer};

// So many numbers that stand from a place on: their count, and each.
fn write_numbers(w: &mut Writer, s: &[u8], from: usize, many: usize)
    requires { (from + 4 * many ≤ length s.now) × (many < 4294967296) }
    ensures { Writes w.old w.new (number_words (words 4 (drop from s.now) many)) }
{
    w.push(many as u32);
    for i in 0..many {
        w.push(u32::get(s, from + 4 * i));
    }
}

// The one entry of a call of rank 2.
fn write_one(w: &mut Writer)
    ensures { Writes w.old w.new (1 ∷ 0 ∷ []) }
{
    w.push(1);
    w.push(0);
}

// The plain entries of what a call above rank 2 left. Their numbers are put where its labels stand, which are not
// needed here.
fn write_plain(w: &mut Writer, ws: &mut [u8], level: Level)
    requires { (more n : ℕ) × (rows : List Row) × (kept : List Kept) × Leaves more n rows kept level ws.old }
    ensures { (more n rest : ℕ) (rows : List Row) (kept : List Kept) → Leaves more n rows kept level ws.old
        → Writes w.old w.new (plain_words (answer_left more n rows kept level ws.old rest)) }
{
    let labels = level.bytes + ORDER_BYTES;
    let many = filter::filter_irc(&mut ws[level.lists..], level.area(), labels);
    write_numbers(w, ws, level.lists + labels, many);
}

// A job that passed the refusals before the call, called, and its plain entries written into the cleared buffer. That
// the job passed stays a clause: it speaks of the length of the workspace too, which the function writes. That the
// buffer is cleared stays a clause, here and below: the function writes the buffer that it speaks of.
fn plain_passed(
    job: &[u8],
    fields: Fields,
    ws: &mut [u8],
    answer: &mut [u8],
) -> Result<Option<usize>, Refusal>
    requires { (answered fields ≡ checked_of job.now (length ws.old)) × (answer.old ≡ replicate (length answer.old) 0) }
    ensures result { outcome_of result ≡ written_in (length answer.old) (plain_alone job.now (length ws.old)) }
    ensures buffer { answer.new ≡ buffer_in (length answer.old) (plain_alone job.now (length ws.old)) }
{
    let mut rows = [0; rows::ROWS_ROOM];
    let called = job_calls::call_job(job, fields, ws, &mut rows)?;
    match called {
        Called::Ends(_, _) => {
            let mut w = Writer::new(answer);
            write_one(&mut w);
            Ok(answering::close(w))
        }
        Called::Left(level, _) => {
            let mut w = Writer::new(answer);
            write_plain(&mut w, ws, level);
            Ok(answering::close(w))
        }
    }
}

// The plain entries of any job, written into a cleared buffer.
pub fn plain_job(
    job: &[u8],
    workspace: &mut [u8],
    answer: &mut [u8],
) -> Result<Option<usize>, Refusal>
    requires { answer.old ≡ replicate (length answer.old) 0 }
    ensures result { outcome_of result ≡ written_in (length answer.old) (plain_alone job.now (length workspace.old)) }
    ensures buffer { answer.new ≡ buffer_in (length answer.old) (plain_alone job.now (length workspace.old)) }
{
    let fields = job::check(job, workspace.len())?;
    plain_passed(job, fields, workspace, answer)
}
