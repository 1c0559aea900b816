// A job with a package, from their bytes to the answer's [17.10]: the job's own refusals, then 18, then the
// workspace; the package is loaded, the job called by it, and what the call leaves is written as without a package.

#![tactic(auto)]

ghost use Rattle.std.specs.Prelude.{◌≡◌, length, replicate};
ghost use Rattle.definitions.specs.NobleCalls.{noble_tests, noble_alone};
ghost use Rattle.job.specs.Refusal.{checked_by};
ghost use Rattle.definitions.specs.Outcome.{answered};
ghost use Rattle.refusals.specs.Refused.{outcome_of};
ghost use Rattle.answering.specs.Closed.{written_in, buffer_in};

use load::Fields;
use refusals::Refusal;
use rows::ROWS_ROOM;

// The bytes of a package's global numbers, as one row.
const GLOBALS_ROOM: usize = 32;

// All refusals before the call: 18 stands between the job's own and 12.
fn check_noble(job: &[u8], pack: &[u8], workspace: usize) -> Result<Fields, Refusal>
    ensures { outcome_of result ≡ checked_by (noble_tests job.now pack.now workspace) job.now }
{
    let fields = job::check_job(job)?;
    if !packages::package_good(pack, fields.n) {
        return Err(Refusal::Package);
    }
    if workspace < job::workspace_for(fields.rank) {
        return Err(Refusal::Workspace);
    }
    Ok(fields)
}

// A job and a package that passed, called, and what the call says written into the cleared buffer. That they passed
// stays a clause: it speaks of the length of the workspace too, which the function writes. That the buffer is cleared
// stays a clause, here and below: the function writes the buffer that it speaks of.
fn write_noble(
    job: &[u8],
    pack: &[u8],
    fields: Fields,
    ws: &mut [u8],
    answer: &mut [u8],
) -> Result<Option<usize>, Refusal>
    requires { (answered fields ≡ checked_by (noble_tests job.now pack.now (length ws.old)) job.now)
        × (answer.old ≡ replicate (length answer.old) 0) }
    ensures result { outcome_of result ≡ written_in (length answer.old) (noble_alone job.now pack.now (length ws.old)) }
    ensures buffer { answer.new ≡ buffer_in (length answer.old) (noble_alone job.now pack.now (length ws.old)) }
{
    let mut rows = [0; ROWS_ROOM];
    let mut globals = [0; GLOBALS_ROOM];
    let mut full = [0; ROWS_ROOM];
    let numbers = packages::load_package(pack, fields.n, &mut globals, &mut full);
    let whole = numbers.package(&globals, &full);
    let called = job_calls::call_in_way(job, fields, ws, &mut rows, Some(whole));
    answering::write_called(called, fields, &rows, ws, answer)
}

// Any job with any package, answered into a cleared buffer.
pub fn noble_job(
    job: &[u8],
    pack: &[u8],
    workspace: &mut [u8],
    answer: &mut [u8],
) -> Result<Option<usize>, Refusal>
    requires { answer.old ≡ replicate (length answer.old) 0 }
    ensures result { outcome_of result
        ≡ written_in (length answer.old) (noble_alone job.now pack.now (length workspace.old)) }
    ensures buffer { answer.new ≡ buffer_in (length answer.old) (noble_alone job.now pack.now (length workspace.old)) }
{
    let fields = check_noble(job, pack, workspace.len())?;
    write_noble(job, pack, fields, workspace, answer)
}
