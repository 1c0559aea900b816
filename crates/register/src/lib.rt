// The register's functions, thin ones: a job's bytes in, its answer's bytes out, whatever the lengths of the slices
// are. The work is done in the crates below; the crate `register_c` exports them to C.
#![tactic(auto)]

ghost use Rattle.std.specs.Prelude.{◌≡◌, ℕ, ◌≤◌, ◌<◌, pos, neg_ℤ, length, take, IfOk, IfSome};
ghost use Rattle.definitions.specs.Outcome.{answered};
ghost use Rattle.definitions.specs.Job.{Bytes, outcome, code_of, buffer_of};
ghost use Rattle.definitions.specs.Demands.{Demand1, Demand2, Demand3};
ghost use Rattle.definitions.specs.Symmetry.{Symmetric};
ghost use Rattle.definitions.specs.Batch.{batch, Batched};
ghost use Rattle.definitions.specs.Prices.{quote, quote_code, slip_length, slip, with_room};
ghost use Rattle.definitions.specs.Plain.{plain_ones, split_lists, LeftOut};
ghost use Rattle.definitions.specs.NobleCalls.{noble_outcome, FirstDemand, SecondDemand, NobleComplete};
ghost use Rattle.refusals.specs.Refused.{outcome_of};
ghost use Rattle.answering.specs.Codes.{code_written};
ghost use Rattle.register.specs.Reading.{entries_read, numbers_read};
ghost use Rattle.register.specs.Batches.{Promised};

use refusals::Refusal;

// [12.7] minus the refusal's number. A number, not a `Refusal`: the crate `replay` gives it numbers that it read, and
// it keeps what it promised.
pub fn refusal(number: u8) -> i64
    ensures { result ≡ neg_ℤ (pos number) }
{
    -(number as i64)
}

// [12.7] [11.5] the return value of what was written: minus the refusal's number, 17 where there is no room, or so
// many bytes
fn code(written: Result<Option<usize>, Refusal>) -> i64
    requires { IfOk written (λ some. IfSome some (λ many. many < 9223372036854775808)) }
    ensures { result ≡ code_written (outcome_of written) }
{
    match written {
        Ok(Some(many)) => many as i64,
        Ok(None) => refusal(Refusal::Room.number()),
        Err(e) => refusal(e.number()),
    }
}

// The answer of a job: its length in bytes, or minus the number of its refusal. The answer stands at the front of the
// buffer, which is zero behind it, and zero throughout after a refusal. Code and buffer are the definition's,
// whatever the three slices are; the three demands follow [13.1] [13.2] [13.8], the third of the entries read back
// from the buffer, and so does the symmetry that is promised of these [13.12].
pub fn register_answer(job: &[u8], workspace: &mut [u8], answer: &mut [u8]) -> i64
    ensures code { result ≡ code_of (outcome job.now (length workspace.old) (length answer.old)) }
    ensures buffer { answer.new
        ≡ buffer_of (length answer.old) (outcome job.now (length workspace.old) (length answer.old)) }
    ensures first { Demand1 job.now (length workspace.old) (length answer.old) result answer.new }
    ensures second { Demand2 job.now (length workspace.old) (length answer.old) result answer.new }
    ensures third { (bytes : Bytes) → outcome job.now (length workspace.old) (length answer.old) ≡ answered bytes
        → Demand3 job.now (entries_read answer.new) }
    ensures symmetry { (bytes : Bytes) → outcome job.now (length workspace.old) (length answer.old) ≡ answered bytes
        → Symmetric job.now (entries_read answer.new) }
{
    answer.fill(0); // so that what stands behind the answer is zero
    code(answering::answer_job(job, workspace, answer))
}

// [15.3] The records of a row of jobs, each behind its length: their length in bytes, or minus 26 or 27. Code and
// buffer are the definition's, whatever the three slices are. After an answer the front of the buffer is the records
// of the row's jobs, and each is of what the first call gives that job by itself, with the demands [13.2] [13.8] and
// the symmetry [13.12] that hold of it [15.4].
pub fn register_batch(row: &[u8], workspace: &mut [u8], answer: &mut [u8]) -> i64
    ensures code { result ≡ code_of (batch row.now (length workspace.old) (length answer.old)) }
    ensures buffer { answer.new
        ≡ buffer_of (length answer.old) (batch row.now (length workspace.old) (length answer.old)) }
    ensures each { (bytes : Bytes) → batch row.now (length workspace.old) (length answer.old) ≡ answered bytes
        → Batched (Promised (length workspace.old)) row.now (take (length bytes) answer.new) }
{
    code(batches::answer_row(row, workspace, answer).map(Some))
}

// The quote of an entry of a job of rank 4, counted from 0, at a tariff: its total in pence, or minus the number of
// the refusal. The slip stands at the front of the buffer, which is zero behind it, and zero throughout after a
// refusal. Code and buffer are the definition's [16.4] [16.6], at the figure of the definition's entry, whatever the
// slices are. The total is the quote's, which asks for no room: 17 is laid around it, last.
pub fn register_price(
    job: &[u8],
    workspace: &mut [u8],
    entry: u64,
    tariff: &[u8],
    answer: &mut [u8],
) -> i64
    ensures code { result
        ≡ quote_code (with_room (length answer.old) (quote job.now (length workspace.old) entry tariff.now)) }
    ensures total { slip_length ≤ length answer.old
        → result ≡ quote_code (quote job.now (length workspace.old) entry tariff.now) }
    ensures buffer { answer.new ≡ buffer_of (length answer.old)
        (with_room (length answer.old) (slip job.now (length workspace.old) entry tariff.now)) }
{
    match quotes::quote_job(job, workspace, entry, tariff, answer) {
        Err(e) => refusal(e.number()),
        Ok(total) => total as i64,
    }
}

// [18.3] The plain entries of a job: how many, and the number of each, ascending. The return value is the length in
// bytes, or minus the number of the refusal. Code and buffer are the definition's, whatever the slices are. Of the
// entries that the first call answers this job with, whatever its buffer, and that are read back from that answer's
// bytes: each whose number is not in this buffer has another, whose split list stands inside its own [18.4].
pub fn register_plain(job: &[u8], workspace: &mut [u8], numbers: &mut [u8]) -> i64
    ensures code { result ≡ code_of (plain_ones job.now (length workspace.old) (length numbers.old)) }
    ensures buffer { numbers.new
        ≡ buffer_of (length numbers.old) (plain_ones job.now (length workspace.old) (length numbers.old)) }
    ensures left_out { (written : Bytes) → plain_ones job.now (length workspace.old) (length numbers.old)
        ≡ answered written → (first : ℕ) (bytes : Bytes) → outcome job.now (length workspace.old) first
        ≡ answered bytes → LeftOut (split_lists (entries_read bytes)) (numbers_read numbers.new) }
{
    numbers.fill(0);
    code(plain::plain_job(job, workspace, numbers))
}

// [17.10] The answer of a job with a package, in the first call's form: its length in bytes, or minus the number of
// its refusal. Code and buffer are the definition's, whatever the four slices are; demands 1 and 2 follow. Of the
// entries read back from the buffer after an answer: each is that of a closed choice over the kept orbits, which its
// record names; without an entry limit and with equal shares these are the closed choices with no closed choice
// properly inside, once each [17.11]; and rows that are closed carry each figure to itself [13.12].
pub fn register_noble(job: &[u8], pack: &[u8], workspace: &mut [u8], answer: &mut [u8]) -> i64
    ensures code { result ≡ code_of (noble_outcome job.now pack.now (length workspace.old) (length answer.old)) }
    ensures buffer { answer.new ≡ buffer_of (length answer.old)
        (noble_outcome job.now pack.now (length workspace.old) (length answer.old)) }
    ensures first { FirstDemand (noble_outcome job.now pack.now (length workspace.old) (length answer.old))
        (length answer.old) result answer.new }
    ensures second { SecondDemand
        (noble_outcome job.now pack.now (length workspace.old) (length answer.old)) result answer.new }
    ensures third { (bytes : Bytes) → noble_outcome job.now pack.now (length workspace.old) (length answer.old)
        ≡ answered bytes → NobleComplete job.now pack.now (entries_read answer.new) }
    ensures symmetry { (bytes : Bytes) → noble_outcome job.now pack.now (length workspace.old) (length answer.old)
        ≡ answered bytes → Symmetric job.now (entries_read answer.new) }
{
    answer.fill(0);
    code(nobles::noble_job(job, pack, workspace, answer))
}
