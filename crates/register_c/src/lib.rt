// The register for callers in C: each exported function is that of its name in the crate `register`, and states its
// clauses again.
#![tactic(auto)]

ghost use Rattle.std.specs.Prelude.{◌≡◌, ℕ, ◌≤◌, length, take};
ghost use Rattle.definitions.specs.Outcome.{answered};
ghost use Rattle.definitions.specs.Job.{Bytes, outcome, code_of, buffer_of};
ghost use Rattle.definitions.specs.Demands.{Demand1, Demand2, Demand3};
ghost use Rattle.definitions.specs.Symmetry.{Symmetric};
ghost use Rattle.definitions.specs.Batch.{batch, Batched};
ghost use Rattle.definitions.specs.Prices.{quote, quote_code, slip_length, slip, with_room};
ghost use Rattle.definitions.specs.Plain.{plain_ones, split_lists, LeftOut};
ghost use Rattle.definitions.specs.NobleCalls.{noble_outcome, FirstDemand, SecondDemand, NobleComplete};
ghost use Rattle.register.specs.Reading.{entries_read, numbers_read};
ghost use Rattle.register.specs.Batches.{Promised};

#[unsafe(no_mangle)]
pub extern "C" fn register_answer(job: &[u8], workspace: &mut [u8], answer: &mut [u8]) -> i64
    ensures code { result ≡ code_of (outcome job.now (length workspace.old) (length answer.old)) }
    ensures buffer { answer.new
        ≡ buffer_of (length answer.old) (outcome job.now (length workspace.old) (length answer.old)) }
    ensures first { Demand1 job.now (length workspace.old) (length answer.old) result answer.new }
    ensures second { Demand2 job.now (length workspace.old) (length answer.old) result answer.new }
    ensures third { (bytes : Bytes) → outcome job.now (length workspace.old) (length answer.old) ≡ answered bytes
        → Demand3 job.now (entries_read answer.new) }
    ensures symmetry { (bytes : Bytes) → outcome job.now (length workspace.old) (length answer.old) ≡ answered bytes
        → Symmetric job.now (entries_read answer.new) }
{
    register::register_answer(job, workspace, answer)
}

#[unsafe(no_mangle)]
pub extern "C" fn register_batch(row: &[u8], workspace: &mut [u8], answer: &mut [u8]) -> i64
    ensures code { result ≡ code_of (batch row.now (length workspace.old) (length answer.old)) }
    ensures buffer { answer.new
        ≡ buffer_of (length answer.old) (batch row.now (length workspace.old) (length answer.old)) }
    ensures each { (bytes : Bytes) → batch row.now (length workspace.old) (length answer.old) ≡ answered bytes
        → Batched (Promised (length workspace.old)) row.now (take (length bytes) answer.new) }
{
    register::register_batch(row, workspace, answer)
}

#[unsafe(no_mangle)]
pub extern "C" fn register_price(
    job: &[u8],
    workspace: &mut [u8],
    entry: u64,
    tariff: &[u8],
    answer: &mut [u8],
) -> i64
    ensures code { result
        ≡ quote_code (with_room (length answer.old) (quote job.now (length workspace.old) entry tariff.now)) }
    ensures total { slip_length ≤ length answer.old
        → result ≡ quote_code (quote job.now (length workspace.old) entry tariff.now) }
    ensures buffer { answer.new ≡ buffer_of (length answer.old)
        (with_room (length answer.old) (slip job.now (length workspace.old) entry tariff.now)) }
{
    register::register_price(job, workspace, entry, tariff, answer)
}

#[unsafe(no_mangle)]
pub extern "C" fn register_plain(job: &[u8], workspace: &mut [u8], numbers: &mut [u8]) -> i64
    ensures code { result ≡ code_of (plain_ones job.now (length workspace.old) (length numbers.old)) }
    ensures buffer { numbers.new
        ≡ buffer_of (length numbers.old) (plain_ones job.now (length workspace.old) (length numbers.old)) }
    ensures left_out { (written : Bytes) → plain_ones job.now (length workspace.old) (length numbers.old)
        ≡ answered written → (first : ℕ) (bytes : Bytes) → outcome job.now (length workspace.old) first
        ≡ answered bytes → LeftOut (split_lists (entries_read bytes)) (numbers_read numbers.new) }
{
    register::register_plain(job, workspace, numbers)
}

#[unsafe(no_mangle)]
pub extern "C" fn register_noble(
    job: &[u8],
    pack: &[u8],
    workspace: &mut [u8],
    answer: &mut [u8],
) -> i64
    ensures code { result ≡ code_of (noble_outcome job.now pack.now (length workspace.old) (length answer.old)) }
    ensures buffer { answer.new ≡ buffer_of (length answer.old)
        (noble_outcome job.now pack.now (length workspace.old) (length answer.old)) }
    ensures first { FirstDemand (noble_outcome job.now pack.now (length workspace.old) (length answer.old))
        (length answer.old) result answer.new }
    ensures second { SecondDemand
        (noble_outcome job.now pack.now (length workspace.old) (length answer.old)) result answer.new }
    ensures third { (bytes : Bytes) → noble_outcome job.now pack.now (length workspace.old) (length answer.old)
        ≡ answered bytes → NobleComplete job.now pack.now (entries_read answer.new) }
    ensures symmetry { (bytes : Bytes) → noble_outcome job.now pack.now (length workspace.old) (length answer.old)
        ≡ answered bytes → Symmetric job.now (entries_read answer.new) }
{
    register::register_noble(job, pack, workspace, answer)
}
