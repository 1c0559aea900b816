// Whether a job is refused, and with which number: the refusals before the call in the order of [11.1], for every
// byte slice and every length of the workspace. A job that passes is handed on as its fields. Each test equals the
// definition's; what it asks are the tests before it, by a clause or by the facts of the `load::Job` that it takes.

#![tactic(auto)]

ghost use Rattle.std.specs.Prelude.{◌≡◌, ◌&&◌, ◌+◌, ◌*◌, ◌≤◌, length, take, drop};
ghost use Rattle.definitions.specs.Lists.{all_of, count_from};
ghost use Rattle.definitions.specs.Job.{read_job, floats_at, between, limit_good, is_finite, tolerance_good};
ghost use Rattle.definitions.specs.Job.{floats_good, same_nats, is_permutation, workspace_for, header_tests};
ghost use Rattle.definitions.specs.Job.{value_tests, job_tests};
ghost use Rattle.refusals.specs.Refused.{outcome_of};
ghost use Rattle.load.specs.Meaning.{rows_at};
ghost use Rattle.job.specs.Refusal.{has_mark, size_within, checked_by, checked_of};

use load::{Fields, Job};
use refusals::Refusal;
use rows::{MOST_POINTS, MOST_ROWS};

// ---- sizes

// The largest limit on lengths that a job may have, and the largest size of a coordinate.
const MOST_LENGTH: f64 = 131072.0;

const MOST_COORDINATE: f64 = 65536.0;

// The bytes of workspace that a job of rank 3 asks for, and one of rank 4.
const WORKSPACE_3: usize = 524288;

pub const WORKSPACE_4: usize = 4194304;

// ---- single tests

// The letters FCT, in a job that is long enough for a header.
fn has_mark(job: &[u8]) -> bool
    ensures { result ≡ has_mark job.now }
{
    11 <= job.len() && job.starts_with(b"FCT")
}

pub fn between(lowest: usize, highest: usize, x: usize) -> bool
    ensures { result ≡ between lowest highest x }
{
    (lowest..=highest).contains(&x)
}

// Finite, and not beyond `most` in size: a NaN passes no comparison.
fn within(x: f64, most: f64) -> bool
    ensures { result ≡ size_within most x }
{
    x <= most && -most <= x
}

// −0 is not below 0.
fn limit_good(limit: Option<f64>) -> bool
    ensures { result ≡ limit_good limit }
{
    limit.is_none_or(|x| within(x, MOST_LENGTH) && 0.0 <= x)
}

// The ends of the range of tolerances, both in it.
const LEAST_TOLERANCE: f64 = 0.000000001;

const GREATEST_TOLERANCE: f64 = 0.001;

fn tolerance_good(tolerance: f64) -> bool
    ensures { result ≡ tolerance_good tolerance }
{
    LEAST_TOLERANCE <= tolerance && tolerance <= GREATEST_TOLERANCE
}

// ---- floats

// The f64 that stand before the budget.
fn limits_good(fields: Fields) -> bool
    ensures { result
        ≡ (limit_good fields.limits.shortest && limit_good fields.limits.longest && is_finite fields.tolerance) }
{
    limit_good(fields.limits.shortest)
        && limit_good(fields.limits.longest)
        && fields.tolerance.is_finite()
}

// So many numbers from a place on.
fn all_within(job: &[u8], at: usize, many: usize, most: f64) -> bool
    requires { at + 8 * many ≤ length job.now }
    ensures { result ≡ all_of (size_within most) (floats_at job.now at many) }
{
    (0..many).all(|i| within(load::float_at(job, at + 8 * i), most))
}

// The vectors of the basis and the points stand one behind the other, so that each of them is one run of numbers.
fn floats_good(job: Job) -> bool
    ensures { result ≡ floats_good (read_job job.entry.bytes.now) }
{
    let in_basis = job.fields.d * (job.fields.rank - 1);
    let in_points = job.fields.d * job.fields.n;
    if !limits_good(job.fields) {
        return false;
    }
    if !all_within(job.bytes, job.fields.offset, job.fields.d, MOST_COORDINATE) {
        return false;
    }
    if !all_within(job.bytes, job.fields.basis, in_basis, 1.0) {
        return false;
    }
    all_within(job.bytes, job.fields.points, in_points, MOST_COORDINATE)
}

// ---- rows

// Whether each of the n bytes from a place on is its own number.
pub fn is_identity(job: &[u8], at: usize, n: usize) -> bool
    requires { at + n ≤ length job.now }
    ensures { result ≡ same_nats (take n (drop at job.now)) (count_from 0 n) }
{
    (0..n).all(|i| usize::from(job[at + i]) == i)
}

// Each image is below n and was not met before. A loop, and no `all` as in the tests beside it: it marks each image
// that it meets.
fn is_permutation(job: &[u8], at: usize, n: usize) -> bool
    requires { (n ≤ 20) × (at + n ≤ length job.now) }
    ensures { result ≡ is_permutation n (take n (drop at job.now)) }
{
    let mut marks = [false; MOST_POINTS];
    for i in 0..n {
        let v = usize::from(job[at + i]);
        if n <= v {
            return false;
        }
        if marks[v] {
            return false;
        }
        marks[v] = true;
    }
    true
}

pub fn rows_good(job: &[u8], at: usize, n: usize, count: usize) -> bool
    requires { (n ≤ 20) × (at + n * count ≤ length job.now) }
    ensures { result ≡ all_of (is_permutation n) (rows_at job.now at n count) }
{
    (0..count).all(|i| is_permutation(job, at + n * i, n))
}

// ---- workspace

// [11.3] By the rank, as the page has it: three numbers, no step is chosen.
pub fn workspace_for(rank: usize) -> usize
    ensures { result ≡ workspace_for rank }
{
    if rank == 2 {
        0
    } else if rank == 3 {
        WORKSPACE_3
    } else {
        WORKSPACE_4
    }
}

// ---- the order

// The first refusal, or the fields of a job that passes. Refusals 1 to 8: the header, and the length that it states.
fn check_header(job: &[u8]) -> Result<Fields, Refusal>
    ensures { outcome_of result ≡ checked_by (header_tests job.now) job.now }
{
    if !has_mark(job) {
        return Err(Refusal::Mark);
    }
    let h = load::header_of(job);
    if !between(1, 3, h.version) {
        return Err(Refusal::Version);
    }
    if !between(2, 4, h.rank) {
        return Err(Refusal::Rank);
    }
    if !between(h.rank - 1, 4, h.d) {
        return Err(Refusal::Dimension);
    }
    if !between(2, MOST_POINTS, h.n) {
        return Err(Refusal::Points);
    }
    if !between(1, MOST_ROWS, h.count) {
        return Err(Refusal::Rows);
    }
    if 8 <= h.flags {
        return Err(Refusal::Flags);
    }
    let p = load::places_of(h);
    if job.len() != p.size {
        return Err(Refusal::Length);
    }
    Ok(load::fields_of(job))
}

// Refusals 9, 22, 25, 10 and 11, of a job whose header passes: its floats, its tolerance, its rule and its rows.
fn check_values(job: Job) -> Result<Fields, Refusal>
    ensures { outcome_of result ≡ checked_by (value_tests job.entry.bytes.now) job.entry.bytes.now }
{
    if !floats_good(job) {
        return Err(Refusal::Number);
    }
    if !tolerance_good(job.fields.tolerance) {
        return Err(Refusal::Tolerance);
    }
    // The rule is any number until here, and stays a number: `load::Fields` tells why.
    if !between(1, 2, job.fields.rule) {
        return Err(Refusal::Rule);
    }
    if !is_identity(job.bytes, job.fields.rows, job.fields.n) {
        return Err(Refusal::FirstRow);
    }
    if !rows_good(job.bytes, job.fields.rows, job.fields.n, job.fields.count) {
        return Err(Refusal::Row);
    }
    Ok(job.fields)
}

// The job's own refusals: what its bytes alone decide.
pub fn check_job(job: &[u8]) -> Result<Fields, Refusal>
    ensures { outcome_of result ≡ checked_by (job_tests job.now) job.now }
{
    let fields = check_header(job)?;
    check_values(Job { bytes: job, fields })
}

// All refusals before the call.
pub fn check(job: &[u8], workspace: usize) -> Result<Fields, Refusal>
    ensures { outcome_of result ≡ checked_of job.now workspace }
{
    let fields = check_job(job)?;
    if workspace < workspace_for(fields.rank) {
        return Err(Refusal::Workspace);
    }
    Ok(fields)
}
