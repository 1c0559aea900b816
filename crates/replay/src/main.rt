// Replays recorded results of the Rust. Standard input holds them, every number a u32: how many there are; then for
// each the length of the job, the job, the lengths of workspace and answer buffer, the refusal number or 0, the
// answer's length or 0, and a hash of the whole buffer at exit. They were made by `facetings-host record --seed 3`.
// The buffers stay as the call before left them. No contract can say what the Rust answered: that every result is the
// same is held to the file stdout.
#![tactic(auto)]

ghost use Rattle.std.specs.Prelude.{◌≤◌, IfOk};

use std::io;
use std::io::Read;
use words::Word;

// The next number of the input; 0 where it has ended.
fn next_number(input: &mut impl Read) -> io::Result<u32> {
    let mut bytes = [0; 4];
    buffers::read_full(input, &mut bytes)?;
    Ok(u32::get(&bytes, 0))
}

// From 0, each byte takes the hash to (hash × 16,777,619 + byte + 1) modulo the largest prime below 2^32, so that no
// step passes 2^57.
fn hash(bytes: &[u8]) -> u64 {
    let mut sum: u64 = 0;
    for b in bytes {
        sum = (sum * 16777619 + u64::from(*b) + 1) % 4294967291;
    }
    sum
}

// The return code of a refusal, or of an answer of so many bytes. Two numbers and no `Result`: so the file has them,
// with 0 for no refusal.
fn code_of(refused: u32, length: u32) -> i64 {
    if refused == 0 {
        length as i64
    } else {
        register::refusal((refused % 256) as u8)
    }
}

// Whether a job gets this code and leaves a buffer with this hash.
fn has_result(job: &[u8], workspace: &mut [u8], answer: &mut [u8], code: i64, sum: u64) -> bool {
    let got = register::register_answer(job, workspace, answer);
    got == code && hash(answer) == sum
}

// The buffers that all records share, each at its full length.
#[derive(Drop)]
struct Buffers<'a> {
    job: &'a mut [u8],
    workspace: &'a mut [u8],
    answer: &'a mut [u8],
}

// Whether the job that comes next has the result recorded behind it, where the buffers are long enough.
fn replay(input: &mut impl Read, buffers: &mut Buffers) -> io::Result<bool> {
    let end = next_number(input)? as usize;
    if buffers.job.len() < end {
        return Ok(false);
    }
    let job = &mut buffers.job[..end];
    buffers::read_full(input, job)?;
    let size = next_number(input)? as usize;
    let room = next_number(input)? as usize;
    let refused = next_number(input)?;
    let length = next_number(input)?;
    let sum = u64::from(next_number(input)?);
    let code = code_of(refused, length);
    if buffers.workspace.len() < size || buffers.answer.len() < room {
        return Ok(false);
    }
    let workspace = &mut buffers.workspace[..size];
    let answer = &mut buffers.answer[..room];
    Ok(has_result(job, workspace, answer, code, sum))
}

// One more that is the same, or a line with the number of the record that is not.
fn tell(rt: &impl Print, same: bool, record: u32) -> io::Result<u32>
    ensures { IfOk result (λ n. n ≤ 1) }
{
    if same {
        return Ok(1);
    }
    println!(rt; "differs: record {record}")?;
    Ok(0)
}

// How many of so many records are the same. The count is how many the input says that it has, and no length of a
// buffer.
fn replay_all(
    rt: &impl Print,
    input: &mut impl Read,
    count: u32,
    buffers: &mut Buffers,
) -> io::Result<u32> {
    let mut same = 0;
    for i in 0..count {
        same += tell(rt, replay(input, buffers)?, i)?;
    }
    Ok(same)
}

fn main(rt: HostRuntime) -> io::Result<()> {
    let mut input = rt.stdin();
    let count = next_number(&mut input)?;
    let mut job = [0; 4096];
    let mut workspace = buffers::workspace(rt.alloc())?;
    let mut answer = buffers::room(rt.alloc())?;
    let mut buffers = Buffers {
        job: &mut job,
        workspace: &mut workspace,
        answer: &mut answer,
    };
    let same = replay_all(&rt, &mut input, count, &mut buffers)?;
    println!(rt; "{same} of {count} results are the Rust's")
}
