// The register as a program: a job on standard input, its answer on standard output. Where the job is refused nothing
// is written there, and a line on standard error has the number. A job has at most 3,212 bytes, so what is longer
// than the buffer is refused for its length all the same.
#![tactic(auto)]

use std::io;

// Says which refusal a return code is: minus its number.
fn tell_refusal(rt: &impl Eprint, code: i64) -> io::Result<()> {
    if code < 0 {
        let number = code.unsigned_abs();
        eprintln!(rt; "facetings: refused {number}")?;
    }
    Ok(())
}

fn main(rt: HostRuntime) -> io::Result<()> {
    let mut job = [0; 4096];
    let n = buffers::read_full(&mut rt.stdin(), &mut job)?;
    let mut workspace = buffers::workspace(rt.alloc())?;
    let mut answer = buffers::room(rt.alloc())?;
    let code = register::register_answer(&job[..n], &mut workspace, &mut answer);
    tell_refusal(&rt, code)?;
    let end = usize::try_from(code).unwrap_or(0).min(answer.len());
    rt.write_all(&answer[..end])
}
