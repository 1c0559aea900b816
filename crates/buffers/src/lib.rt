// The buffers that the programs lend the register, and how they read their input into one. Each buffer stands in a
// function of its own, so that its bytes are known to a caller and nobody need write them out.
#![tactic(auto)]

ghost use Rattle.std.specs.Prelude.{◌≡◌, IfOk};
ghost use Rattle.std.specs.Io.{ReadsAtMost};
ghost use Rattle.buffers.specs.Zeros.{zeros};

use std::alloc::{AllocError, Global};
use std::io;
use std::io::Read;

// So many bytes of zero.
#[tactic(auto, unfolding(crate::specs::Zeros::zeros))]
fn zero_bytes(alloc: Global, count: usize) -> Result<Vec<u8>, AllocError>
    ensures { IfOk result (λ v. v.items ≡ zeros count) }
{
    vec![in alloc; 0; count]
}

// The workspace of rank 4 [11.3], which is enough for every rank, and one byte more.
pub fn workspace(alloc: Global) -> Result<Vec<u8>, AllocError>
    ensures { IfOk result (λ v. v.items ≡ zeros 4194305) }
{
    zero_bytes(alloc, 4194305)
}

// Room for an answer.
pub fn room(alloc: Global) -> Result<Vec<u8>, AllocError>
    ensures { IfOk result (λ v. v.items ≡ zeros 2097152) }
{
    zero_bytes(alloc, 2097152)
}

// Reads until the buffer is full or the input has ended, and says how many bytes it put at the buffer's front.
// No `for`: each step is as long as what one reading gave.
pub fn read_full<R: Read>(input: &mut R, buffer: &mut [u8]) -> io::Result<usize>
    ensures { ReadsAtMost result buffer.new }
{
    let mut done = 0;
    while done < buffer.len() {
        let n = input.read(&mut buffer[done..])?;
        if n == 0 {
            break;
        }
        done += n;
    }
    Ok(done)
}
