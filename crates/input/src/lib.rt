// A reader, as standard input, read until it ends or a buffer is full; a read that fails is told from the end.
#![tactic(auto)]

ghost use Rattle.std.specs.Prelude.{ℕ, ◌<◌, ◌≤◌, length, take, IfOk, OnErr};
ghost use Rattle.std.specs.Io.{ReadsAtMost};
ghost use Rattle.std.specs.Io.KnownBytes.{Consumes, IsAtEnd};

use std::io;
use std::io::Read;

// How many bytes were read, which stand at the buffer's start: fewer than it takes only where the input ends.
// A read that fails, or that a signal interrupts, is the error; what was read before it stands at the buffer's start too, and no byte is lost.
pub fn read_input<R: Read>(input: &mut R, file: &mut [u8]) -> io::Result<usize>
    ensures bound { ReadsAtMost result file.new }
    ensures bytes { IfOk result (λ n. Consumes (R.remaining input.old) (R.remaining input.new) (take n file.new)) }
    ensures end { IfOk result (λ n. n < length file.new → IsAtEnd (R.remaining input.new)) }
    ensures failed { OnErr result ((n : ℕ) × ((n ≤ length file.new) × Consumes (R.remaining input.old) (R.remaining input.new) (take n file.new))) }
{
    let mut n = 0;
    while n < file.len() {
        let more = input.read(&mut file[n..])?;
        if more == 0 {
            return Ok(n);
        }
        n += more;
    }
    Ok(n)
}
