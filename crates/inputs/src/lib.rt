// An input, read to the front of a buffer.
#![tactic(auto)]

ghost use Rattle.std.specs.Prelude.{◌<◌, length, take, IfOk};
ghost use Rattle.std.specs.Io.{ReadsAtMost};
ghost use Rattle.std.specs.Io.KnownBytes.{Consumes, IsAtEnd};

use std::io;
use std::io::Read;

// Reads to the front of buf until it is full or the input ends, and says how much. After a read that failed nothing is said of what was read.
pub fn fill<R: Read>(input: &mut R, buf: &mut [u8]) -> io::Result<usize>
    ensures bound { ReadsAtMost result buf.new }
    ensures bytes { IfOk result (λ n. Consumes (R.remaining input.old) (R.remaining input.new) (take n buf.new)) }
    ensures end { IfOk result (λ n. n < length buf.new → IsAtEnd (R.remaining input.new)) }
{
    // std has no such method: `read_to_end` needs a `Vec`, and `read_exact` says nothing where the input ends before buf is full.
    let mut done = 0;
    while done < buf.len() {
        let n = input.read(&mut buf[done..])?;
        if n == 0 {
            break;
        }
        done += n;
    }
    Ok(done)
}
