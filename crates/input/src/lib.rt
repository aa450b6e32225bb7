// The standard input, read into a buffer of the caller's.
#![tactic(auto)]

ghost use Rattle.std.specs.Prelude.{◌≤◌, length, IfOk};

use std::io;
use std::io::Read;

// The octets of the input: all of them, or as many as the buffer holds. A pipe gives them in pieces, so one read is not enough.
pub fn read<'a>(rt: &impl Input, buffer: &'a mut [u8]) -> io::Result<&'a [u8]>
    ensures { IfOk result (λ octets. length octets.now ≤ length buffer.old) }
{
    let mut reader = rt.reader();
    let mut done = 0;
    while done < buffer.len() {
        let n = reader.read(&mut buffer[done..])?;
        if n == 0 {
            break;
        }
        done += n;
    }
    Ok(&buffer[..done])
}
