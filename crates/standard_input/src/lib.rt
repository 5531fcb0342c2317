// Standard input, or any reader, as far as there is room for it.
#![tactic(auto)]

ghost use Rattle.std.specs.Prelude.{◌≤◌, length};

use std::io::Read;

// Reads until the slice is full, the input ends or a read fails, and says how many bytes stand at the start of the slice.
// A read that a signal interrupts counts as one that failed. A loop by hand: the library's `read_exact` does not say how many bytes came before the end.
pub fn read_full<R: Read>(input: &mut R, buf: &mut [u8]) -> usize
    ensures { result ≤ length buf.new }
{
    let mut done = 0;
    while done < buf.len() {
        match input.read(&mut buf[done..]) {
            Ok(0) | Err(_) => return done,
            Ok(n) => done += n,
        }
    }
    done
}
