// Reading input, for the programs.

#![tactic(auto)]

ghost use Rattle.std.specs.Prelude.{◌≤◌, length, IfOk};

use std::io;
use std::io::Read;

// The bytes of a body file that a program reads.
pub const MOST_BYTES: usize = 65535;

// The index rows with which no file is refused for want of them: a row for each record that a file may have.
pub const INDEX_ROWS: usize = 3584;

// Fills the buffer from the front; answers how many bytes there are.
pub fn read_some(input: &mut impl Read, buffer: &mut [u8]) -> io::Result<usize>
    ensures { IfOk result (λ n. n ≤ length buffer.old) }
{
    let mut len = 0;
    while len < buffer.len() {
        let n = input.read(&mut buffer[len..])?;
        if n == 0 {
            break;
        }
        len += n;
    }
    Ok(len)
}
