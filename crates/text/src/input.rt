// Input read into a lent list.
ghost use Rattle.std.specs.Prelude.{◌≤◌, length, IfOk};

use std::io;
use std::io::Read;

// Reads until a list is full or the input ends, and gives how many bytes were read.
pub fn read_full<R: Read>(input: &mut R, bytes: &mut [u8]) -> io::Result<usize>
    ensures { IfOk result (λ n. n ≤ length bytes.new) }
{
    let mut n: usize = 0;
    // `read_exact` fails on a shorter input, and `read_to_end` takes a heap.
    while n < bytes.len() {
        let got = input.read(&mut bytes[n..])?;
        if got == 0 {
            break;
        }
        n += got;
    }
    Ok(n)
}
