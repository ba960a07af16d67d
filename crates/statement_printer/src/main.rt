// The statement printer: reads an image from standard input and writes its statements, or why it is refused. No contract can say what
// is read and written: what is proved is `load` of the bytes read, and `printed` of what it gives.
#![tactic(auto)]

use codec::LONGEST_IMAGE;
use loads::load;
use printer::print_loaded;
use std::io;
use text::read_full;

fn main(rt: HostRuntime) -> io::Result<()> {
    // One byte more than the longest image has, so that a longer one is noticed.
    let mut image = [0u8; LONGEST_IMAGE + 1];
    let n = read_full(&mut rt.stdin(), &mut image)?;
    print_loaded(&rt, load(&image[..n]))
}
