// Calls as lines of text on standard input, answers as lines on standard output.
#![tactic(auto)]

use arrayvec::ArrayVec;
use console::Console;
use std::io;
use std::io::Read;
use text::LONGEST_READ;

// Of a line one byte more than the longest is kept, so that a longer one is noticed.
const KEPT: usize = LONGEST_READ + 1;

// The console, and the line so far.
#[derive(Drop)]
struct Reader<'a, P: Print> {
    console: Console<'a, P>,
    line: ArrayVec<u8, KEPT>,
}

impl<P: Print> Reader<'_, P> {
    // Answers the lines that end in a piece of the input.
    fn take(&mut self, piece: &[u8]) -> io::Result<()> {
        for byte in piece {
            if *byte == b'\n' {
                self.console.answer(self.line.as_slice())?;
                self.line.clear();
            } else {
                // A full line takes no more.
                let _ = self.line.try_push(*byte);
            }
        }
        Ok(())
    }
}

fn main(rt: HostRuntime) -> io::Result<()> {
    let mut input = rt.stdin();
    let mut piece = [0; 65536];
    let mut reader = Reader {
        console: Console::fresh(&rt),
        line: ArrayVec::new(),
    };
    // Nothing says that the input ends, so the turns are counted.
    for _ in 0..u64::MAX {
        let n = input.read(&mut piece)?;
        if n == 0 {
            break;
        }
        reader.take(&piece[..n])?;
    }
    // The last line may have no end.
    reader.take(b"\n")
}
