// What lasts from line to line, beside the books, the entries for a carry-over and the buffer.
ghost use Rattle.std.specs.Prelude.{◌≡◌, ◌+◌, ◌<◌, min};
ghost use Rattle.text.specs.declared.calls.BookNumber.TheVariants.{First};

use text::BookNumber;

#[derive(Clone, Copy)]
pub struct Session {
    // The book that calls go to.
    pub current: BookNumber,
    // The lines read.
    pub lines: u64,
}

impl Session {
    // Before the first line: calls go to the first book.
    pub fn fresh() -> Session
        ensures { result ≡ record { current = First; lines = 0 } }
    {
        Session {
            current: BookNumber::First,
            lines: 0,
        }
    }

    // The place among the books of the one that calls go to.
    pub fn place(self) -> usize
        ensures { result < 2 }
    {
        self.current as usize - 1
    }

    // With one line more.
    pub fn next_line(self) -> Session
        ensures { result ≡ record { current = self.current; lines = min (self.lines + 1) 18446744073709551615 } }
    {
        Session {
            lines: self.lines.saturating_add(1),
            ..self
        }
    }
}
