// The calls that lines are: a letter for each, and as many numbers as it has, as wide as they are.
ghost use Rattle.std.specs.Prelude.{◌≤◌, ◌+◌, length, OnSome, IfOk};
ghost use Rattle.arrayvec.specs.ArrayVec.{array_vec_len};
ghost use Rattle.text.specs.declared.calls.TheConstants.{BUFFER, PLACES, SHOWN};

use crate::reading::{LONGEST_READ, NUMBERS, Numbers};
use arrayvec::ArrayVec;
use entries::Raw;

// The bytes of the buffer: two records more than the longest image.
pub const BUFFER: usize = 24648;

// The most places of a carry-over's result list.
pub const PLACES: usize = 128;

// The most bytes that are shown at once.
pub const SHOWN: usize = 1024;

// One of the two books that calls go to.
#[derive(Clone, Copy, Debug, PartialEq, Eq)]
pub enum BookNumber {
    First = 1,
    Second = 2,
}

impl TryFrom<u64> for BookNumber {
    ghost use Rattle.std.specs.Prelude.{◌≡◌};
    ghost use Rattle.text.specs.Books.{book_of};

    type Error = Unclear;

    ghost try_from_gives = { λ number result. result ≡ book_of number };

    #[tactic(auto, unfolding(crate::specs::Books::book_of))]
    fn try_from(number: u64) -> Result<BookNumber, Unclear> {
        match number {
            1 => Ok(BookNumber::First),
            2 => Ok(BookNumber::Second),
            _ => Err(Unclear),
        }
    }
}

// A number within a limit.
#[derive(Clone, Copy)]
pub struct AtMost<const MOST: usize> {
    pub number: usize,
    pub ghost within: { number ≤ MOST },
}

impl<const MOST: usize> TryFrom<u64> for AtMost<MOST> {
    ghost use Rattle.std.specs.Prelude.{◌≡◌, ◌<◌, MatchResult};

    type Error = Unclear;

    ghost try_from_gives = { λ number result. MatchResult result (λ r. r.number ≡ number) (λ _. MOST < number) };

    fn try_from(number: u64) -> Result<AtMost<MOST>, Unclear> {
        match usize::try_from(number) {
            Ok(number) if number <= MOST => Ok(AtMost { number }),
            _ => Err(Unclear),
        }
    }
}

// So many places for a carry-over's results.
pub type Places = AtMost<PLACES>;

// The first so many bytes of the buffer.
pub type Room = AtMost<BUFFER>;

// So many bytes of the buffer from a place on.
#[derive(Clone, Copy)]
pub struct Span {
    pub from: usize,
    pub count: usize,
    pub ghost in_the_buffer: { from + count ≤ BUFFER },
    pub ghost shown: { count ≤ SHOWN },
}

// Bytes for the buffer from a place on.
#[derive(Drop)]
pub struct Change {
    pub from: usize,
    pub bytes: ArrayVec<u8, NUMBERS>,
    pub ghost in_the_buffer: { from + array_vec_len bytes ≤ BUFFER },
}

// What a line says. What is read and written of the buffer lies within it.
#[derive(Drop)]
pub enum Call {
    // b: calls go to this book from the next line on.
    Turn(BookNumber),
    // p
    Post(Raw),
    // e: an entry more for a carry-over.
    List(Raw),
    // o: a carry-over of the list, with so many places for results.
    CarryOver(Places),
    // s
    Statement { account: u16, allowance: u64 },
    // q
    Contribution { account: u16, node: u8, serial: u32 },
    // y
    Year(u16),
    // g: into so many bytes of the buffer.
    Page { account: u16, room: Room },
    // w: into so many bytes of the buffer.
    Save(Room),
    // l: of so many bytes of the buffer.
    Load(Room),
    // r
    OpenRun { node: u8, day: u16, rate: u16 },
    // t
    Step,
    // c
    CloseRun,
    // x: at least one byte.
    Set(Change),
    // d
    Show(Span),
}

// A line that is no call, or a number that is no book's.
#[derive(Clone, Copy, Debug, PartialEq, Eq)]
pub struct Unclear;

impl Numbers<'_> {
    fn entry(&mut self) -> Option<Raw> {
        Some(Raw {
            kind: self.next()?,
            node: self.next()?,
            account: self.next()?,
            day: self.next()?,
            serial: self.next()?,
            amount: self.next()?,
            named_serial: self.next()?,
            a: self.next()?,
            b: self.next()?,
            named_node: self.next()?,
        })
    }

    fn change(&mut self) -> Option<Change> {
        let from = self.next::<Room>()?.number;
        let mut bytes = ArrayVec::new();
        // The place of the last byte lies within the buffer too.
        for _ in from..BUFFER {
            bytes.try_push(self.next()?).ok()?;
            if self.are_over() {
                return Some(Change { from, bytes });
            }
        }
        None
    }

    fn span(&mut self) -> Option<Span> {
        let from = self.next::<Room>()?.number;
        let count = self.next::<AtMost<SHOWN>>()?.number;
        if count > BUFFER - from {
            return None;
        }
        Some(Span { from, count })
    }
}

impl Call {
    // The call of a letter and the numbers after it.
    fn of(letter: u8, numbers: &mut Numbers) -> Option<Call> {
        match letter {
            b'b' => Some(Call::Turn(numbers.next()?)),
            b'p' => Some(Call::Post(numbers.entry()?)),
            b'e' => Some(Call::List(numbers.entry()?)),
            b'o' => Some(Call::CarryOver(numbers.next()?)),
            b's' => Some(Call::Statement {
                account: numbers.next()?,
                allowance: numbers.next()?,
            }),
            b'q' => Some(Call::Contribution {
                account: numbers.next()?,
                node: numbers.next()?,
                serial: numbers.next()?,
            }),
            b'y' => Some(Call::Year(numbers.next()?)),
            b'g' => Some(Call::Page {
                account: numbers.next()?,
                room: numbers.next()?,
            }),
            b'w' => Some(Call::Save(numbers.next()?)),
            b'l' => Some(Call::Load(numbers.next()?)),
            b'r' => Some(Call::OpenRun {
                node: numbers.next()?,
                day: numbers.next()?,
                rate: numbers.next()?,
            }),
            b't' => Some(Call::Step),
            b'c' => Some(Call::CloseRun),
            b'x' => Some(Call::Set(numbers.change()?)),
            b'd' => Some(Call::Show(numbers.span()?)),
            _ => None,
        }
    }
}

// Reads a line: the call that it is, and none of an empty line or a comment.
pub fn understood(line: &[u8]) -> Result<Option<Call>, Unclear>
    ensures { IfOk result (λ call. OnSome call (length line.now ≤ LONGEST_READ)) }
{
    match line {
        [] | [b'#', ..] => Ok(None),
        [letter, rest @ ..] if line.len() <= LONGEST_READ => {
            let mut numbers = Numbers::of(rest);
            match Call::of(*letter, &mut numbers) {
                Some(call) if numbers.are_over() => Ok(Some(call)),
                _ => Err(Unclear),
            }
        }
        _ => Err(Unclear),
    }
}
