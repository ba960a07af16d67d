// The numbers of a line.
ghost use Rattle.std.specs.Prelude.{◌≡◌};
ghost use Rattle.std.specs.Option.{option_map};
ghost use Rattle.text.specs.Reading.{number_in};

// The longest line that is read. A comment may be longer.
pub const LONGEST_READ: usize = 4095;

// No such line has more numbers.
pub const NUMBERS: usize = 2047;

// The number that a text begins with, and the bytes after it. None where no digit stands first, or the number is beyond 64 bits.
#[tactic(auto, unfolding(crate::specs::Reading::number_in, crate::specs::Reading::number_from))]
pub fn number(text: &[u8]) -> Option<(u64, &[u8])>
    ensures { option_map (λ p. (p.0, p.1.now)) result ≡ number_in text.now }
{
    let [b'0'..=b'9', ..] = text else {
        return None;
    };
    let mut value: u64 = 0;
    let mut rest = text;
    while let [byte @ b'0'..=b'9', after @ ..] = rest {
        value = value.checked_mul(10)?.checked_add(u64::from(*byte - b'0'))?;
        rest = after;
    }
    Some((value, rest))
}

// What is left of a line.
#[derive(Clone, Copy)]
pub(crate) struct Numbers<'a>(&'a [u8]);

impl<'a> Numbers<'a> {
    pub(crate) fn of(line: &'a [u8]) -> Numbers<'a> {
        Numbers(line)
    }

    // Whether nothing is left.
    pub(crate) fn are_over(&self) -> bool {
        self.0.is_empty()
    }

    // The next number, which one or more spaces stand before, where its type has it.
    pub(crate) fn next<T: TryFrom<u64>>(&mut self) -> Option<T>
    where
        T::Error: Drop,
    {
        let [b' ', ..] = self.0 else {
            return None;
        };
        let start = self.0.iter().position(|byte| *byte != b' ')?;
        let (value, rest) = number(&self.0[start..])?;
        self.0 = rest;
        T::try_from(value).ok()
    }
}
