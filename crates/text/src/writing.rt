// The numbers of an answer.
ghost use Rattle.std.specs.Prelude.{Some};
ghost use Rattle.text.specs.Writing.{spaced};

use std::fmt;

// Bytes as decimal numbers, each after a space.
#[derive(Clone, Copy)]
pub struct Spaced<'a>(pub &'a [u8]);

impl fmt::Display for Spaced<'_> {
    ghost output = { λ s. Some (spaced s.0.now) };

    fn fmt<W: fmt::Write>(&self, f: &mut fmt::Formatter<W>) -> fmt::Result {
        for byte in self.0 {
            write!(f, " {byte}")?;
        }
        Ok(())
    }
}
