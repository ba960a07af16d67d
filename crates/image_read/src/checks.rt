// A check of an image.
ghost use Rattle.std.specs.Prelude.{◌≡◌};
ghost use Rattle.loads.specs.Loads.{load_of};
ghost use Rattle.image_read.specs.Checks.{check_given_of, check_given};

use book::Next;
use loads::{Fault, load};

#[repr(C)]
#[derive(Clone, Copy)]
pub struct CheckGiven {
    pub refusal: u8,
    // The record at fault, 0 where none is.
    pub record: u16,
    // How many entries the book has.
    pub entries: u16,
}

impl From<Result<u16, Fault>> for CheckGiven {
    ghost from_gives = { λ answer given. given ≡ check_given_of answer };

    #[tactic(auto, unfolding(crate::specs::Checks::check_given_of))]
    fn from(answer: Result<u16, Fault>) -> CheckGiven {
        match answer {
            Err(fault) => CheckGiven {
                refusal: fault.refusal.into(),
                record: fault.record_number(),
                entries: 0,
            },
            Ok(entries) => CheckGiven {
                refusal: 0,
                record: 0,
                entries,
            },
        }
    }
}

// How many entries the book of an image has.
#[tactic(auto, unfolding(loads::specs::Loaded::loaded_reply, crate::specs::Checks::check_given_of))]
fn entries_of(image: &[u8]) -> Result<u16, Fault>
    ensures { check_given_of result ≡ check_given (load_of image.now) }
{
    let Next { book, answer } = load(image);
    answer?;
    Ok(book.count)
}

// Checks an image, and counts its entries.
pub fn check_image(image: &[u8]) -> CheckGiven
    ensures { result ≡ check_given (load_of image.now) }
{
    entries_of(image).into()
}
