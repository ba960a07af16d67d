// What an exported call gives that reads an image and writes bytes.
ghost use Rattle.std.specs.Prelude.{◌≡◌};
ghost use Rattle.loads.specs.Given.{bytes_given_of};

use crate::Fault;

#[repr(C)]
#[derive(Clone, Copy)]
pub struct BytesGiven {
    pub refusal: u8,
    // The image's record at fault, 0 where none is.
    pub record: u16,
    // The length of what is written.
    pub bytes: usize,
}

impl From<Result<usize, Fault>> for BytesGiven {
    ghost from_gives = { λ answer given. given ≡ bytes_given_of answer };

    #[tactic(auto, unfolding(crate::specs::Given::bytes_given_of))]
    fn from(answer: Result<usize, Fault>) -> BytesGiven {
        match answer {
            Err(fault) => BytesGiven {
                refusal: fault.refusal.into(),
                record: fault.record_number(),
                bytes: 0,
            },
            Ok(bytes) => BytesGiven {
                refusal: 0,
                record: 0,
                bytes,
            },
        }
    }
}
