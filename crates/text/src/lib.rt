// Lines of text, each a letter and decimal numbers: the calls that they are, and bytes as such numbers.
#![tactic(auto)]

mod calls;
mod input;
mod reading;
mod writing;

pub use calls::{
    AtMost, BUFFER, BookNumber, Call, Change, PLACES, Places, Room, SHOWN, Span, Unclear,
    understood,
};
pub use input::read_full;
pub use reading::{LONGEST_READ, NUMBERS, number};
pub use writing::Spaced;
