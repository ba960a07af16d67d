// Calls as lines of text: a line is read, its call made, and the answer written. A line that is not understood answers `?` and its number.
#![tactic(auto)]

mod answers;
mod session;

pub use answers::{Console, LISTED};
pub use session::Session;
