// The rules on small values: an entry as given, its account and the entry that it names.
#![tactic(auto)]

mod accounts;
mod answers;
mod checks;
mod formulas;
mod windows;

pub use accounts::{Account, Credited};
pub use answers::{Accepted, Amounts, PostingAnswer, PostingReply};
pub use checks::{check_naming, check_own};
pub use formulas::{billed, given_back, interest, late_amount, refund};
pub use windows::paid_within;
