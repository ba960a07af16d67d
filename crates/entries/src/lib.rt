// Entries: as they are given, as the book keeps them, the ranges of their fields, and the refusals.
#![tactic(auto)]

mod arrivals;
mod data;
mod incoming;
mod kinds;
mod raw;
mod refusals;

pub use arrivals::Arrival;
pub use data::{Data, Entry, Name, Particulars, one_more};
pub use incoming::Incoming;
pub use kinds::{BRange, Ends, Kind, Limits};
pub use raw::Raw;
pub use refusals::{Refusal, refusal_of, refuse_if};
