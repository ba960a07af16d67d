// An entry as it is given: document 01's ten fields.
ghost use Rattle.std.specs.Prelude.{◌≡◌};
ghost use Rattle.measures.specs.Cents.{cents};
ghost use Rattle.measures.specs.Days.{day};
ghost use Rattle.entries.specs.Data.{entry_of, named_by, points_at};

use crate::data::{Data, Entry, Name};
use measures::{Cents, Day};

#[derive(Clone, Copy, Debug, Default, PartialEq, Eq)]
pub struct Raw {
    pub kind: u8,
    pub node: u8,
    pub account: u16,
    pub day: u16,
    pub serial: u32,
    pub amount: u32,
    pub named_serial: u32,
    pub a: u16,
    pub b: u8,
    pub named_node: u8,
}

impl Raw {
    pub fn cents(self) -> Cents
        ensures { result ≡ cents self.amount }
    {
        Cents(u64::from(self.amount))
    }

    // The entry that it names.
    pub fn named(self) -> Name
        ensures { result ≡ named_by self }
    {
        Name {
            node: self.named_node,
            serial: self.named_serial,
        }
    }

    // Whether the entry names this one.
    pub fn points_at(self, entry: Entry) -> bool
        ensures { result ≡ points_at self entry }
    {
        entry.carries(self.named())
    }

    // The entry as the book keeps it.
    #[tactic(auto, unfolding(crate::specs::Data::entry_of))]
    pub fn entry(self, next: u16, data: Data) -> Entry
        ensures { result ≡ entry_of self next «data» }
    {
        Entry {
            node: self.node,
            account: self.account,
            day: Day(self.day),
            serial: self.serial,
            next,
            data,
        }
    }
}
