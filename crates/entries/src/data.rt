// An entry as the book keeps it: common fields, and the data of its kind.
ghost use Rattle.std.specs.Prelude.{◌≡◌, true};
ghost use Rattle.entries.specs.Data.{no_entry, standing_if, one_more, particulars_of, refunded_of, expired_of, restated_of, reduced_of, retained_of, with_of, carries};

use crate::kinds::Kind;
use measures::{Cents, Day, Metres};

// The pair by which one entry names another: the node that wrote it, and its serial there.
#[derive(Clone, Copy, Debug, Default, PartialEq, Eq)]
pub struct Name {
    pub node: u8,
    pub serial: u32,
}

// What was posted and what became of it, by kind. The case is the kind.
#[derive(Clone, Copy, Default)]
pub enum Data {
    // Of a place of the book's array that has no entry yet.
    #[default]
    Unused,
    // The short fields come first, which makes an entry 72 bytes and not 80.
    Contribution {
        phases: u8,
        built: Metres,
        added: u16,
        closed: bool,
        amount: Cents,
        held: Cents,
        to_arrears: Cents,
        paid_out: Cents,
        retained: Cents,
    },
    AddedCustomer {
        named: Name,
        shared: Metres,
        phases: u8,
    },
    Bill {
        charge: Cents,
        period: u16,
        served: u8,
        standing: Cents,
        corrected: bool,
    },
    Payment {
        amount: Cents,
        standing: Cents,
        corrected: bool,
    },
    Deposit {
        amount: Cents,
        rate: u16,
    },
    DepositReturn,
    // The named entry, here and in a reduction and a retention.
    Expiry(Name),
    Correction {
        named: Name,
        amount: Cents,
    },
    Guarantee {
        closed: bool,
        // The day of its last reduction, and its own before the first.
        reduced: Day,
        amount: Cents,
        held: Cents,
    },
    Reduction(Name),
    Retention(Name),
    LateCharge(Cents),
}

#[derive(Clone, Copy, Default)]
pub struct Entry {
    pub node: u8,
    pub account: u16,
    pub day: Day,
    pub serial: u32,
    pub data: Data,
    // The number of the account's previous entry, 0 where there is none: as the image has it, and in two bytes, not an Option's four. It
    // comes last: where an account's entries are neighbours, a walk then finds it in the cache line that it read for the entry before.
    pub next: u16,
}

// What the rules and the queries read of an entry. A field that its kind does not have is zero or false.
#[derive(Clone, Copy, Default)]
pub struct Particulars {
    pub kind: Kind,
    pub amount: Cents,
    pub built: Metres,
    pub phases: u8,
    pub held: Cents,
    pub added: u16,
    pub closed: bool,
    pub standing: Cents,
    pub corrected: bool,
    // What is held of a guarantee, and the day of its last reduction, or its own before the first.
    pub guarantee_held: Cents,
    pub reduced: Day,
}

impl Particulars {
    // The standing amount of an entry that counts, and 0 of another.
    #[tactic(auto, unfolding(crate::specs::Data::standing_if))]
    pub fn standing_if(self, counts: bool) -> Cents
        ensures { result ≡ standing_if counts self }
    {
        if counts { self.standing } else { Cents(0) }
    }
}

// One more, and the largest number where that does not fit.
pub fn one_more(n: u16) -> u16
    ensures { result ≡ one_more n }
{
    n.saturating_add(1)
}

// The new amount stands. It is not corrected again (16).
fn restate(standing: &mut Cents, corrected: &mut bool, amount: Cents)
    ensures { (standing.new ≡ amount) × (corrected.new ≡ true) }
{
    *standing = amount;
    *corrected = true;
}

impl Data {
    #[tactic(auto, unfolding(crate::specs::Data::case_of, crate::specs::Data::particulars_of))]
    fn kind(self) -> Kind
        ensures { result ≡ (particulars_of self).kind }
    {
        match self {
            Data::Unused => Kind::Unknown,
            Data::Contribution { .. } => Kind::Contribution,
            Data::AddedCustomer { .. } => Kind::AddedCustomer,
            Data::Bill { .. } => Kind::Bill,
            Data::Payment { .. } => Kind::Payment,
            Data::Deposit { .. } => Kind::Deposit,
            Data::DepositReturn => Kind::DepositReturn,
            Data::Expiry(_) => Kind::Expiry,
            Data::Correction { .. } => Kind::Correction,
            Data::Guarantee { .. } => Kind::Guarantee,
            Data::Reduction(_) => Kind::Reduction,
            Data::Retention(_) => Kind::Retention,
            Data::LateCharge(_) => Kind::LateCharge,
        }
    }

    // A late charge stands at its amount.
    #[tactic(auto, unfolding(crate::specs::Data::case_of, crate::specs::Data::particulars_of))]
    pub fn particulars(self) -> Particulars
        ensures { result ≡ particulars_of self }
    {
        let kind_alone = Particulars {
            kind: self.kind(),
            ..Particulars::default()
        };
        match self {
            Data::Contribution {
                amount,
                built,
                phases,
                held,
                added,
                closed,
                ..
            } => Particulars {
                amount,
                built,
                phases,
                held,
                added,
                closed,
                ..kind_alone
            },
            Data::Bill {
                standing,
                corrected,
                ..
            }
            | Data::Payment {
                standing,
                corrected,
                ..
            } => Particulars {
                standing,
                corrected,
                ..kind_alone
            },
            Data::LateCharge(standing) => Particulars {
                standing,
                ..kind_alone
            },
            Data::Guarantee {
                closed,
                reduced,
                held,
                ..
            } => Particulars {
                closed,
                guarantee_held: held,
                reduced,
                ..kind_alone
            },
            _ => kind_alone,
        }
    }

    // A contribution after a refund, of which a part settled arrears and the rest was paid out.
    #[tactic(auto, unfolding(crate::specs::Data::case_of, crate::specs::Data::refunded_of))]
    pub fn refunded(mut self, refund: Cents, settled: Cents, rest: Cents) -> Data
        ensures { result ≡ refunded_of self refund settled rest }
    {
        if let Data::Contribution {
            held,
            to_arrears,
            paid_out,
            added,
            ..
        } = &mut self
        {
            *held = held.minus(refund);
            *to_arrears = to_arrears.plus(settled);
            *paid_out = paid_out.plus(rest);
            *added = one_more(*added);
        }
        self
    }

    // A contribution after its expiry: what was held is retained, and it is closed.
    #[tactic(auto, unfolding(crate::specs::Data::case_of, crate::specs::Data::expired_of))]
    pub fn expired(mut self) -> Data
        ensures { result ≡ expired_of self }
    {
        if let Data::Contribution {
            held,
            retained,
            closed,
            ..
        } = &mut self
        {
            *retained = *held;
            *held = Cents(0);
            *closed = true;
        }
        self
    }

    // A bill or payment after its correction.
    #[tactic(auto, unfolding(crate::specs::Data::case_of, crate::specs::Data::restated_of))]
    pub fn restated(mut self, amount: Cents) -> Data
        ensures { result ≡ restated_of self amount }
    {
        match &mut self {
            Data::Bill {
                standing,
                corrected,
                ..
            } => restate(standing, corrected, amount),
            Data::Payment {
                standing,
                corrected,
                ..
            } => restate(standing, corrected, amount),
            _ => {}
        }
        self
    }

    // A guarantee after a reduction on a day, by which a part of what was held is given back.
    #[tactic(auto, unfolding(crate::specs::Data::case_of, crate::specs::Data::reduced_of))]
    pub fn reduced(mut self, back: Cents, day: Day) -> Data
        ensures { result ≡ reduced_of self back day }
    {
        if let Data::Guarantee { reduced, held, .. } = &mut self {
            *held = held.minus(back);
            *reduced = day;
        }
        self
    }

    // A guarantee after its retention: nothing is held, and it is closed.
    #[tactic(auto, unfolding(crate::specs::Data::case_of, crate::specs::Data::retained_of))]
    pub fn retained(mut self) -> Data
        ensures { result ≡ retained_of self }
    {
        if let Data::Guarantee { closed, held, .. } = &mut self {
            *closed = true;
            *held = Cents(0);
        }
        self
    }
}

impl Entry {
    // A place of the book that holds no entry.
    pub fn unused() -> Entry
        ensures { result ≡ no_entry }
    {
        Entry::default()
    }

    // Whether it is the one of a name.
    pub fn carries(self, name: Name) -> bool
        ensures { result ≡ carries name self }
    {
        let own = Name {
            node: self.node,
            serial: self.serial,
        };
        own == name
    }

    // The entry with other data of its kind.
    #[tactic(auto, unfolding(crate::specs::Data::with_of))]
    pub fn with(self, data: Data) -> Entry
        ensures { result ≡ with_of self «data» }
    {
        Entry { data, ..self }
    }
}
