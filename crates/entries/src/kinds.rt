// The kinds of entries, and the ranges of each kind's fields.
ghost use Rattle.std.specs.Prelude.{◌≡◌, false};
ghost use Rattle.entries.specs.Kinds.{kind_of, number_of, counts_with_bills, names_guarantee_of, names_of, misnames_of};
ghost use Rattle.entries.specs.Ranges.{ends_of, b_fits, limits_of};

use std::ops::RangeInclusive;

// The documents' kinds 1 to 12 in their order, after a case for every other number, so that each number has a kind: 1 refuses that case.
#[derive(Clone, Copy, Debug, Default, PartialEq, Eq)]
pub enum Kind {
    #[default]
    Unknown = 0,
    Contribution = 1,
    AddedCustomer = 2,
    Bill = 3,
    Payment = 4,
    Deposit = 5,
    DepositReturn = 6,
    Expiry = 7,
    Correction = 8,
    Guarantee = 9,
    Reduction = 10,
    Retention = 11,
    LateCharge = 12,
}

// What b is: 1 or 3 phases, or a number up to another.
#[derive(Clone, Copy)]
pub enum BRange {
    Phases,
    UpTo(u16),
}

// Both ends of a range. A range of the library is not copied, and a row of the table is.
#[derive(Clone, Copy)]
pub struct Ends<N> {
    pub start: N,
    pub end: N,
}

// The ranges of the amount, of a and of b.
#[derive(Clone, Copy)]
pub struct Limits {
    pub amount: Ends<u32>,
    pub a: Ends<u16>,
    pub b: BRange,
}

impl BRange {
    #[tactic(auto, unfolding(crate::specs::Ranges::b_fits))]
    pub fn contains(self, b: u8) -> bool
        ensures { result ≡ b_fits b self }
    {
        match self {
            BRange::Phases => b == 1 || b == 3,
            BRange::UpTo(high) => u16::from(b) <= high,
        }
    }
}

impl<N> Ends<N> {
    // The range, not spent, as one is that has yielded its last value: `contains` reads both ends.
    pub fn range(self) -> RangeInclusive<N>
        ensures { result ≡ record { start = self.start; end = self.end; exhausted = false } }
    {
        self.start..=self.end
    }
}

impl Limits {
    fn row(amount: RangeInclusive<u32>, a: RangeInclusive<u16>, b: BRange) -> Limits
        ensures { result ≡ record { amount = ends_of amount; a = ends_of a; b = b } }
    {
        Limits {
            amount: amount.into(),
            a: a.into(),
            b,
        }
    }
}

impl<N> From<RangeInclusive<N>> for Ends<N> {
    ghost from_gives = { λ range ends. ends ≡ ends_of range };

    fn from(range: RangeInclusive<N>) -> Ends<N> {
        let (start, end) = range.into_inner();
        Ends { start, end }
    }
}

impl From<u8> for Kind {
    ghost from_gives = { λ number kind. kind ≡ kind_of number };

    #[tactic(auto, unfolding(crate::specs::Kinds::kind_of))]
    fn from(number: u8) -> Kind {
        match number {
            1 => Kind::Contribution,
            2 => Kind::AddedCustomer,
            3 => Kind::Bill,
            4 => Kind::Payment,
            5 => Kind::Deposit,
            6 => Kind::DepositReturn,
            7 => Kind::Expiry,
            8 => Kind::Correction,
            9 => Kind::Guarantee,
            10 => Kind::Reduction,
            11 => Kind::Retention,
            12 => Kind::LateCharge,
            _ => Kind::Unknown,
        }
    }
}

// The documents' number.
impl From<Kind> for u8 {
    ghost from_gives = { λ kind number. number ≡ number_of kind };

    fn from(kind: Kind) -> u8 {
        kind as u8
    }
}

impl Kind {
    pub const AMOUNT_MOST: u32 = 100000000;

    pub const RATE_MOST: u16 = 2000;

    // The days in a bill's period.
    pub const BILL_PERIOD_MOST: u16 = 62;

    // Whether an entry of this kind counts with bills: a bill or a late charge.
    pub fn counts_with_bills(self) -> bool
        ensures { result ≡ counts_with_bills self }
    {
        self == Kind::Bill || self == Kind::LateCharge
    }

    // Whether an entry of this kind names another entry.
    pub fn names(self) -> bool
        ensures { result ≡ names_of self }
    {
        self.names_guarantee()
            || matches!(self, Kind::AddedCustomer | Kind::Expiry | Kind::Correction)
    }

    // Whether it names a guarantee.
    fn names_guarantee(self) -> bool
        ensures { result ≡ names_guarantee_of self }
    {
        matches!(self, Kind::Reduction | Kind::Retention)
    }

    // Of a kind that names an entry: whether it may not name one of the other kind.
    #[tactic(auto, unfolding(crate::specs::Kinds::misnames_of))]
    pub fn misnames(self, other: Kind) -> bool
        ensures { result ≡ misnames_of self other }
    {
        match self {
            Kind::Correction => !matches!(other, Kind::Bill | Kind::Payment),
            Kind::Reduction | Kind::Retention => other != Kind::Guarantee,
            _ => other != Kind::Contribution,
        }
    }

    // The ranges of the fields, where a is the entry's field a.
    #[tactic(auto, unfolding(crate::specs::Ranges::limits_of))]
    pub fn limits(self, a: u16) -> Limits
        ensures { result ≡ limits_of self a }
    {
        let none = BRange::UpTo(0);
        match self {
            Kind::Contribution => Limits::row(1..=Kind::AMOUNT_MOST, 1..=u16::MAX, BRange::Phases),
            Kind::AddedCustomer => Limits::row(0..=0, 1..=u16::MAX, BRange::Phases),
            Kind::Bill => Limits::row(
                1..=Kind::AMOUNT_MOST,
                1..=Kind::BILL_PERIOD_MOST,
                BRange::UpTo(a),
            ),
            Kind::Deposit => Limits::row(1..=Kind::AMOUNT_MOST, 0..=Kind::RATE_MOST, none),
            Kind::Payment | Kind::Guarantee => Limits::row(1..=Kind::AMOUNT_MOST, 0..=0, none),
            Kind::Correction | Kind::LateCharge => Limits::row(0..=Kind::AMOUNT_MOST, 0..=0, none),
            Kind::DepositReturn
            | Kind::Expiry
            | Kind::Reduction
            | Kind::Retention
            | Kind::Unknown => Limits::row(0..=0, 0..=0, none),
        }
    }
}
