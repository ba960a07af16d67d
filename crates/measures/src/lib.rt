// Measures: whole cents, days from 2000-01-01, whole metres. Each is a type of its own, so that no sum mixes two of them.
#![tactic(auto)]

ghost use Rattle.std.specs.Prelude.{◌≡◌};
ghost use Rattle.measures.specs.Cents.{plus_of, minus_of, least_of, times_of, rounded_of};
ghost use Rattle.measures.specs.Days.{since_of};

#[derive(Clone, Copy, PartialEq, Eq, PartialOrd, Ord, Debug, Default)]
pub struct Cents(pub u64);

// Day 0 is 2000-01-01.
#[derive(Clone, Copy, PartialEq, Eq, PartialOrd, Ord, Debug, Default)]
pub struct Day(pub u16);

#[derive(Clone, Copy, PartialEq, Eq, PartialOrd, Ord, Debug, Default)]
pub struct Metres(pub u16);

impl Cents {
    pub const MOST: u64 = u64::MAX;

    // The sum, and the largest amount where it does not fit.
    pub fn plus(self, other: Cents) -> Cents
        ensures { result ≡ plus_of self other }
    {
        Cents(self.0.saturating_add(other.0))
    }

    // The difference, and 0 where it would be negative.
    pub fn minus(self, other: Cents) -> Cents
        ensures { result ≡ minus_of self other }
    {
        Cents(self.0.saturating_sub(other.0))
    }

    pub fn least(self, other: Cents) -> Cents
        ensures { result ≡ least_of self other }
    {
        Cents(self.0.min(other.0))
    }

    // The product, and the largest amount where it does not fit.
    pub fn times(self, n: u64) -> Cents
        ensures { result ≡ times_of self n }
    {
        Cents(self.0.saturating_mul(n))
    }

    // The quotient to the nearest cent, an exact half to the even one, and 0 by 0.
    #[tactic(auto, using(crate::proofs::Rounding::by_zero, crate::proofs::Rounding::up, crate::proofs::Rounding::down))]
    pub fn rounded(self, divisor: u64) -> Cents
        ensures { result ≡ rounded_of self divisor }
    {
        if divisor == 0 {
            return Cents(0);
        }
        let whole = self.0 / divisor;
        let rest = self.0 % divisor;
        // Above a half, or at an exact half where whole is odd.
        if divisor - rest < rest + whole % 2 {
            Cents(whole + 1)
        } else {
            Cents(whole)
        }
    }
}

impl Day {
    // 2099-12-31.
    pub const LAST: u16 = 36524;

    // The days from an earlier day to this one, and 0 where that day is later.
    pub fn since(self, earlier: Day) -> u16
        ensures { result ≡ since_of self earlier }
    {
        self.0.saturating_sub(earlier.0)
    }
}
