// The formulas: a bill's billed amount, a contribution's refund, a deposit's interest, a guarantee's reduction, a late charge's amount.
ghost use Rattle.std.specs.Prelude.{◌≡◌};
ghost use Rattle.rules.specs.Formulas.{billed_of, refund_of, interest_of, given_back_of, late_amount_of};

use entries::{Kind, Particulars};
use measures::{Cents, Metres};

// The charge for the full period, for the days served of it.
#[tactic(auto, unfolding(crate::specs::Formulas::billed_of))]
pub fn billed(charge: Cents, served: u8, period: u16) -> Cents
    ensures { result ≡ billed_of charge served period }
{
    charge.times(u64::from(served)).rounded(u64::from(period))
}

// What one more customer on the line gives back: its share, and not more than is held. Cents and metres are unwrapped, and the refund is
// cents again.
#[tactic(auto, unfolding(crate::specs::Formulas::refund_of))]
pub fn refund(particulars: Particulars, shared: Metres) -> Cents
    ensures { result ≡ refund_of particulars shared }
{
    let contribution = particulars.amount.0;
    let metres_shared = u64::from(shared.0);
    let metres_built = u64::from(particulars.built.0);
    let k = u64::from(particulars.added) + 2;
    let product = contribution.saturating_mul(metres_shared);
    let share = product.checked_div(metres_built * k).unwrap_or(0);
    Cents(particulars.held.0.min(share))
}

// The days of a year times the hundredths of a percent in the whole.
const RATE_YEAR: u64 = 3650000;

// The interest on a deposit at a yearly rate in hundredths of a percent, for a number of days.
#[tactic(auto, unfolding(crate::specs::Formulas::interest_of))]
pub fn interest(deposit: Cents, rate: u64, days: u16) -> Cents
    ensures { result ≡ interest_of deposit rate days }
{
    deposit
        .times(rate)
        .times(u64::from(days))
        .rounded(RATE_YEAR)
}

// What a reduction gives back: a tenth of the payments in its window, and not more than is held.
#[tactic(auto, unfolding(crate::specs::Formulas::given_back_of))]
pub fn given_back(held: Cents, paid: Cents) -> Cents
    ensures { result ≡ given_back_of held paid }
{
    held.least(Cents(paid.0 / 10))
}

// The hundredths of a percent in the whole.
const RATE_WHOLE: u64 = 10000;

// The amount of a late charge on noted arrears at a rate in hundredths of a percent, at most the largest amount of an entry.
#[tactic(auto, unfolding(crate::specs::Formulas::late_amount_of))]
pub fn late_amount(noted: Cents, rate: u16) -> Cents
    ensures { result ≡ late_amount_of noted rate }
{
    noted
        .times(u64::from(rate))
        .rounded(RATE_WHOLE)
        .least(Cents(u64::from(Kind::AMOUNT_MOST)))
}
