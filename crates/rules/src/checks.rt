// The refusals that the account and the named entry decide: 8 to 16, and 24 to 26.
ghost use Rattle.std.specs.Prelude.{◌≡◌, ◌&&◌};
ghost use Rattle.entries.specs.Kinds.{same_of};
ghost use Rattle.entries.specs.Refusals.{refuse_if, check_rows};
ghost use Rattle.rules.specs.Checks.{period_years, next_reduction, deposit_clash, named_rows, period_rows, check_own_of, check_naming_of};

use crate::accounts::Account;
use calendar::years_on;
use entries::{Entry, Incoming, Kind, Particulars, Refusal, refuse_if};
use measures::{Cents, Day};

// The calendar years from a contribution on in which added customers bring refunds; an expiry comes after them.
const REFUND_YEARS: u8 = 5;

// The calendar years from a guarantee on after which its rest may be retained.
const GUARANTEE_YEARS: u8 = 5;

// The years of the period by which an entry of a kind is judged: a guarantee's for a retention, else a contribution's.
fn period_years(kind: Kind) -> u8
    ensures { result ≡ period_years kind }
{
    if kind == Kind::Retention {
        GUARANTEE_YEARS
    } else {
        REFUND_YEARS
    }
}

// The days from a guarantee, or from a reduction of it, to its next reduction.
const REDUCTION_INTERVAL: u16 = 365;

// The first day on which a guarantee may be reduced, where it was given or last reduced on a day.
fn next_reduction(reduced: Day) -> u32
    ensures { result ≡ next_reduction reduced }
{
    u32::from(reduced.0) + u32::from(REDUCTION_INTERVAL)
}

// A deposit comes while one is held, or a return while none is.
fn deposit_clash(kind: Kind, held: Cents) -> bool
    ensures { result ≡ deposit_clash kind held }
{
    kind == Kind::Deposit && 0 < held.0 || kind == Kind::DepositReturn && held.0 == 0
}

// A rule for entries of one kind.
fn refuse_of(kind: Kind, of: Kind, broken: bool, refusal: Refusal) -> Result<(), Refusal>
    ensures { result ≡ refuse_if (same_of kind of && broken) refusal }
{
    refuse_if(kind == of && broken, refusal)
}

// 9, 24 and 10 of an entry that names nothing.
#[tactic(auto, unfolding(crate::specs::Checks::check_own_of, entries::specs::Refusals::refuse_if))]
pub fn check_own(incoming: Incoming, account: Account) -> Result<(), Refusal>
    ensures { result ≡ check_own_of incoming.raw incoming.kind account }
{
    let Incoming { raw, kind } = incoming;
    let before = raw.day < account.deposited.0;
    refuse_if(deposit_clash(kind, account.deposit), Refusal::DepositState)?;
    refuse_of(
        kind,
        Kind::Guarantee,
        account.guarantee_open,
        Refusal::GuaranteeOpen,
    )?;
    refuse_of(kind, Kind::DepositReturn, before, Refusal::DayBefore)
}

// 14 to 16 of an entry that names one of these particulars.
#[tactic(auto, unfolding(entries::specs::Refusals::refuse_if))]
fn check_named(incoming: Incoming, named: Particulars) -> Result<(), Refusal>
    ensures { result ≡ check_rows (named_rows incoming.raw incoming.kind named) }
{
    let Incoming { raw, kind } = incoming;
    let one_to_three = raw.b == 1 && named.phases == 3;
    let beyond = named.built.0 < raw.a;
    refuse_of(kind, Kind::AddedCustomer, one_to_three, Refusal::OnePhase)?;
    refuse_of(kind, Kind::AddedCustomer, beyond, Refusal::MetresExceeded)?;
    refuse_if(named.corrected, Refusal::CorrectedBefore)
}

// 12, 13, 25 and 26, and then 14 to 16, of an entry that names one of a day and of these particulars.
#[tactic(auto, unfolding(entries::specs::Refusals::refuse_if))]
fn check_period(incoming: Incoming, day: Day, named: Particulars) -> Result<(), Refusal>
    ensures { result ≡ check_rows (period_rows incoming.raw incoming.kind «day» named) }
{
    let Incoming { raw, kind } = incoming;
    let end = years_on(day, period_years(kind)).0;
    let running = raw.day < end;
    let early = u32::from(raw.day) < next_reduction(named.reduced);
    refuse_of(
        kind,
        Kind::AddedCustomer,
        end <= raw.day,
        Refusal::PeriodOver,
    )?;
    refuse_of(kind, Kind::Expiry, running, Refusal::PeriodRunning)?;
    refuse_of(kind, Kind::Reduction, early, Refusal::ReductionEarly)?;
    refuse_of(kind, Kind::Retention, running, Refusal::RetentionEarly)?;
    check_named(incoming, named)
}

// 8, for the kind of the named entry, 10 and 11, and then the others of an entry that names one.
#[tactic(auto, unfolding(crate::specs::Checks::check_naming_of, entries::specs::Refusals::refuse_if))]
pub fn check_naming(incoming: Incoming, entry: Entry) -> Result<(), Refusal>
    ensures { result ≡ check_naming_of incoming.raw incoming.kind entry }
{
    let named = entry.data.particulars();
    let misnamed = incoming.kind.misnames(named.kind);
    refuse_if(misnamed, Refusal::NotOnChain)?;
    refuse_if(incoming.raw.day < entry.day.0, Refusal::DayBefore)?;
    refuse_if(named.closed, Refusal::Closed)?;
    check_period(incoming, entry.day, named)
}
