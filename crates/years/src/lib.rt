// The totals of the calendar years.
#![tactic(auto)]

ghost use Rattle.std.specs.Prelude.{◌≡◌};
ghost use Rattle.years.specs.Years.{in_bills, in_payments, posted_in, restated_in, no_years, posted_to, restated_to, totals_of};

use calendar::year_of;
use entries::{Data, Kind, one_more};
use measures::{Cents, Day};

// What the entries of a year come to.
#[derive(Clone, Copy, Default)]
pub struct Year {
    // Bills with late charges, and payments, at their standing amounts.
    pub bills: Cents,
    pub payments: Cents,
    pub paid_out: Cents,
    // How many entries there are.
    pub entries: u16,
}

// The totals of each calendar year from 2000 to 2099.
#[derive(Clone, Copy)]
pub struct Years([Year; Years::COUNT]);

// What an entry counts among bills.
#[tactic(auto, unfolding(crate::specs::Years::in_bills))]
fn in_bills(data: Data) -> Cents
    ensures { result ≡ in_bills «data» }
{
    let particulars = data.particulars();
    particulars.standing_if(particulars.kind.counts_with_bills())
}

// What an entry counts among payments.
#[tactic(auto, unfolding(crate::specs::Years::in_payments))]
fn in_payments(data: Data) -> Cents
    ensures { result ≡ in_payments «data» }
{
    let particulars = data.particulars();
    particulars.standing_if(particulars.kind == Kind::Payment)
}

impl Year {
    // After an entry of the year, which paid so much out.
    #[tactic(auto, unfolding(crate::specs::Years::posted_in))]
    fn posted(self, data: Data, paid_out: Cents) -> Year
        ensures { result ≡ posted_in self «data» paid_out }
    {
        Year {
            bills: self.bills.plus(in_bills(data)),
            payments: self.payments.plus(in_payments(data)),
            paid_out: self.paid_out.plus(paid_out),
            entries: one_more(self.entries),
        }
    }

    // After a change of an entry of the year: plus what it counts now, minus what it counted before.
    #[tactic(auto, unfolding(crate::specs::Years::restated_in))]
    fn restated(self, before: Data, after: Data) -> Year
        ensures { result ≡ restated_in self before after }
    {
        Year {
            bills: self.bills.plus(in_bills(after)).minus(in_bills(before)),
            payments: self
                .payments
                .plus(in_payments(after))
                .minus(in_payments(before)),
            ..self
        }
    }
}

impl Years {
    const FIRST: u16 = 2000;

    const COUNT: usize = 100;

    // Of no entries.
    pub fn fresh() -> Years
        ensures { result ≡ no_years }
    {
        let year = Year::default();
        Years([year; Years::COUNT])
    }

    // An entry of a day joins, which paid so much out.
    #[tactic(auto, using(crate::proofs::YearsLaws::year_inside), unfolding(crate::specs::Years::posted_to))]
    pub fn post(&mut self, day: Day, data: Data, paid_out: Cents)
        ensures { self.new ≡ posted_to self.old day.0 «data» paid_out }
    {
        let y = year_of(day);
        self.0[y] = self.0[y].posted(data, paid_out);
    }

    // An entry of a day is changed: it counts in that day's year, whatever changes it.
    #[tactic(auto, using(crate::proofs::YearsLaws::year_inside), unfolding(crate::specs::Years::restated_to))]
    pub fn restate(&mut self, day: Day, before: Data, after: Data)
        ensures { self.new ≡ restated_to self.old day.0 before after }
    {
        let y = year_of(day);
        self.0[y] = self.0[y].restated(before, after);
    }

    // A year by its number; other years read zero.
    #[tactic(auto, unfolding(crate::specs::Years::totals_of, entries::specs::Ranges::between))]
    pub fn totals(&self, year: u16) -> Year
        ensures { result ≡ totals_of self.now year }
    {
        let Some(y) = year.checked_sub(Years::FIRST) else {
            return Year::default();
        };
        self.0.get(usize::from(y)).copied().unwrap_or_default()
    }
}
