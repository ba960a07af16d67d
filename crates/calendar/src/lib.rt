// Dates from 2000-01-01, day 0, to 2099-12-31, day 36,524. Every call answers for every day and date: a later day has no date, 0-0-0, and
// a date that the calendar does not have has no day, NEVER.
#![tactic(auto)]

ghost use Rattle.std.specs.Prelude.{◌≡◌, ◌<◌, Some};
ghost use Rattle.measures.specs.Days.{day};
ghost use Rattle.calendar.specs.Years.{leap, days_of_month, month_start, month_of, first_day, year_of};
ghost use Rattle.calendar.specs.Dates.{date_of, real, day_of, date_text};
ghost use Rattle.calendar.specs.Periods.{years_on};

use measures::Day;
use std::fmt;

// January is month 1.
#[derive(Clone, Copy, PartialEq, Eq, PartialOrd, Ord, Debug, Default)]
pub struct Date {
    pub year: u16,
    pub month: u8,
    pub day: u8,
}

// Year, month and day, the last two of two digits at least.
impl fmt::Display for Date {
    ghost output = { λ t. Some (date_text t) };

    #[tactic(auto, using(crate::proofs::Printed::two_wide))]
    fn fmt<W: fmt::Write>(&self, f: &mut fmt::Formatter<W>) -> fmt::Result {
        let Date { year, month, day } = *self;
        write!(f, "{year}-{month:02}-{day:02}")
    }
}

// A number above every day: a period that ends after the last day is compared as any other, without a case of its own.
pub const NEVER: u16 = u16::MAX;

// The days of four years in a row, one of which is a leap year.
const FOUR_YEARS: u32 = 1461;

// The days from 1 March 1996 to day 0.
const FROM_MARCH: u32 = 1401;

// The days of a common year before each month, from 0, and of the whole year.
const MONTH_STARTS: [u16; 13] = [0, 31, 59, 90, 120, 151, 181, 212, 243, 273, 304, 334, 365];

#[tactic(auto, unfolding(crate::specs::Years::leap))]
fn is_leap(year: u16) -> bool
    ensures { result ≡ leap year }
{
    year % 4 == 0
}

// The days of a year, long where it is a leap year, before its month, from 0.
#[tactic(auto, using(crate::proofs::Years::by_table))]
fn month_start(long: bool, month: usize) -> u16
    requires { month < 13 }
    ensures { result ≡ month_start long month }
{
    MONTH_STARTS[month] + u16::from(long && 2 <= month)
}

#[tactic(auto, using(crate::proofs::Years::next_month))]
fn days_of_month(long: bool, month: usize) -> u16
    requires { month < 12 }
    ensures { result ≡ days_of_month long month }
{
    month_start(long, month + 1) - month_start(long, month)
}

// The month of a year's day, both from 0. A month has at most 31 days and two have at least 59, so it is at / 32 or the next.
#[tactic(auto, using(crate::proofs::Years::month_next, crate::proofs::Years::month_same, crate::proofs::Years::december))]
fn month_of(long: bool, at: u16) -> usize
    requires { at < month_start long 12 }
    ensures { result ≡ month_of long at }
{
    let month = usize::from(at / 32);
    if month < 11 && month_start(long, month + 1) <= at {
        month + 1
    } else {
        month
    }
}

// The first day of the year 2000 + year.
#[tactic(auto, using(crate::proofs::Years::first_day_lem))]
fn first_day(year: usize) -> u16
    requires { year < 100 }
    ensures { result ≡ first_day year }
{
    (365 * year + (year + 3) / 4) as u16
}

// The year of a day, from 0 for 2000 to 99 for 2099, in which later days count too.
#[tactic(auto, using(crate::proofs::Years::year_is))]
pub fn year_of(day: Day) -> usize
    ensures { result ≡ year_of day.0 }
{
    (4 * u32::from(day.0) / FOUR_YEARS).min(99) as usize
}

#[tactic(auto, using(crate::proofs::Dates::placed, crate::proofs::Dates::undated))]
pub fn date_of(day: Day) -> Date
    ensures { result ≡ date_of day.0 }
{
    if Day::LAST < day.0 {
        return Date::default();
    }
    let index = year_of(day);
    let year = 2000 + index as u16;
    let long = is_leap(year);
    let at = day.0 - first_day(index);
    let month = month_of(long, at);
    let rest = at - month_start(long, month);
    Date {
        year,
        month: month as u8 + 1,
        day: rest as u8 + 1,
    }
}

// Whether there is such a date from 2000 to 2099.
#[tactic(auto, unfolding(crate::specs::Dates::real), using(std::proofs::lemmas::Bool::Decides::nat_tests))]
fn is_real(date: Date) -> bool
    ensures { result ≡ real date }
{
    let Date { year, month, day } = date;
    (2000..=2099).contains(&year)
        && (1..=12).contains(&month)
        && 1 <= day
        && u16::from(day) <= days_of_month(is_leap(year), usize::from(month) - 1)
}

#[tactic(auto, using(crate::proofs::Dates::counted, crate::proofs::Dates::uncounted))]
pub fn day_of(date: Date) -> Day
    ensures { result ≡ day (day_of date) }
{
    if is_real(date) {
        let start = first_day(usize::from(date.year) - 2000);
        let month = month_start(is_leap(date.year), usize::from(date.month) - 1);
        Day(start + month + u16::from(date.day) - 1)
    } else {
        Day(NEVER)
    }
}

// The day on which a period of so many years ends, and NEVER where that is after 2099. Counted from 1 March 1996, every fourth year ends with a
// 29 February: the period has 365 days for each of its years, and one more for each 29 February that it passes.
#[tactic(auto, using(crate::proofs::Periods::by_formula, crate::proofs::Periods::past_formula))]
pub fn years_on(start: Day, years: u8) -> Day
    ensures { result ≡ day (years_on years start.0) }
{
    let start = u32::from(start.0);
    let years = u32::from(years);
    let from = (4 * (start + FROM_MARCH) + 3) / FOUR_YEARS;
    let leap_days = (from + years) / 4 - from / 4;
    let end = start + 365 * years + leap_days;
    if end <= u32::from(Day::LAST) {
        Day(end as u16)
    } else {
        Day(NEVER)
    }
}
