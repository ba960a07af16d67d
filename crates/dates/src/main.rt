// Prints days with their dates, and the days and years of these: four or five days of each year, the first days of months, days that have no
// date; then dates with their days, some of which the calendar does not have; then starts and ends of periods.
#![tactic(auto)]

use calendar::{Date, NEVER, date_of, day_of, year_of, years_on};
use measures::Day;
use std::io;

// Year, month and day.
const DATES: [(u16, u8, u8); 13] = [
    (1999, 12, 31),
    (2100, 1, 1),
    (2000, 0, 1),
    (2000, 13, 1),
    (2000, 1, 0),
    (2000, 1, 32),
    (2000, 2, 29),
    (2000, 2, 30),
    (2001, 2, 29),
    (2001, 2, 28),
    (2000, 4, 31),
    (2099, 12, 31),
    (65535, 255, 255),
];

// First days of periods of five years.
const FIVE_YEARS: [u16; 12] = [
    0, 58, 59, 60, 100, 1154, 1155, 1520, 34698, 34699, 36524, 36525,
];

// First days of other periods, and their years.
const OTHER_YEARS: [(u16, u8); 12] = [
    (0, 0),
    (59, 0),
    (59, 4),
    (59, 8),
    (59, 10),
    (100, 1),
    (36524, 0),
    (36524, 1),
    (0, 99),
    (0, 100),
    (0, 255),
    (65535, 255),
];

// A day, its date, that date's day, and the day's year from 0.
fn print_day(rt: &impl Print, day: Day) -> io::Result<()> {
    let number = day.0;
    let date = date_of(day);
    let again = day_of(date).0;
    let year = year_of(day);
    println!(rt; "{number} {date} {again} {year}")
}

// Five days of a year, 29 February where the year has it.
fn print_year(rt: &impl Print, year: u16) -> io::Result<()> {
    for (month, day) in [(1, 1), (2, 28), (2, 29), (3, 1), (12, 31)] {
        let day = day_of(Date { year, month, day });
        if day != Day(NEVER) {
            print_day(rt, day)?;
        }
    }
    Ok(())
}

// The first days of the months.
fn print_months(rt: &impl Print, year: u16) -> io::Result<()> {
    for month in 1..=12 {
        let day = 1;
        print_day(rt, day_of(Date { year, month, day }))?;
    }
    Ok(())
}

// A date and its day.
fn print_given(rt: &impl Print, date: Date) -> io::Result<()> {
    let number = day_of(date).0;
    println!(rt; "{date} {number}")
}

// A period's first day with its date, its years, and its end with its date.
fn print_period(rt: &impl Print, start: u16, years: u8) -> io::Result<()> {
    let first = date_of(Day(start));
    let end = years_on(Day(start), years);
    let number = end.0;
    let last = date_of(end);
    println!(rt; "{start} {first} {years} {number} {last}")
}

fn main(rt: HostRuntime) -> io::Result<()> {
    for year in 2000..2100 {
        print_year(&rt, year)?;
    }
    for year in [2000, 2001] {
        print_months(&rt, year)?;
    }
    for number in [36525, 65535] {
        print_day(&rt, Day(number))?;
    }
    for (year, month, day) in DATES {
        print_given(&rt, Date { year, month, day })?;
    }
    for start in FIVE_YEARS {
        print_period(&rt, start, 5)?;
    }
    for (start, years) in OTHER_YEARS {
        print_period(&rt, start, years)?;
    }
    Ok(())
}
