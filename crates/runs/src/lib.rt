// Late-charge runs: an opening, a step and a close.
#![tactic(auto)]

ghost use Rattle.std.specs.Prelude.{◌≡◌, map, drop, ◌+◌};
ghost use Rattle.book.specs.Posting.{posted_reply};
ghost use Rattle.runs.specs.Runs.{arrears_of, next_noted, next_serial, charge_of, check_opening_of, ran_reply, open_run_of, step_of, close_run_of};

use book::{Book, Next, Posted, Run, Serials, slot};
use entries::{Arrival, Kind, Raw, Refusal, refuse_if};
use measures::{Cents, Day};
use rules::{Account, late_amount};

// The next book beside the answer to an opening or a close.
pub type Ran = Next<Result<(), Refusal>>;

// The highest rate of a run, in hundredths of a percent.
const RATE_MOST: u16 = 1000;

// 28 of an opening: a run is open, or the node, the day or the rate is out of range.
#[tactic(auto, unfolding(crate::specs::Runs::check_opening_of, entries::specs::Ranges::between, entries::specs::Refusals::refuse_if))]
fn check_opening(run: &Option<Run>, node: u8, day: u16, rate: u16) -> Result<(), Refusal>
    ensures { result ≡ check_opening_of run.now node day rate }
{
    refuse_if(run.is_some(), Refusal::RunState)?;
    refuse_if(!(1..=2).contains(&node), Refusal::RunState)?;
    refuse_if(Day::LAST < day, Refusal::RunState)?;
    refuse_if(RATE_MOST < rate, Refusal::RunState)
}

// The arrears of every account.
fn arrears_of(accounts: &[Account; Book::ACCOUNTS]) -> [Cents; Book::ACCOUNTS]
    ensures { result ≡ map arrears_of accounts.now }
{
    accounts.map(|account| account.arrears)
}

// The first account after `charged` that has noted arrears.
fn next_noted(noted: &[Cents; Book::ACCOUNTS], charged: u16) -> Option<u16>
    ensures { result ≡ next_noted (charged + 1) (drop charged noted.now) }
{
    (1..=Book::ACCOUNTS as u16)
        .zip(noted)
        .skip(usize::from(charged))
        .find(|(_, arrears)| Cents(0) < **arrears)
        .map(|(account, _)| account)
}

// One more than a serial, and the largest where that does not fit: it is not new then (6).
fn next_serial(last: u32) -> u32
    ensures { result ≡ next_serial last }
{
    last.saturating_add(1)
}

// The entry by which a run charges the account that comes next, on its noted arrears.
#[tactic(auto, using(book::proofs::ChainLaws::slot_inside, crate::proofs::RunsLaws::late_most), unfolding(crate::specs::Runs::charge_of))]
fn charge(run: &Run, last: Serials) -> Raw
    ensures { result ≡ charge_of run.now last }
{
    let amount = late_amount(run.noted[slot(run.next)], run.rate);
    Raw {
        kind: Kind::LateCharge.into(),
        node: run.node,
        account: run.next,
        day: run.day,
        serial: next_serial(last.of(run.node)),
        amount: amount.0 as u32,
        ..Raw::default()
    }
}

// Opens a run: every account's arrears are noted. Where none has any, no run is left.
#[tactic(auto, unfolding(crate::specs::Runs::open_run_of, crate::specs::Runs::goes_on_at, entries::specs::Refusals::decided_of, entries::specs::Refusals::check_number))]
pub fn open_run(mut book: Book, node: u8, day: u16, rate: u16) -> Ran
    ensures { ran_reply result ≡ open_run_of book node day rate }
{
    let answer = check_opening(&book.run, node, day, rate);
    if answer.is_ok() {
        let noted = arrears_of(&book.accounts);
        book.run = next_noted(&noted, 0).map(|next| Run {
            node,
            day,
            rate,
            next,
            noted,
        });
    }
    Next { book, answer }
}

// A step: charges the account that comes next. A refused one leaves the run at its account.
#[tactic(auto, unfolding(crate::specs::Runs::step_by, crate::specs::Runs::stepped_of, crate::specs::Runs::goes_on_at, rules::specs::Answers::posting_reply_of))]
pub fn step(mut book: Book) -> Posted
    ensures { posted_reply result ≡ step_of book }
{
    let Some(run) = book.run else {
        let answer = Err(Refusal::RunState);
        return Next { book, answer };
    };
    let raw = charge(&run, book.last);
    let answer = book.admit(raw, Arrival::Recorded);
    if answer.is_ok() {
        book.run = next_noted(&run.noted, run.next).map(|next| Run { next, ..run });
    }
    Next { book, answer }
}

// Closes the run before its last account is charged.
#[tactic(auto, unfolding(entries::specs::Refusals::check_number, crate::specs::Runs::close_run_of, crate::specs::Runs::without_run))]
pub fn close_run(mut book: Book) -> Ran
    ensures { ran_reply result ≡ close_run_of book }
{
    if book.run.is_none() {
        let answer = Err(Refusal::RunState);
        return Next { book, answer };
    }
    book.run = None;
    Next {
        book,
        answer: Ok(()),
    }
}
