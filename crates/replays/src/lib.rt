// The records of an image, or a list of entries, which come in one after another into any book.
#![tactic(auto)]

ghost use Rattle.std.specs.Prelude.{◌≡◌, set};
ghost use Rattle.entries.specs.Refusals.{check_number};
ghost use Rattle.rules.specs.Answers.{posting_reply_of};
ghost use Rattle.loads.specs.Loaded.{loaded_reply, loaded_from};
ghost use Rattle.replays.specs.Replays.{comes_in, stop_number, listed_in, replay_of};

use book::{Book, Next};
use codec::{Record, records_in};
use entries::{Arrival, Raw, Refusal, one_more, refusal_of, refuse_if};
use loads::Fault;
pub use loads::{LoadAnswer, Loaded};
use rules::PostingAnswer;

// An entry comes in: recorded, as one of an image's, or posted.
fn take_in(book: &mut Book, raw: Raw, image: bool) -> PostingAnswer
    ensures { (record { book = book.new; reply = posting_reply_of result }) ≡ comes_in image book.old raw }
{
    let arrival = if image {
        Arrival::Recorded
    } else {
        book.arrival()
    };
    book.admit(raw, arrival)
}

// What ends an image at a record: its entry's refusal, or 20. Nothing ends a list of entries.
#[tactic(auto, unfolding(crate::specs::Replays::stop_number, entries::specs::Refusals::refuse_if, entries::specs::Refusals::check_number, rules::specs::Answers::posting_reply_of))]
fn stop(image: bool, answer: PostingAnswer, next: u16, newest: u16) -> Result<(), Refusal>
    ensures { check_number result ≡ stop_number image (posting_reply_of answer).refusal next newest }
{
    if !image {
        return Ok(());
    }
    answer?;
    refuse_if(next != newest, Refusal::NextIndex)
}

// Writes a result at its place, where the list has it.
fn put_result(results: &mut [u8], i: usize, number: u8)
    ensures { results.new ≡ set results.old i number }
{
    if i < results.len() {
        results[i] = number;
    }
}

// Takes the records in, in place, as far as none ends them, and writes the refusal number of each entry, or 0, at its place in the results.
fn replay_into(book: &mut Book, records: &[u8], image: bool, results: &mut [u8]) -> LoadAnswer
    ensures { (record { loaded = loaded_from book.new result; results = results.new }) ≡ replay_of image (listed_in records.now) book.old results.old 0 }
{
    for (i, bytes) in records_in(records).iter().enumerate() {
        let given = Record::decode(bytes);
        let number = one_more(book.count);
        let newest = book.account(given.raw.account).newest;
        let answer = take_in(book, given.raw, image);
        put_result(results, i, refusal_of(&answer));
        if let Err(refusal) = stop(image, answer, given.next, newest) {
            let record = Some(number);
            return Err(Fault { refusal, record });
        }
    }
    Ok(())
}

// Records those of an image, or posts a list of entries, in turn, with the refusal number of each entry, or 0, at its place in the results,
// where they have it. The first record of an image that is refused ends it, with a fresh book.
#[tactic(auto, unfolding(loads::specs::Loaded::loaded_reply))]
pub fn replay(mut book: Book, records: &[u8], image: bool, results: &mut [u8]) -> Loaded
    ensures { (record { loaded = loaded_reply result; results = results.new }) ≡ replay_of image (listed_in records.now) book results.old 0 }
{
    let answer = replay_into(&mut book, records, image, results);
    if answer.is_err() {
        book = Book::fresh();
    }
    Next { book, answer }
}
