// A load: the book that an image holds, from lent bytes.
#![tactic(auto)]

mod given;

ghost use Rattle.std.specs.Prelude.{◌≡◌, OnOk};
ghost use Rattle.entries.specs.Refusals.{check_number};
ghost use Rattle.book.specs.Fresh.{fresh_book};
ghost use Rattle.book.specs.Posting.{record_of};
ghost use Rattle.loads.specs.Loaded.{no_record, record_number, loaded_reply, loaded_from, record_refusal};
ghost use Rattle.loads.specs.Loads.{load_of};

use book::{Book, Next};
use codec::{RECORD, Record, check, records_in};
use entries::{Arrival, Refusal, refuse_if};
pub use given::BytesGiven;

// Why an image is refused: the refusal, and the record at fault, counted from 1, where one is.
#[derive(Clone, Copy, Debug, PartialEq, Eq)]
pub struct Fault {
    pub refusal: Refusal,
    pub record: Option<u16>,
}

impl Fault {
    // The documents' number of the record: 0 where none is at fault.
    pub fn record_number(self) -> u16
        ensures { result ≡ record_number self }
    {
        self.record.unwrap_or(0)
    }
}

pub type LoadAnswer = Result<(), Fault>;

// The next book beside the answer.
pub type Loaded = Next<LoadAnswer>;

// No record is at fault.
impl From<Refusal> for Fault {
    ghost from_gives = { λ refusal fault. fault ≡ no_record refusal };

    fn from(refusal: Refusal) -> Fault {
        Fault {
            refusal,
            record: None,
        }
    }
}

// Records an entry of an image, which is refused by 1 to 16 or 24 to 26 as recorded, and then by 20.
#[tactic(auto, unfolding(crate::specs::Loaded::record_refusal, entries::specs::Refusals::refuse_if, entries::specs::Refusals::check_number, rules::specs::Answers::posting_reply_of))]
fn record(book: &mut Book, given: Record) -> Result<(), Refusal>
    ensures number { check_number result ≡ record_refusal book.old given }
    ensures ok { OnOk result (book.new ≡ (record_of book.old given.raw).book) }
{
    let newest = book.account(given.raw.account).newest;
    book.admit(given.raw, Arrival::Recorded)?;
    refuse_if(given.next != newest, Refusal::NextIndex)
}

// Records the entries of an image in a fresh book, as far as none is refused.
fn load_into(book: &mut Book, image: &[u8]) -> LoadAnswer
    requires { book.old ≡ fresh_book }
    ensures { loaded_from book.new result ≡ load_of image.now }
{
    check(image)?;
    let records = records_in(&image[RECORD..]);
    for (number, bytes) in (1u16..).zip(records) {
        if let Err(refusal) = record(book, Record::decode(bytes)) {
            let record = Some(number);
            return Err(Fault { refusal, record });
        }
    }
    Ok(())
}

// The book that an image holds, or a fresh one.
#[tactic(auto, unfolding(crate::specs::Loaded::loaded_reply))]
pub fn load(image: &[u8]) -> Loaded
    ensures { loaded_reply result ≡ load_of image.now }
{
    let mut book = Book::fresh();
    let answer = load_into(&mut book, image);
    if answer.is_err() {
        book = Book::fresh();
    }
    Next { book, answer }
}
