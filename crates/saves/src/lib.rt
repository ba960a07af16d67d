// A save: the image of a book, written into a lent buffer.
#![tactic(auto)]

ghost use Rattle.std.specs.Prelude.{◌≡◌, ◌≤◌, min};
ghost use Rattle.book.specs.Fresh.{entries_most};
ghost use Rattle.saves.specs.Saves.{narrow, raw_of, save_reply_of, save_of, saved_in};

use book::Book;
use codec::{RECORD, Record, header};
use entries::{Data, Entry, Raw, Refusal};
use measures::Cents;

// The bytes written, or the refusal.
pub type SaveAnswer = Result<usize, Refusal>;

// An amount in 32 bits, and the largest number where it does not fit.
fn narrow(amount: Cents) -> u32
    ensures { result ≡ narrow amount }
{
    u32::try_from(amount.0).unwrap_or(u32::MAX)
}

// The entry as it was given.
#[tactic(auto, unfolding(entries::specs::Data::case_of, entries::specs::Data::particulars_of, crate::specs::Saves::raw_of))]
pub fn raw_of(entry: Entry) -> Raw
    ensures { result ≡ raw_of entry }
{
    let common = Raw {
        kind: entry.data.particulars().kind.into(),
        node: entry.node,
        account: entry.account,
        day: entry.day.0,
        serial: entry.serial,
        ..Raw::default()
    };
    match entry.data {
        Data::Unused | Data::DepositReturn => common,
        Data::Contribution {
            amount,
            built,
            phases,
            ..
        } => Raw {
            amount: narrow(amount),
            a: built.0,
            b: phases,
            ..common
        },
        Data::AddedCustomer {
            named,
            shared,
            phases,
        } => Raw {
            named_serial: named.serial,
            a: shared.0,
            b: phases,
            named_node: named.node,
            ..common
        },
        Data::Bill {
            charge,
            period,
            served,
            ..
        } => Raw {
            amount: narrow(charge),
            a: period,
            b: served,
            ..common
        },
        Data::Deposit { amount, rate } => Raw {
            amount: narrow(amount),
            a: rate,
            ..common
        },
        Data::Correction { named, amount } => Raw {
            amount: narrow(amount),
            named_serial: named.serial,
            named_node: named.node,
            ..common
        },
        Data::Payment { amount, .. } | Data::Guarantee { amount, .. } | Data::LateCharge(amount) =>
            {
                Raw {
                    amount: narrow(amount),
                    ..common
                }
            }
        Data::Expiry(named) | Data::Reduction(named) | Data::Retention(named) => Raw {
            named_serial: named.serial,
            named_node: named.node,
            ..common
        },
    }
}

// How many entries an image has.
pub fn entry_count(count: u16) -> u16
    ensures { (result ≡ min count entries_most) × (result ≤ entries_most) }
{
    count.min(Book::ENTRIES as u16)
}

// Writes the image of a book that has no run open (29) at the start of a buffer that has room for it (21).
#[tactic(auto, unfolding(crate::specs::Saves::save_reply_of))]
pub fn save(book: &Book, buf: &mut [u8]) -> SaveAnswer
    ensures { (save_reply_of result ≡ save_of book.now buf.old) × (buf.new ≡ saved_in book.now buf.old) }
{
    if book.run.is_some() {
        return Err(Refusal::SaveInRun);
    }
    let entry_count = entry_count(book.count);
    let count = usize::from(entry_count);
    let total = RECORD * (count + 1);
    if buf.len() < total {
        return Err(Refusal::BufferShort);
    }
    buf[..RECORD].copy_from_slice(&header(entry_count));
    for (i, &entry) in book.entries[..count].iter().enumerate() {
        let at = RECORD * (i + 1);
        let record = Record {
            raw: raw_of(entry),
            next: entry.next,
        };
        buf[at..at + RECORD].copy_from_slice(&record.encode());
    }
    Ok(total)
}
