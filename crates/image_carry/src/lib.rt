// A carry-over of entries into an image.
#![tactic(auto)]

ghost use Rattle.std.specs.Prelude.{◌≡◌, ◌+◌, ◌≤◌, min, set, ltb};
ghost use Rattle.book.specs.Fresh.{entries_most};
ghost use Rattle.saves.specs.Saves.{bytes_of};
ghost use Rattle.loads.specs.Given.{bytes_given_of};
ghost use Rattle.loads.specs.Loads.{load_of};
ghost use Rattle.carry.specs.Carry.{refusals_of};
ghost use Rattle.image_carry.specs.Carries.{read_entries, next_of, put_all, carry_into, carry_image};

use book::{Book, Next};
use codec::{RECORD, Record, records_in};
use entries::{Refusal, refusal_of};
use loads::{BytesGiven, Fault, load};
use saves::{entry_count, save};

// What the exported call gives.
pub type CarryGiven = BytesGiven;

// The most entries that an image can have after so many more.
fn most_after(count: u16, more: usize) -> usize
    ensures { (result ≡ min (min count entries_most + more) entries_most) × (result ≤ entries_most) }
{
    usize::from(entry_count(count))
        .saturating_add(more)
        .min(Book::ENTRIES)
}

// Writes a result at its place, where the list has it.
fn put_result(results: &mut [u8], i: usize, number: u8)
    ensures { results.new ≡ set results.old i number }
{
    if i < results.len() {
        results[i] = number;
    }
}

// Posts each entry in turn, and writes its refusal number at the same place of the results, where they have it.
fn post_all(book: &mut Book, entries: &[u8], results: &mut [u8])
    ensures book { book.new ≡ next_of book.old entries.now }
    ensures results { results.new ≡ put_all results.old 0 (refusals_of book.old (read_entries entries.now)) }
{
    for (i, bytes) in records_in(entries).iter().enumerate() {
        let answer = book.offer(Record::decode(bytes).raw);
        put_result(results, i, refusal_of(&answer));
    }
}

// Whether an output of a length is too short for the image after the entries. Where it has no room for all the entries, they are
// posted to learn how many are accepted.
fn too_short(mut book: Book, entries: &[u8], length: usize) -> bool
    ensures { result ≡ ltb length (bytes_of (next_of book entries.now)) }
{
    let most = most_after(book.count, entries.len() / RECORD);
    if RECORD * (most + 1) <= length {
        return false;
    }
    post_all(&mut book, entries, &mut []);
    length < RECORD * (usize::from(entry_count(book.count)) + 1)
}

// A carry-over into a book, which is then saved: the bytes written.
#[tactic(auto, unfolding(saves::specs::Saves::save_reply_of, loads::specs::Given::bytes_given_of))]
fn carry_into(
    mut book: Book,
    entries: &[u8],
    results: &mut [u8],
    output: &mut [u8],
) -> Result<usize, Fault>
    ensures { (record { given = bytes_given_of result; results = results.new; output = output.new }) ≡ carry_into book entries.now results.old output.old }
{
    if entries.len() % RECORD != 0 {
        return Err(Refusal::ImageLength.into());
    }
    if results.len() < entries.len() / RECORD {
        return Err(Refusal::ResultsShort.into());
    }
    if book.run.is_some() {
        return Err(Refusal::SaveInRun.into());
    }
    if too_short(book, entries, output.len()) {
        return Err(Refusal::BufferShort.into());
    }
    post_all(&mut book, entries, results);
    Ok(save(&book, output)?)
}

// A carry-over into the book of an image.
#[tactic(auto, using(entries::proofs::RefusalsLaws::is_refusal), unfolding(loads::specs::Loaded::loaded_reply, loads::specs::Given::bytes_given_of, crate::specs::Carries::carry_image))]
fn carry_answer(
    image: &[u8],
    entries: &[u8],
    results: &mut [u8],
    output: &mut [u8],
) -> Result<usize, Fault>
    ensures { (record { given = bytes_given_of result; results = results.new; output = output.new }) ≡ carry_image (load_of image.now) entries.now results.old output.old }
{
    let Next { book, answer } = load(image);
    answer?;
    carry_into(book, entries, results, output)
}

// Carries entries over into an image.
pub fn carry_image(
    image: &[u8],
    entries: &[u8],
    results: &mut [u8],
    output: &mut [u8],
) -> CarryGiven
    ensures { (record { given = result; results = results.new; output = output.new }) ≡ carry_image (load_of image.now) entries.now results.old output.old }
{
    carry_answer(image, entries, results, output).into()
}
