// A posting to an image.
#![tactic(auto)]

ghost use Rattle.std.specs.Prelude.{◌≡◌};
ghost use Rattle.loads.specs.Loads.{load_of};
ghost use Rattle.image_post.specs.Postings.{posting_given, posting_given_of, post_into, post_image};

use book::{Book, Next};
use codec::{RECORD, record_in};
use entries::Refusal;
use loads::{Fault, load};
use rules::{Accepted, PostingReply};
use saves::save;

#[repr(C)]
#[derive(Clone, Copy)]
pub struct PostingGiven {
    pub refusal: u8,
    // The image's record at fault, 0 where none is.
    pub record: u16,
    // The number of the entry.
    pub number: u16,
    // The length of the image written.
    pub bytes: usize,
    // Arrears settled by a credit.
    pub settled: u64,
    pub paid_out: u64,
    pub retained: u64,
    pub interest: u64,
}

// What an accepted posting answers, and the length of the image written.
struct Written {
    accepted: Accepted,
    bytes: usize,
}

fn posting_given(reply: PostingReply, record: u16, bytes: usize) -> PostingGiven
    ensures { result ≡ posting_given reply «record» bytes }
{
    PostingGiven {
        refusal: reply.refusal,
        record,
        number: reply.number,
        bytes,
        settled: reply.settled,
        paid_out: reply.paid_out,
        retained: reply.retained,
        interest: reply.interest,
    }
}

impl From<Result<Written, Fault>> for PostingGiven {
    ghost from_gives = { λ answer given. given ≡ posting_given_of answer };

    #[tactic(auto, unfolding(rules::specs::Answers::posting_reply_of, crate::specs::Postings::posting_given_of))]
    fn from(answer: Result<Written, Fault>) -> PostingGiven {
        match answer {
            Err(fault) => posting_given(Err(fault.refusal).into(), fault.record_number(), 0),
            Ok(Written { accepted, bytes }) => posting_given(Ok(accepted).into(), 0, bytes),
        }
    }
}

// A posting to a book, which is then saved.
#[tactic(auto, using(crate::proofs::Postings::post_17, crate::proofs::Postings::post_refused), unfolding(rules::specs::Answers::posting_reply_of, crate::specs::Postings::posting_given_of))]
fn post_into(mut book: Book, entry: &[u8], output: &mut [u8]) -> Result<Written, Fault>
    ensures { (record { given = posting_given_of result; output = output.new }) ≡ post_into book entry.now output.old }
{
    if entry.len() != RECORD {
        return Err(Refusal::ImageLength.into());
    }
    let accepted = book.offer(record_in(entry, 0).raw)?;
    let bytes = save(&book, output)?;
    Ok(Written { accepted, bytes })
}

// A posting to the book of an image.
#[tactic(auto, using(entries::proofs::RefusalsLaws::is_refusal), unfolding(loads::specs::Loaded::loaded_reply, crate::specs::Postings::posting_given_of, crate::specs::Postings::post_image))]
fn post_answer(image: &[u8], entry: &[u8], output: &mut [u8]) -> Result<Written, Fault>
    ensures { (record { given = posting_given_of result; output = output.new }) ≡ post_image (load_of image.now) entry.now output.old }
{
    let Next { book, answer } = load(image);
    answer?;
    post_into(book, entry, output)
}

// Posts an entry to an image.
pub fn post_image(image: &[u8], entry: &[u8], output: &mut [u8]) -> PostingGiven
    ensures { (record { given = result; output = output.new }) ≡ post_image (load_of image.now) entry.now output.old }
{
    post_answer(image, entry, output).into()
}
