// The carry-over of the other node's entries.
#![tactic(auto)]

ghost use Rattle.std.specs.Prelude.{◌≡◌};
ghost use Rattle.carry.specs.Carry.{carried_reply, carry_of, carry_results_of};

use book::{Book, Next};
use entries::{Raw, Refusal, refusal_of};

// The next book beside the answer.
pub type Carried = Next<Result<(), Refusal>>;

// Posts each entry in turn, and writes its refusal number at the same place of the results.
pub fn carry_over(mut book: Book, entries: &[Raw], results: &mut [u8]) -> Carried
    ensures { (carried_reply result ≡ carry_of book entries.now results.old) × (results.new ≡ carry_results_of book entries.now results.old) }
{
    if results.len() < entries.len() {
        let answer = Err(Refusal::ResultsShort);
        return Next { book, answer };
    }
    for (i, raw) in entries.iter().enumerate() {
        results[i] = refusal_of(&book.offer(*raw));
    }
    Next {
        book,
        answer: Ok(()),
    }
}
