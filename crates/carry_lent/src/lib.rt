// The carry-over of an array's first entries.
#![tactic(auto)]

ghost use Rattle.std.specs.Prelude.{◌≡◌, min, take};
ghost use Rattle.carry.specs.Carry.{carried_reply, carry_of, carry_results_of};
ghost use Rattle.carry_lent.specs.Lent.{at_once};

use book::Book;
use carry::{Carried, carry_over};
use entries::Raw;

// How many entries `carry_first` takes at once.
pub const AT_ONCE: usize = 64;

// A count, and the most that are taken at once where it is larger.
fn taken(count: usize) -> usize
    ensures { result ≡ min count at_once }
{
    count.min(AT_ONCE)
}

// Carries over the first `count` entries of an array, or all of them where `count` is above its length.
pub fn carry_first(book: Book, entries: [Raw; AT_ONCE], count: usize, results: &mut [u8]) -> Carried
    ensures { (carried_reply result ≡ carry_of book (take (min count at_once) entries) results.old) × (results.new ≡ carry_results_of book (take (min count at_once) entries) results.old) }
{
    let n = taken(count);
    carry_over(book, &entries[..n], results)
}
