// The page printer: reads an image from standard input and writes the page of the account that its argument names, or why the image or
// the account is refused. No contract can say what is read and written: what is proved is `account_in` of the argument read, and
// `printed_page` of this account and the bytes read.
#![tactic(auto)]

ghost use Rattle.std.specs.Prelude.{◌≡◌};
ghost use Rattle.statement_page.specs.Arguments.{account_in};

use codec::LONGEST_IMAGE;
use page_printer::print_page;
use std::io;
use std::rt::Env;
use text::{number, read_full};

// The account that an argument names: 0, which is refused by 3, where it is no decimal number up to 65,535.
#[tactic(auto, unfolding(crate::specs::Arguments::account_in))]
fn account_in(word: &[u8]) -> u16
    ensures { result ≡ account_in word.now }
{
    match number(word) {
        Some((n, [])) => u16::try_from(n).unwrap_or(0),
        _ => 0,
    }
}

fn main(rt: HostRuntime) -> io::Result<()> {
    // An argument of more bytes is taken as a missing one.
    let mut word = [0u8; 20];
    let w = rt.arg(1, &mut word).unwrap_or(0);
    let account = account_in(&word[..w]);
    // One byte more than the longest image has, so that a longer one is noticed.
    let mut image = [0u8; LONGEST_IMAGE + 1];
    let n = read_full(&mut rt.stdin(), &mut image)?;
    print_page(&rt, &image[..n], account)
}
