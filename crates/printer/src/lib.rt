// What the statement printer writes.
#![tactic(auto)]

ghost use Rattle.std.specs.Prelude.{◌≡◌};
ghost use Rattle.loads.specs.Loaded.{loaded_reply};
ghost use Rattle.printer.specs.Printed.{book_lines, printed_of};

use book::Book;
use buffers::Text;
use lines::{account_line, end_line, refused_line};
use loads::Loaded;
use queries::{StatementReply, statement};
use std::io;

// The bytes that every text has room in: a line for each account, and one line more.
pub const ROOM: usize = (Book::ACCOUNTS + 1) * lines::LONGEST_LINE;

// A line for each account with entries, ascending, and the end line.
#[tactic(auto, unfolding(crate::specs::Printed::account_lines))]
fn book_lines(book: &Book) -> Text<ROOM>
    ensures { result ≡ book_lines book.now }
{
    let mut text = Text::new();
    for account in 1..=Book::ACCOUNTS as u16 {
        if book.account(account).newest != 0 {
            let r = StatementReply::from(statement(book, account, 0));
            text.push(account_line(account, r.arrears, r.credit, r.deposit, r.held).as_slice());
        }
    }
    text.push(end_line(u64::from(book.count)).as_slice());
    text
}

// What the printer writes of a load.
pub fn printed(loaded: Loaded) -> Text<ROOM>
    ensures { result ≡ printed_of (loaded_reply loaded) }
{
    match loaded.answer {
        Ok(()) => book_lines(&loaded.book),
        Err(fault) => {
            let mut text = Text::new();
            let number = u8::from(fault.refusal);
            text.push(refused_line(u64::from(number), u64::from(fault.record_number())).as_slice());
            text
        }
    }
}

// Writes what the printer writes of a load to standard output.
pub fn print_loaded(rt: &impl Print, loaded: Loaded) -> io::Result<()> {
    rt.write_all(printed(loaded).as_slice())
}
