// The statement page of an account, written into a lent buffer.
#![tactic(auto)]

mod rows;

ghost use Rattle.std.specs.Prelude.{◌≡◌};
ghost use Rattle.entries.specs.Refusals.{check_rows};
ghost use Rattle.queries.specs.Chain.{walk_at};
ghost use Rattle.queries.specs.Statements.{statement_of};
ghost use Rattle.pages.specs.Rows.{entries_shown, head_rows, entry_rows, page_rows};
ghost use Rattle.pages.specs.Pages.{shown_amount, entry_lines_of, page_refusals, page_exit_of, page_of};

use book::{Book, check_account};
use entries::{Entry, Kind, Refusal, refuse_if};
use queries::{StatementReply, statement};
use rows::{LINE, ShownAccount, account_row, blank_row, entry_row, figure_row};
use saves::raw_of;

// The lines of a page, those before the first entry, and how many entries it shows.
const LINES: usize = 66;

const HEAD: usize = 7;

const ENTRIES_SHOWN: usize = 58;

// The bytes of a page.
pub const PAGE: usize = LINES * LINE;

// The bytes written, or the refusal.
pub type PageAnswer = Result<usize, Refusal>;

// A bill's or payment's standing amount, else the posted one, which is zero where the kind has none.
#[tactic(auto, unfolding(crate::specs::Pages::shown_amount))]
fn shown_amount(entry: Entry) -> u64
    ensures { result ≡ shown_amount entry }
{
    let particulars = entry.data.particulars();
    match particulars.kind {
        Kind::Bill | Kind::Payment => particulars.standing.0,
        _ => u64::from(raw_of(entry).amount),
    }
}

// 3, then 23.
#[tactic(auto, unfolding(entries::specs::Refusals::refuse_if))]
fn check_page(account: u16, bytes: usize) -> Result<(), Refusal>
    ensures { result ≡ check_rows (page_refusals account bytes) }
{
    check_account(account)?;
    refuse_if(bytes < PAGE, Refusal::PageBufferShort)
}

// Lines 1 to 7.
fn head_rows(account: ShownAccount, figures: StatementReply) -> [[u8; LINE]; HEAD]
    ensures { result ≡ head_rows account.number figures }
{
    [
        account_row(account),
        blank_row(),
        figure_row(figures.arrears),
        figure_row(figures.credit),
        figure_row(figures.deposit),
        figure_row(figures.held),
        blank_row(),
    ]
}

// The lines of an account's newest entries, and blank lines where there are fewer.
fn entry_rows(book: &Book, account: u16) -> [[u8; LINE]; ENTRIES_SHOWN]
    ensures { result ≡ entry_rows entries_shown (entry_lines_of (walk_at book.now account)) }
{
    let mut rows = [blank_row(); ENTRIES_SHOWN];
    let chain = book.chain(book.account(account).newest);
    for (i, link) in chain.take(ENTRIES_SHOWN).enumerate() {
        rows[i] = entry_row(link);
    }
    rows
}

// All lines: the last is blank.
fn page_rows(book: &Book, account: ShownAccount) -> [[u8; LINE]; LINES]
    ensures { result ≡ page_rows account.number (statement_of book.now account.number 0) (entry_lines_of (walk_at book.now account.number)) }
{
    let mut rows = [blank_row(); LINES];
    let figures = statement(book, account.number, 0);
    rows[..HEAD].copy_from_slice(&head_rows(account, figures.into()));
    rows[HEAD..LINES - 1].copy_from_slice(&entry_rows(book, account.number));
    rows
}

// Writes the page of an account at the start of a buffer that has room for it (23).
#[tactic(auto, using(crate::proofs::Pages::is_known, crate::proofs::Pages::has_room))]
pub fn page(book: &Book, account: u16, buf: &mut [u8]) -> PageAnswer
    ensures { page_exit_of result buf.new ≡ page_of book.now account buf.old }
{
    check_page(account, buf.len())?;
    let shown = ShownAccount { number: account };
    buf[..PAGE].copy_from_slice(page_rows(book, shown).as_flattened());
    Ok(PAGE)
}
