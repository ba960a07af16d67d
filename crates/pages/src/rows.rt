// The lines of a page, each 80 columns closed by a newline.
ghost use Rattle.std.specs.Prelude.{◌+◌, ◌<◌, ◌≡◌, length};
ghost use Rattle.pages.specs.Rows.{line_bytes, blank_row, account_row, figure_row, entry_row};
ghost use Rattle.pages.specs.Pages.{entry_line_of};

use crate::shown_amount;
use buffers::Text;
use changes::Link;
use decimal::{COLUMNS, amount, number};

// The bytes of a line.
pub const LINE: usize = COLUMNS + 1;

type Row = Text<LINE>;

// An account whose number has at most three digits.
#[derive(Clone, Copy)]
pub struct ShownAccount {
    pub number: u16,
    pub ghost three_digits: { number < 1000 },
}

// The bytes of a full line.
fn whole(row: &Row) -> [u8; LINE]
    requires { length row.now ≡ line_bytes }
    ensures { result ≡ row.now }
{
    let mut bytes = [0; LINE];
    bytes.copy_from_slice(row.as_slice());
    bytes
}

#[tactic(auto, unfolding(crate::specs::Rows::blank_row, decimal::specs::Decimal::right))]
pub fn blank_row() -> [u8; LINE]
    ensures { result ≡ blank_row }
{
    let mut row = [b' '; LINE];
    row[COLUMNS] = b'\n';
    row
}

// The account in columns 1 to 3.
#[tactic(auto, unfolding(crate::specs::Rows::account_row, decimal::specs::Decimal::right))]
pub fn account_row(account: ShownAccount) -> [u8; LINE]
    ensures { result ≡ account_row account.number }
{
    let mut row = Row::new();
    row.push(number(u64::from(account.number)).last(3));
    row.push(&[b' '; 77]);
    row.push(b"\n");
    whole(&row)
}

// An amount, to column 80.
#[tactic(auto, unfolding(crate::specs::Rows::figure_row))]
pub fn figure_row(cents: u64) -> [u8; LINE]
    ensures { result ≡ figure_row cents }
{
    let mut row = Row::new();
    row.push(amount(cents).last(COLUMNS));
    row.push(b"\n");
    whole(&row)
}

// An entry: its number, which is its place counted from 1, to column 4, its day to 10, kind to 13 and amount to 80.
#[tactic(auto, unfolding(crate::specs::Rows::entry_row))]
pub fn entry_row(link: Link) -> [u8; LINE]
    requires { link.place < 9999 }
    ensures { result ≡ entry_row (entry_line_of (link.place + 1) link.entry) }
{
    let Link { place, entry } = link;
    let kind = u8::from(entry.data.particulars().kind);
    let mut row = Row::new();
    row.push(number(place as u64 + 1).last(4));
    row.push(number(u64::from(entry.day.0)).last(6));
    row.push(number(u64::from(kind)).last(3));
    row.push(amount(shown_amount(entry)).last(67));
    row.push(b"\n");
    whole(&row)
}
