// Numbers and amounts in decimal, as texts that end in a line's last column.
#![tactic(auto)]

ghost use Rattle.std.specs.Prelude.{◌≤◌, ◌≡◌, ◌++◌, length, take, drop, replicate};
ghost use Rattle.decimal.specs.Decimal.{space, last_digit, digits, dollars, right, line_columns, last_columns};

use std::marker::Model;

// The columns of a line.
pub const COLUMNS: usize = 80;

// A line that ends in a text, spaces before it. A contract sees the text.
#[derive(Clone, Copy)]
pub struct Field {
    columns: [u8; COLUMNS],
    // Where the text starts.
    start: usize,
}

impl Model for Field {
    ghost use Rattle.std.specs.Prelude.{ℕ, List, ◌≡◌, ◌≤◌, ◌-◌, drop, length};
    ghost use Rattle.std.proofs.Common.{sym, arith, length-drop};
    ghost use Rattle.decimal.specs.Decimal.{right, line_columns};

    ghost Value = { List ℕ };

    ghost view = { λ f. drop f.start f.columns };

    ghost inverse = { λ text. record { columns = right line_columns text; start = line_columns - length text } };

    ghost inverse_ok = { λ f h.
        let start : line_columns - length (drop f.start f.columns) ≡ f.start = omega (arith, h, length-drop f.start f.columns) in
        λ i. record { columns = sym h.2 i; start = start i } };

    ghost invariant = { λ f. (f.start ≤ line_columns) × (length f.columns ≡ line_columns) × (f.columns ≡ right line_columns (drop f.start f.columns)) };
}

impl Field {
    pub fn text(&self) -> &[u8]
        ensures { result.now ≡ self.now }
    {
        &self.columns[self.start..]
    }

    // The last so many columns, and all of them where there are no more.
    pub fn last(&self, width: usize) -> &[u8]
        ensures columns { result.now ≡ last_columns width (right line_columns self.now) }
        ensures wide { width ≤ line_columns → length result.now ≡ width }
    {
        &self.columns[COLUMNS.saturating_sub(width)..]
    }
}

fn last_digit(n: u64) -> u8
    ensures { result ≡ last_digit n }
{
    48 + (n % 10) as u8
}

// A number's digits, of which there are at most 20, the last just before a place. The columns before that place are spaces, and those from it
// on stay.
#[tactic(auto, using(crate::proofs::Decimal::left_room))]
fn digits_before(columns: [u8; COLUMNS], end: usize, n: u64) -> Field
    requires { (20 ≤ end) × (end ≤ line_columns) × (take end columns ≡ replicate end space) }
    ensures { result ≡ digits n ++ drop end columns }
{
    let mut columns = columns;
    let mut rest = n;
    for start in (0..end).rev() {
        columns[start] = last_digit(rest);
        rest /= 10;
        if rest == 0 {
            return Field { columns, start };
        }
    }
    unreachable!()
}

// A number, without leading zeros.
pub fn number(n: u64) -> Field
    ensures text { result ≡ digits n }
    ensures short { length result ≤ 20 }
{
    digits_before([b' '; COLUMNS], COLUMNS, n)
}

// An amount in cents as dollars, at least one digit, a point and two digits of cents.
#[tactic(auto, unfolding(crate::specs::Decimal::dollars), using(crate::proofs::Decimal::at_most_twenty_one))]
pub fn amount(cents: u64) -> Field
    ensures text { result ≡ dollars cents }
    ensures short { length result ≤ 21 }
{
    let mut columns = [b' '; COLUMNS];
    // The last three columns are the point and the cents.
    columns[77] = b'.';
    columns[78] = last_digit(cents / 10);
    columns[79] = last_digit(cents);
    digits_before(columns, 77, cents / 100)
}
