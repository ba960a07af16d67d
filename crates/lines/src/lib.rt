// The statement printer's lines.
#![tactic(auto)]

ghost use Rattle.std.specs.Prelude.{◌+◌, ◌*◌, ◌<◌, ◌≡◌, length};
ghost use Rattle.lines.specs.Lines.{longest_line, line_of, account_line, end_line, refused_line};

use buffers::Text;
use decimal::number;

// No line is longer: `longest_line`.
pub const LONGEST_LINE: usize = 128;

pub type Line = Text<LONGEST_LINE>;

// A word and numbers, one space between, and the end of the line.
#[tactic(auto, unfolding(crate::specs::Lines::line_of))]
fn line(word: &[u8], numbers: &[u64]) -> Line
    requires { length word.now + 21 * length numbers.now < longest_line }
    ensures { result ≡ line_of word.now numbers.now }
{
    let mut line = Line::new();
    line.push(word);
    for &n in numbers {
        line.push(b" ");
        line.push(number(n).text());
    }
    line.push(b"\n");
    line
}

// Account, arrears, credit, deposit held, held.
pub fn account_line(account: u16, arrears: u64, credit: u64, deposit: u64, held: u64) -> Line
    ensures { result ≡ account_line account arrears credit deposit held }
{
    line(
        number(u64::from(account)).text(),
        &[arrears, credit, deposit, held],
    )
}

// `end` and the count.
pub fn end_line(count: u64) -> Line
    ensures { result ≡ end_line count }
{
    line(b"end", &[count])
}

// `refused`, the refusal's number and the record at fault.
pub fn refused_line(number: u64, record: u64) -> Line
    ensures { result ≡ refused_line number «record» }
{
    line(b"refused", &[number, record])
}
