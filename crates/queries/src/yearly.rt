// The totals of a calendar year.
ghost use Rattle.std.specs.Prelude.{◌≡◌};
ghost use Rattle.years.specs.Years.{totals_of};

use book::Book;
use years::Year;

// What the entries of a calendar year come to, as the book keeps it; a year before 2000 or after 2099 reads zero.
pub fn year_totals(book: &Book, year: u16) -> Year
    ensures { result ≡ totals_of book.now.years year }
{
    book.years.totals(year)
}
