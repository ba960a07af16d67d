// The payments that a reduction counts.
ghost use Rattle.std.specs.Prelude.{◌≡◌};
ghost use Rattle.rules.specs.Windows.{in_window, paid_within};

use entries::{Entry, Kind};
use measures::Cents;

// The days in which payments count for a reduction; its own day is the last.
const WINDOW_DAYS: u16 = 365;

// Whether a payment of a day counts for a reduction of another.
fn in_window(dated: u16, day: u16) -> bool
    ensures { result ≡ in_window dated day }
{
    dated <= day && u32::from(day) < u32::from(dated) + u32::from(WINDOW_DAYS)
}

// What an entry counts for a reduction of a day: the standing amount of a payment dated in its window, and else 0.
#[tactic(auto, unfolding(crate::specs::Windows::paid_within, entries::specs::Data::standing_if))]
pub fn paid_within(entry: Entry, day: u16) -> Cents
    ensures { result ≡ paid_within entry day }
{
    let particulars = entry.data.particulars();
    let counts = particulars.kind == Kind::Payment && in_window(entry.day.0, day);
    particulars.standing_if(counts)
}
