// How an entry comes in, which the tables of refusals alone read.
ghost use Rattle.std.specs.Prelude.{◌≡◌};
ghost use Rattle.entries.specs.Arrivals.{unknown_to, no_day_for, waits_for};

use crate::kinds::Kind;

#[derive(Clone, Copy, Debug, PartialEq, Eq)]
pub enum Arrival {
    // By a posting or a carry-over, while no late-charge run is open.
    Posted,
    // The same, while one is.
    PostedInRun,
    // As an image's record, or by a run's step.
    Recorded,
}

impl Arrival {
    // 1: the kind is none of those that come in so. A late charge is recorded only.
    pub fn unknown(self, kind: Kind) -> bool
        ensures { result ≡ unknown_to self kind }
    {
        kind == Kind::Unknown || kind == Kind::LateCharge && self != Arrival::Recorded
    }

    // 30: a bill of zero days served is recorded only.
    pub fn no_day(self, kind: Kind, served: u8) -> bool
        ensures { result ≡ no_day_for self kind served }
    {
        kind == Kind::Bill && served == 0 && self != Arrival::Recorded
    }

    // 27: a correction waits for the end of the run.
    pub fn waits(self, kind: Kind) -> bool
        ensures { result ≡ waits_for self kind }
    {
        kind == Kind::Correction && self == Arrival::PostedInRun
    }
}
