// An entry that comes in, as the rules read it.
ghost use Rattle.std.specs.Prelude.{◌≡◌};
ghost use Rattle.entries.specs.Kinds.{names_of};
ghost use Rattle.entries.specs.Ranges.{named_fits, in_range_of};
ghost use Rattle.entries.specs.Arrivals.{incoming_of};

use crate::data::Name;
use crate::kinds::Kind;
use crate::raw::Raw;

// An entry as it is given, and the kind by which the rules read it.
#[derive(Clone, Copy)]
pub struct Incoming {
    pub raw: Raw,
    pub kind: Kind,
}

// The kind is that of its number.
impl From<Raw> for Incoming {
    ghost from_gives = { λ raw incoming. incoming ≡ incoming_of raw };

    fn from(raw: Raw) -> Incoming {
        Incoming {
            raw,
            kind: Kind::from(raw.kind),
        }
    }
}

impl Incoming {
    // The named pair is 1 or 2 and 1 or more where the kind names an entry, and else 0 and 0.
    #[tactic(auto, unfolding(crate::specs::Ranges::named_fits, crate::specs::Ranges::between))]
    fn named_fits(self) -> bool
        ensures { result ≡ named_fits self.raw (names_of self.kind) }
    {
        let named = self.raw.named();
        if self.kind.names() {
            (1..=2).contains(&named.node) && 1 <= named.serial
        } else {
            named == Name::default()
        }
    }

    // Whether every field but the common ones is in its kind's range (refusal 5).
    #[tactic(auto, unfolding(crate::specs::Ranges::in_range_of, crate::specs::Ranges::between))]
    pub fn in_range(self) -> bool
        ensures { result ≡ in_range_of self.raw self.kind }
    {
        let limits = self.kind.limits(self.raw.a);
        limits.amount.range().contains(&self.raw.amount)
            && self.named_fits()
            && limits.a.range().contains(&self.raw.a)
            && limits.b.contains(self.raw.b)
    }
}
