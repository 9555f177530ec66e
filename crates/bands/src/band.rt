// A band of rows.
ghost use Rattle.std.specs.Prelude.{◌≡◌};
ghost use Rattle.bands.specs.Band.{cover as cover_of, is_empty};

/// The rows from first up to but not including end; empty is 0, 0.
#[derive(Clone, Copy, Debug, PartialEq, Eq)]
pub struct Band {
    pub first: u16,
    pub end: u16,
}

impl Band {
    /// The band of no rows, as it is written.
    pub const EMPTY: Band = Band { first: 0, end: 0 };

    /// Whether no row is in it.
    pub fn is_empty(self) -> bool
        ensures { result ≡ is_empty self }
    {
        self.end <= self.first
    }
}

/// The smallest band that covers both.
#[tactic(auto, unfolding(crate::specs::Band::cover))]
pub fn cover(a: Band, b: Band) -> Band
    ensures { result ≡ cover_of a b }
{
    if a.is_empty() {
        return b;
    }
    if b.is_empty() {
        return a;
    }
    Band {
        first: a.first.min(b.first),
        end: a.end.max(b.end),
    }
}
