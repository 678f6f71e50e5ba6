//! Peers that ask at other sizes.

ghost use Rattle.std.specs.Prelude.{◌≡◌, Some, None};
ghost use Rattle.outbox.specs.Waiting.{counted};

use ids::PartyId;

/// What is known of peers that asked at other sizes, and showed by their key who they are.
#[derive(Clone, Copy, Debug, PartialEq, Eq)]
pub struct OtherSizes {
    /// How often one did. At 2^64 - 1 the number stays.
    pub asks: u64,
    /// Which one did last.
    pub last: Option<PartyId>,
}

impl OtherSizes {
    /// None did.
    pub(crate) fn none() -> OtherSizes
        ensures { result ≡ record { asks = 0; last = None } }
    {
        OtherSizes {
            asks: 0,
            last: None,
        }
    }

    /// This one did, too.
    pub(crate) fn note(&mut self, peer: PartyId)
        ensures { self.new ≡ record { asks = counted self.old.asks 1; last = Some peer } }
    {
        self.asks = self.asks.saturating_add(1);
        self.last = Some(peer);
    }
}
