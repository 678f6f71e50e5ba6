//! When an operator is told that peers ask at other sizes.

ghost use Rattle.std.specs.Prelude.{◌≡◌};
ghost use Rattle.wires.specs.Telling.{due, looked, told_in, untold};

use crate::other_sizes::OtherSizes;
use ids::PartyId;
use log::{Log, warn};
use std::marker::Model;
use tuning::WARNING_PAUSE_SECONDS;

/// What was told of peers that ask at other sizes: how many asks, and from which second on more may be told.
#[derive(Clone, Copy)]
pub struct SizeWarning {
    asks: u64,
    again: u64,
}

impl Model for SizeWarning {
    ghost use Rattle.wires.specs.Telling as telling;

    ghost Value = { telling.Told };

    ghost view = { λ w. record { asks = w.asks; again = w.again } };

    ghost inverse = { λ t. record { asks = t.asks; again = t.again } };
}

impl SizeWarning {
    /// Nothing was told.
    pub fn none() -> SizeWarning
        ensures { result ≡ untold }
    {
        SizeWarning { asks: 0, again: 0 }
    }

    /// Who is to be told of in this second.
    fn due(&self, known: &OtherSizes, second: u64) -> Option<PartyId>
        ensures { result ≡ due self.now known.now second }
    {
        if self.asks < known.asks && self.again <= second {
            known.last
        } else {
            None
        }
    }

    /// So many asks were told of in this second.
    fn told_in(asks: u64, second: u64) -> SizeWarning
        ensures { result ≡ told_in asks second }
    {
        SizeWarning {
            asks,
            again: second.saturating_add(WARNING_PAUSE_SECONDS),
        }
    }

    /// Has a look at what is known, in this second. Warns where a peer asked at other sizes since it was told, and not more
    /// than once a minute. Named is the last one that did.
    pub fn look<R: Log>(&mut self, rt: &R, known: &OtherSizes, second: u64)
        ensures { self.new ≡ looked self.old known.now second }
    {
        let Some(peer) = self.due(known, second) else {
            return;
        };
        let more = known.asks.saturating_sub(self.asks);
        warn!(rt; "{peer} asks at other sizes, and isn't let in: start all with the same --faults, --clients and \
            --keys-held ({more} such asks)");
        *self = SizeWarning::told_in(known.asks, second);
    }
}
