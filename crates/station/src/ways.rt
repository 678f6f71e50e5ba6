//! How a replica gets on, and what is told of that.

use crate::station::{Progress, Station};
use ids::Height;
use log::{Log, info, warn};
use tuning::{BEHIND_TOLD_SECONDS, VAIN_SECONDS};

/// How a replica gets on.
#[derive(Clone, Copy, PartialEq, Eq)]
enum Way {
    /// With the others.
    AtOne,
    /// It is far behind, and takes what others recorded.
    CatchesUp,
    /// It is far behind, and what others recorded brought nothing for some time.
    InVain,
    /// None of the others has the next block that it needs any more, and it isn't on its way to it.
    Stuck,
}

/// How a replica was seen to get on, looked at each second.
#[derive(Clone, Copy)]
pub struct Seen {
    height: Height,
    way: Way,
    /// For how many seconds it has been far behind, and executed nothing.
    still: u64,
    /// For how many seconds it has been far behind.
    away: u64,
}

/// How a replica gets on that is far behind or isn't, where nobody keeps what it needs, or some do, and that has been still for so
/// many seconds.
fn way_of(is_away: bool, is_stuck: bool, still: u64) -> Way {
    if is_stuck {
        Way::Stuck
    } else if !is_away {
        Way::AtOne
    } else if still >= VAIN_SECONDS {
        Way::InVain
    } else {
        Way::CatchesUp
    }
}

/// Seconds for which something has gone on, with this one.
fn one_more(seconds: u64, goes_on: bool) -> u64 {
    if goes_on {
        seconds.saturating_add(1)
    } else {
        0
    }
}

impl Seen {
    /// With the others.
    pub fn none() -> Seen {
        Seen {
            height: Height(0),
            way: Way::AtOne,
            still: 0,
            away: 0,
        }
    }

    /// The height that it had executed.
    pub fn height(&self) -> Height {
        self.height
    }

    /// What is seen a second later, where the replica at a station is so far; and tells of it, unless it stopped. Who sees all
    /// replicas knows whether it is stuck, since nobody keeps what it needs.
    pub fn look<R: Log>(
        &self,
        rt: &R,
        station: &Station<'_>,
        reach: Progress,
        is_stuck: bool,
    ) -> Seen {
        let is_still = reach.is_away && reach.height.0 == self.height.0;
        let still = one_more(self.still, is_still);
        let seen = Seen {
            height: reach.height,
            way: way_of(reach.is_away, is_stuck, still),
            still,
            away: one_more(self.away, reach.is_away),
        };
        if reach.goes_on {
            tell(rt, station, self, &seen);
        }
        seen
    }
}

/// Tells of what has changed; and now and then how far one is that catches up.
fn tell<R: Log>(rt: &R, station: &Station<'_>, before: &Seen, now: &Seen) {
    let number = station.number().0;
    if now.way == Way::CatchesUp && before.away % BEHIND_TOLD_SECONDS == 0 {
        let foremost = station.foremost();
        let behind = foremost.0.saturating_sub(now.height.0);
        let rate = now.height.0.saturating_sub(before.height.0);
        info!(rt; "replica {number} is {behind} heights behind, and catches up, {rate} a second");
    }
    if now.way == before.way {
        return;
    }
    match now.way {
        Way::AtOne => info!(rt; "replica {number} goes on again"),
        Way::InVain =>
            warn!(rt; "replica {number} is stuck: what others recorded doesn't bring it on"),
        Way::Stuck =>
            warn!(rt; "replica {number} is stuck: the others have forgotten blocks that it needs"),
        Way::CatchesUp => {}
    }
}
