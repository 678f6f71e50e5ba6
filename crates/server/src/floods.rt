//! Replicas that send more than links hold.

ghost use Rattle.std.specs.Prelude.{◌≡◌, ◌&&◌, nat_le, nat_lt};

use fabric::Links;
use ids::{MOST_REPLICAS, ReplicaId};
use log::{Log, warn};
use tuning::WARNING_PAUSE_SECONDS;

/// What was told of a replica: how many of its frames were lost by then, how many of them were repeats, and from when on it
/// may be told of again.
#[derive(Clone, Copy)]
pub(crate) struct Warned {
    pub(crate) lost: u64,
    pub(crate) repeated: u64,
    pub(crate) again: u64,
}

/// Whether it is to be told that so many are lost, in this second.
fn is_due(told: Warned, lost: u64, second: u64) -> bool
    ensures { result ≡ (nat_lt told.lost lost && nat_le told.again second) }
{
    told.lost < lost && told.again <= second
}

/// Nothing was told.
const NONE: Warned = Warned {
    lost: 0,
    repeated: 0,
    again: 0,
};

/// Which replicas were told of.
#[derive(Clone, Copy)]
pub(crate) struct Floods {
    told: [Warned; MOST_REPLICAS],
}

impl Floods {
    /// None was.
    pub(crate) fn none() -> Floods {
        Floods {
            told: [NONE; MOST_REPLICAS],
        }
    }

    /// Looks at all replicas, in this second. Warns of each whose frames didn't fit in its share of some link since
    /// it was told of, and not more than once a minute.
    pub(crate) fn look<R: Log>(&mut self, rt: &R, links: &Links, second: u64) {
        for number in 0..links.config().n() {
            let place = usize::from(number);
            if let Some(told) = self.told.get(place).copied() {
                self.told[place] = look_at(rt, links, ReplicaId(number), told, second);
            }
        }
    }
}

/// What is told of a replica by now, of which this was told before.
fn look_at<R: Log>(rt: &R, links: &Links, number: ReplicaId, told: Warned, second: u64) -> Warned {
    let (lost, repeated) = (links.turned_away(number), links.repeated(number));
    if !is_due(told, lost, second) {
        return told;
    }
    let more = lost.saturating_sub(told.lost);
    let repeats = repeated.saturating_sub(told.repeated);
    warn!(rt; "replica {} sends more than links hold: {more} of its frames were lost, {repeats} of them repeats", number.0);
    Warned {
        lost,
        repeated,
        again: second.saturating_add(WARNING_PAUSE_SECONDS),
    }
}
