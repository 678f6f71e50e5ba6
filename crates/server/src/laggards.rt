//! Replicas that have fallen behind what the others keep.

ghost use Rattle.std.specs.Prelude.{◌≡◌, ◌&&◌, ◌==◌};
ghost use Rattle.clock.specs.Pruning as pruning;

use catching_up::is_beyond;
use clock::lacks_next;
use ids::{Height, MOST_REPLICAS, ReplicaId};
use log::Log;
use station::{Progress, Seen, Station};
use std::sync::Wait;

/// Whether a replica has executed nothing since it had come to a height, and lacks the next block where the
/// others have this horizon.
fn is_stuck(reach: &Progress, before: Height, horizon: Height) -> bool
    ensures { result
        ≡ (reach.now.goes_on && (reach.now.height == before) && pruning.lacks_next horizon reach.now.height) }
{
    let stands = reach.height.0 == before.0;
    reach.goes_on && stands && lacks_next(horizon, reach.height)
}

/// The lowest horizon of the replicas at the other stations.
fn lowest_horizon<R: Wait>(rt: &R, stations: &[Station<'_>], but: ReplicaId) -> Height {
    let mut lowest = Height(u64::MAX);
    for station in stations {
        if station.number() != but {
            lowest = Height(lowest.0.min(station.progress(rt).horizon.0));
        }
    }
    lowest
}

/// The lowest heights that the replicas at the other stations recorded.
fn recorded<R: Wait>(rt: &R, stations: &[Station<'_>], but: ReplicaId) -> [Height; MOST_REPLICAS] {
    let mut recorded = [Height(u64::MAX); MOST_REPLICAS];
    for (lowest, station) in recorded.iter_mut().zip(stations) {
        if station.number() != but {
            *lowest = station.recorded(rt);
        }
    }
    recorded
}

/// How replicas were seen to get on.
#[derive(Clone, Copy)]
pub(crate) struct Laggards {
    seen: [Seen; MOST_REPLICAS],
}

impl Laggards {
    /// All with the others.
    pub(crate) fn none() -> Laggards {
        Laggards {
            seen: [Seen::none(); MOST_REPLICAS],
        }
    }

    /// Looks at all replicas, a second after the last look. Warns of each that is stuck now and wasn't when it was looked at
    /// last, and tells of those that catch up, and where one has got on.
    pub(crate) fn look<R: Wait + Log>(&mut self, rt: &R, stations: &[Station<'_>]) {
        for station in stations {
            let place = usize::from(station.number().0);
            if let Some(before) = self.seen.get(place).copied() {
                self.seen[place] = look_at(rt, stations, station, &before);
            }
        }
    }
}

/// Whether a replica that had come to a height is stuck: nobody else keeps the next block that it needs, or recorded it.
fn has_lost<R: Wait>(
    rt: &R,
    stations: &[Station<'_>],
    number: ReplicaId,
    reach: &Progress,
    before: Height,
) -> bool {
    let horizon = lowest_horizon(rt, stations, number);
    is_stuck(reach, before, horizon) && is_beyond(reach.height, &recorded(rt, stations, number))
}

/// What is seen of the replica at a station, of which this was seen before; and tells of it.
fn look_at<R: Wait + Log>(
    rt: &R,
    stations: &[Station<'_>],
    station: &Station<'_>,
    before: &Seen,
) -> Seen {
    let reach = station.progress(rt);
    let is_stuck = has_lost(rt, stations, station.number(), &reach, before.height());
    before.look(rt, station, reach, is_stuck)
}
