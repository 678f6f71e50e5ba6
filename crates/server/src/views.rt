//! Views that passed.

ghost use Rattle.std.specs.Prelude.{◌≡◌, ◌&&◌, nat_le, nat_lt};

use ids::View;
use log::{Log, info};
use station::Station;
use std::sync::Wait;
use tuning::WARNING_PAUSE_SECONDS;

/// Which view was told of last, and from which second on the next may be told of.
#[derive(Clone, Copy)]
pub(crate) struct Views {
    told: View,
    again: u64,
}

/// Whether it is to be told that the foremost replica is in this view, in this second.
fn is_due(views: Views, view: View, second: u64) -> bool
    ensures { result ≡ (nat_lt views.told view && nat_le views.again second) }
{
    views.told.0 < view.0 && views.again <= second
}

/// The view of the foremost replica.
fn foremost<R: Wait>(rt: &R, stations: &[Station<'_>]) -> View {
    let mut view = View(0);
    for station in stations {
        view = View(view.0.max(station.progress(rt).view.0));
    }
    view
}

/// How many replicas left this view, or a later one, by their clocks.
fn by_clocks(stations: &[Station<'_>], since: View) -> usize {
    stations
        .iter()
        .filter(|station| station.left_by_clock(since))
        .count()
}

impl Views {
    /// View 0 goes on.
    pub(crate) fn none() -> Views {
        Views {
            told: View(0),
            again: 0,
        }
    }

    /// Looks at all replicas, in this second. Tells where views passed since the last one that was told of, once a minute
    /// at most, and why: by how many replicas' clocks.
    pub(crate) fn look<R: Wait + Log>(&mut self, rt: &R, stations: &[Station<'_>], second: u64) {
        let view = foremost(rt, stations);
        if !is_due(*self, view, second) {
            return;
        }
        let (before, clocks) = (self.told.0, by_clocks(stations, self.told));
        let (n, now) = (stations.len(), view.0);
        info!(rt; "view {now} goes on, and {before} has passed: {clocks} of {n} replicas found it slow by their clocks, \
            announcements moved the others");
        *self = Views {
            told: view,
            again: second.saturating_add(WARNING_PAUSE_SECONDS),
        };
    }
}
