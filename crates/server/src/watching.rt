//! What is told of a running deployment, each so many seconds.

ghost use Rattle.std.specs.Prelude.{◌≡◌, max};

use crate::doubted::Doubted;
use crate::floods::Floods;
use crate::laggards::Laggards;
use crate::local::Local;
use crate::views::Views;
use ids::{Height, View};
use log::{Log, info};
use marks::Watcher;
use station::Station;
use std::sync::Wait;
use std::sync::atomic::AtomicBool;
use std::sync::atomic::Ordering::SeqCst;
use std::thread;
use std::time::{Clock, Duration};
use tcp_front::Seats;
use tuning::{STATUS_LOOK_MILLIS, STATUS_LOOKS};

/// How far replicas are.
#[derive(Clone, Copy)]
struct Status {
    executed: u64,
    height: Height,
    blocks: usize,
    pending: usize,
    view: View,
}

impl Status {
    /// Nothing was done.
    fn none() -> Status {
        Status {
            executed: 0,
            height: Height(0),
            blocks: 0,
            pending: 0,
            view: View(0),
        }
    }

    /// Of each number the greater.
    fn max(self, other: Status) -> Status
        ensures { result ≡ record {
          executed = max self.executed other.executed;
          height = max self.height other.height;
          blocks = max self.blocks other.blocks;
          pending = max self.pending other.pending;
          view = max self.view other.view;
        } }
    {
        Status {
            executed: self.executed.max(other.executed),
            height: Height(self.height.0.max(other.height.0)),
            blocks: self.blocks.max(other.blocks),
            pending: self.pending.max(other.pending),
            view: View(self.view.0.max(other.view.0)),
        }
    }
}

/// How far the foremost replicas are. How far each has executed is read off its mark.
fn foremost<R: Wait>(rt: &R, stations: &[Station<'_>], watcher: &mut Watcher<'_>) -> Status {
    let mut foremost = Status::none();
    for station in stations {
        let progress = station.progress(rt);
        foremost = foremost.max(Status {
            executed: watcher.executed(station.number()).unwrap_or(0),
            height: progress.height,
            blocks: progress.blocks,
            pending: progress.pending,
            view: progress.view,
        });
    }
    foremost
}

/// What a line is told of.
#[derive(Drop)]
pub(crate) struct Board<'a, 's, 'm, S> {
    pub(crate) stations: &'a [Station<'s>],
    pub(crate) local: &'a Local,
    pub(crate) seats: &'a Seats<S>,
    pub(crate) watcher: Watcher<'m>,
}

impl<'a, 's, 'm, S: Drop> Board<'a, 's, 'm, S> {
    /// Tells one line. So many commands were executed at the last one, so many seconds ago. How many are now.
    fn tell<R: Wait + Log>(&mut self, rt: &R, before: u64, seconds: u64) -> u64 {
        let local = self.local;
        let config = local.config();
        let now = foremost(rt, self.stations, &mut self.watcher);
        let rate = now.executed.saturating_sub(before) / seconds.max(1);
        let (executed, height, blocks) = (now.executed, now.height.0, now.blocks);
        let (view, leader, pending) = (now.view.0, config.leader(now.view).0, now.pending);
        let (open, lost) = (self.seats.taken(), local.links.lost());
        let (going, n) = (local.roll.going(rt), config.n());
        info!(rt; "{executed} commands, {rate} a second; {open} connections; view {view}, leader r{leader}; \
            height {height}, {blocks} blocks held; {pending} requests pending; {lost} frames lost; \
            {going} of {n} replicas go on");
        now.executed
    }

    /// Warns of replicas that fall behind, send too much or refuse what others sent, tells of views that passed, and a line
    /// each so many seconds, if any, until it is told to stop.
    pub(crate) fn keep<R: Wait + Clock + Log>(
        mut self,
        rt: &R,
        seconds: Option<u64>,
        stop: &AtomicBool,
    ) {
        let each = seconds.unwrap_or(u64::MAX).max(1);
        let (mut passed, mut executed) = (0u64, 0);
        let mut laggards = Laggards::none();
        let mut floods = Floods::none();
        let (mut doubted, mut views) = (Doubted::none(), Views::none());
        let local = self.local;
        let links = &local.links;
        for _ in rt.forever() {
            if !sleep_a_second(rt, stop) {
                break;
            }
            passed = passed.saturating_add(1);
            laggards.look(rt, self.stations);
            floods.look(rt, links, passed);
            doubted.look(rt, self.stations, passed);
            views.look(rt, self.stations, passed);
            if passed % each == 0 {
                executed = self.tell(rt, executed, each);
            }
        }
    }
}

/// Sleeps for a second. False where it was told to stop in the meantime.
fn sleep_a_second<R: Wait + Clock>(rt: &R, stop: &AtomicBool) -> bool {
    for _ in 0..STATUS_LOOKS {
        if stop.load(SeqCst) {
            return false;
        }
        thread::sleep(rt, Duration::from_millis(STATUS_LOOK_MILLIS));
    }
    true
}
