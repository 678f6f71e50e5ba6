//! What a replica's process tells others and its log.

use crate::wire_post::WirePost;
use ids::{Config, PartyId, ReplicaId};
use letters::Progress;
use log::{Log, info, warn};
use marks::Watcher;
use station::{Seen, Station};
use std::sync::Wait;
use std::sync::atomic::AtomicBool;
use std::sync::atomic::Ordering::SeqCst;
use std::thread;
use std::time::{Clock, Duration};
use tuning::{TELL_MILLIS, WARNING_PAUSE_SECONDS};
use wires::{SizeWarning, Wires};

/// How far a replica is, as others are told.
fn progress_of<R: Wait>(rt: &R, station: &Station<'_>) -> Progress {
    let progress = station.progress(rt);
    Progress {
        height: progress.height,
        horizon: progress.horizon,
        recorded: station.recorded(rt),
        view: progress.view,
        goes_on: progress.goes_on,
        is_away: progress.is_away,
    }
}

/// How many other replicas a replica has wires to.
fn linked<R: Wait>(rt: &R, wires: &Wires, config: Config, own: ReplicaId) -> usize {
    (0..config.n())
        .filter(|number| *number != own.0 && wires.is_linked(rt, PartyId::from(ReplicaId(*number))))
        .count()
}

/// What tells of a replica.
#[derive(Drop)]
pub(crate) struct Teller<'a, 's, 'm> {
    station: &'a Station<'s>,
    wires: &'a Wires,
    post: &'a WirePost<'a>,
    watcher: Watcher<'m>,
    /// How many commands were executed at the last line.
    executed: u64,
    /// How it got on a second ago.
    seen: Seen,
    /// From which second on a second life may be told of, and a doubt.
    again: u64,
    doubted_again: u64,
    sizes: SizeWarning,
}

impl<'a, 's, 'm> Teller<'a, 's, 'm> {
    /// Who tells of this station.
    pub(crate) fn new(
        station: &'a Station<'s>,
        wires: &'a Wires,
        post: &'a WirePost<'a>,
        watcher: Watcher<'m>,
    ) -> Teller<'a, 's, 'm> {
        Teller {
            station,
            wires,
            post,
            watcher,
            executed: 0,
            seen: Seen::none(),
            again: 0,
            doubted_again: 0,
            sizes: SizeWarning::none(),
        }
    }
}

impl Teller<'_, '_, '_> {
    /// Tells a line of status, so many seconds after the last one.
    fn tell_status<R: Wait + Log>(&mut self, rt: &R, seconds: u64) {
        let (own, config) = (self.station.number(), self.post.config());
        let progress = self.station.progress(rt);
        let executed = self.watcher.executed(own).unwrap_or(0);
        let rate = executed.saturating_sub(self.executed) / seconds.max(1);
        let (view, leader) = (progress.view.0, config.leader(progress.view).0);
        let (height, blocks, pending) = (progress.height.0, progress.blocks, progress.pending);
        let (lost, linked) = (self.post.lost(), linked(rt, self.wires, config, own));
        let others = config.n() - 1;
        info!(rt; "replica {}: {executed} commands, {rate} a second; view {view}, leader r{leader}; height {height}, \
            {blocks} blocks held; {pending} requests pending; {lost} frames lost; {linked} of {others} others linked", own.0);
        self.executed = executed;
    }

    /// Warns where a replica came in a second life, once a minute at most.
    fn tell_lives<R: Log>(&mut self, rt: &R, second: u64) {
        if second < self.again {
            return;
        }
        if let Some(peer) = self.wires.take_other_life() {
            warn!(rt; "replica {} is there twice, or came back without its memory: it is kept out", peer.0);
            self.again = second.saturating_add(WARNING_PAUSE_SECONDS);
        }
    }

    /// What is told once in a second; a line of status each so many, if any.
    fn look<R: Wait + Log>(&mut self, rt: &R, second: u64, each: Option<u64>) {
        self.seen = self
            .seen
            .look(rt, self.station, self.station.progress(rt), false);
        self.doubted_again = self.station.warn_of_doubts(rt, self.doubted_again, second);
        self.tell_lives(rt, second);
        let others = self.wires.other_sizes(rt);
        self.sizes.look(rt, &others, second);
        if let Some(each) = each {
            if second % each.max(1) == 0 {
                self.tell_status(rt, each);
            }
        }
    }

    /// Tells others how far the replica is, and its log each so many seconds, if any, until it is told to stop.
    pub(crate) fn keep<R: Wait + Clock + Log>(
        mut self,
        rt: &R,
        each: Option<u64>,
        stop: &AtomicBool,
    ) {
        let mut times = 0u64;
        for _ in rt.forever() {
            if stop.load(SeqCst) {
                break;
            }
            self.post.tell_all(rt, progress_of(rt, self.station));
            times = times.saturating_add(1);
            if times % (1000 / TELL_MILLIS) == 0 {
                self.look(rt, times / (1000 / TELL_MILLIS), each);
            }
            thread::sleep(rt, Duration::from_millis(TELL_MILLIS));
        }
    }
}
