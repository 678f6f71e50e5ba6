//! Which timeouts move a replica on.

use crate::workers::stations::{Station, stations};
use anyhow::{Result, bail};
use fabric::{Inbox, Links, Worker};
use ids::{Config, ReplicaId, View};
use locked_replica::Share;
use marks::{Marks, Watcher};
use signed_frames::WorkerKeyring;
use simulated_keys::replica_keyring_of;
use std::alloc::Global;
use std::hash::RandomState;
use std::random::RandomSource;
use std::sync::Wait;
use std::time::Clock;
use turns::Open;

/// The views whose timeouts are handed in: the second of view 0 is late, and view 7 isn't reached.
const VIEWS: [u64; 5] = [0, 0, 7, 1, 0];

/// Hands in the timeouts at the link of replica 0, and then a stop.
fn hand_in<R: Wait>(rt: &R, inbox: &Inbox) -> Result<()> {
    for view in VIEWS {
        if inbox.timeout(rt, View(view)).is_err() {
            bail!("a timeout is lost");
        }
    }
    inbox.stop(rt);
    Ok(())
}

/// Works at a station with this share until it is told to stop.
fn work<R: Wait + Clock>(
    rt: &R,
    alloc: Global,
    links: &Links,
    inbox: &Inbox,
    station: &Station<'_>,
    share: Share,
) -> Result<Share> {
    let keyring = WorkerKeyring::new(replica_keyring_of(alloc, links.config(), station.number)?);
    let worker = Worker::new(alloc, keyring, &Open, inbox, links, &station.room);
    let mut below = &station.locked;
    Ok(worker.run(rt, &mut below, share))
}

/// How many steps a worker of this station makes, and the view that its replica is in then.
fn tell<R: Wait + Clock>(
    rt: &R,
    alloc: Global,
    links: &Links,
    inbox: &Inbox,
    station: &Station<'_>,
) -> Result<String> {
    let Some(share) = station.shares.lock(rt).pop() else {
        bail!("no share of the replica");
    };
    let steps = work(rt, alloc, links, inbox, station, share)?.count();
    let view = station.locked.lock(rt).replica().replica().view();
    Ok(format!(in alloc; "steps {steps}, view {}", view.0)?)
}

/// What comes of the timeouts at a new replica 0.
fn play_at<R: Wait + Clock>(
    rt: &R,
    alloc: Global,
    links: &Links,
    inbox: &Inbox,
    hasher: RandomState,
) -> Result<String> {
    let config = links.config();
    let (marks, mut eyes) = Marks::new(alloc, config.n())?;
    let _watcher = Watcher::new(&marks, config.n(), &mut eyes);
    let stations = stations(alloc, config, &marks, eyes, 0..1, hasher)?;
    match stations.first() {
        Some(station) => tell(rt, alloc, links, inbox, station),
        None => bail!("no replica 0"),
    }
}

/// A worker of replica 0 takes the timeouts.
pub(crate) fn play<R: Wait + Clock + RandomSource>(rt: &R, alloc: Global) -> Result<String> {
    let hasher = RandomState::new(rt)?;
    let (links, ends) = Links::new(alloc, Config::new(1, 2)?)?;
    let Some(inbox) = ends.replicas.first() else {
        bail!("no link of replica 0");
    };
    hand_in(rt, inbox)?;
    play_at(rt, alloc, &links, inbox, hasher)
}
