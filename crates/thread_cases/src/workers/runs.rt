//! A run of workers in threads.

use crate::workers::fake::Fake;
use crate::workers::seen::Seen;
use crate::workers::stations::{Station, stations};
use bytes::Bytes;
use fabric::{ClientEnd, Ends, Links, Worker};
use frames_view::Frame;
use ids::{ClientId, Config, Fault, ReplicaId};
use locked_replica::Share;
use marks::{Marks, Watcher};
use signed_frames::WorkerKeyring;
use simulated_keys::replica_keyring_of;
use std::alloc::Global;
use std::hash::RandomState;
use std::ops::Range;
use std::sync::Wait;
use std::thread;
use std::thread::Threads;
use std::time::{Clock, Duration};
use turns::Gate;

/// What is left after a run.
#[derive(Drop)]
pub(crate) struct Told {
    /// How many steps the replicas made.
    pub(crate) steps: usize,
    /// How many parcels the links of the replicas still hold, and how many frames came to a client that weren't
    /// replies to it.
    pub(crate) left: usize,
    /// How many replies to each client came to that client.
    pub(crate) replies: [usize; 2],
    /// How far a new eye sees that each replica has executed.
    pub(crate) executed: [u64; 4],
}

/// When a run ends.
#[derive(Clone, Copy)]
pub(crate) enum Until {
    /// So many inputs were brought.
    Inputs(u64),
    /// Each replica has executed something. Replica 0 proposes by itself; once a second it is told
    /// to, in case that a frame was lost. Not more often: where a machine is too busy to certify a
    /// block before the next one is proposed on it, nothing is decided.
    Executed,
}

/// What a run is made of, which its threads share.
#[derive(Drop)]
struct Stage<'a, G> {
    alloc: Global,
    config: Config,
    hasher: RandomState,
    links: &'a Links,
    ends: &'a Ends,
    gate: &'a G,
    seen: &'a Seen,
}

/// How often a run is looked at, at most: for some fifty seconds, since a machine may be busy with
/// other things.
const MOST_LOOKS: u32 = 2500;

/// How far a replica has executed. It is 0 where there is no such replica.
fn executed_at(watcher: &mut Watcher<'_>, number: u8) -> u64 {
    watcher.executed(ReplicaId(number)).unwrap_or(0)
}

/// How far each of four replicas has executed, by number.
fn executed_by(watcher: &mut Watcher<'_>) -> [u64; 4] {
    [
        executed_at(watcher, 0),
        executed_at(watcher, 1),
        executed_at(watcher, 2),
        executed_at(watcher, 3),
    ]
}

/// Whether a run has come to its end, when it is looked at the k-th time.
fn is_over<R: Wait, G>(
    rt: &R,
    stage: &Stage<'_, G>,
    until: Until,
    watcher: &mut Watcher<'_>,
    k: u32,
) -> bool {
    match until {
        Until::Inputs(wanted) => stage.seen.inputs() >= wanted,
        Until::Executed => {
            if k % 50 == 49 {
                let _told = stage.ends.replicas.first().map(|inbox| inbox.beat(rt));
            }
            !executed_by(watcher).contains(&0)
        }
    }
}

/// Hands in the frames, waits until the run is over, and tells all workers to stop.
fn drive<R: Wait + Clock, G>(
    rt: &R,
    stage: &Stage<'_, G>,
    handed: Vec<(ReplicaId, Bytes)>,
    until: Until,
    watcher: &mut Watcher<'_>,
) {
    for (to, frame) in handed {
        let _handed = stage.links.to_replica(rt, to, frame);
    }
    for k in 0..MOST_LOOKS {
        if is_over(rt, stage, until, watcher, k) {
            break;
        }
        thread::sleep(rt, Duration::from_millis(20));
    }
    stop_all(rt, stage.ends);
}

/// Tells all workers to stop.
fn stop_all<R: Wait>(rt: &R, ends: &Ends) {
    for inbox in &ends.replicas {
        inbox.stop(rt);
    }
}

/// Works at a station with this share and keys of its own, until it is told to stop. The share
/// comes back.
fn work<R: Wait + Clock, G: Gate>(
    rt: &R,
    stage: &Stage<'_, G>,
    station: &Station<'_>,
    share: Share,
) -> Share {
    let (alloc, number) = (stage.alloc, station.number);
    let Some(inbox) = stage.ends.replicas.get(usize::from(number.0)) else {
        return share;
    };
    let Ok(keyring) = replica_keyring_of(alloc, stage.config, number) else {
        return share;
    };
    let mut fake = Fake {
        number,
        below: &station.locked,
        seen: stage.seen,
    };
    let worker = Worker::new(
        alloc,
        WorkerKeyring::new(keyring),
        stage.gate,
        inbox,
        stage.links,
        &station.room,
    );
    worker.run(rt, &mut fake, share)
}

/// Works at a station with one of its shares, which is put back at the end.
fn run_worker<R: Wait + Clock, G: Gate>(rt: &R, stage: &Stage<'_, G>, station: &Station<'_>) {
    let share = station.shares.lock(rt).pop();
    if let Some(share) = share {
        let share = work(rt, stage, station, share);
        let _is_back = station.shares.lock(rt).push(share);
    }
}

/// Two threads for each station while the frames are handed in. All have ended when it returns.
fn work_all<R: Threads + Wait + Clock + Sync, G: Gate + Sync>(
    rt: &R,
    stage: &Stage<'_, G>,
    stations: &[Station<'_>],
    handed: Vec<(ReplicaId, Bytes)>,
    until: Until,
    watcher: &mut Watcher<'_>,
) -> Result<(), Fault> {
    thread::scope(thread::scope_env(), rt, |scope| {
        for station in stations {
            let one = scope.spawn(move || run_worker(rt, stage, station));
            let two = scope.spawn(move || run_worker(rt, stage, station));
            if one.is_err() || two.is_err() {
                stop_all(rt, stage.ends);
                return Err(Fault::Memory);
            }
        }
        drive(rt, stage, handed, until, watcher);
        Ok(())
    })
}

/// What was read of a value, which is dropped.
fn read_of<T: Drop>(_value: T, read: usize) -> usize {
    read
}

/// How many steps a replica made, where both its shares have come back.
fn close(station: Station<'_>) -> Result<usize, Fault> {
    let Station {
        number: _,
        locked,
        room: _,
        shares,
    } = station;
    let closed = locked.into_inner().close(shares.into_inner());
    let steps = closed.map(|closed| {
        let steps = closed.replica.replica().steps();
        read_of(closed, steps)
    });
    steps.ok().ok_or(Fault::NotAll)
}

/// Both together, where neither was refused.
fn sum_of(one: Result<usize, Fault>, other: Result<usize, Fault>) -> Result<usize, Fault> {
    Ok(one?.wrapping_add(other?))
}

/// How many steps all replicas made, where their workers could be had.
fn close_all(stations: Vec<Station<'_>>, worked: Result<(), Fault>) -> Result<usize, Fault> {
    let mut steps = worked.map(|()| 0);
    for station in stations {
        steps = sum_of(steps, close(station));
    }
    steps
}

/// How many frames came to a client: replies to it, and others.
#[derive(Clone, Copy)]
struct Came {
    replies: usize,
    others: usize,
}

/// Whether a frame is a reply to this client.
fn is_reply_to(config: &Config, client: ClientId, frame: &[u8]) -> bool {
    match frames_view::read(config, frame) {
        Ok(Frame::Reply(reply)) => reply.client() == client,
        _ => false,
    }
}

/// What came to a client.
fn came_to<R: Wait>(rt: &R, config: &Config, client: ClientId, end: &ClientEnd) -> Came {
    let (mut replies, mut others) = (0usize, 0usize);
    for _ in 0..10_000 {
        let Some(frame) = end.try_recv(rt) else {
            break;
        };
        if is_reply_to(config, client, frame.as_slice()) {
            replies = replies.wrapping_add(1);
        } else {
            others = others.wrapping_add(1);
        }
    }
    Came { replies, others }
}

/// What is left in the links after a run, of which so much was told.
fn look<R: Wait>(
    rt: &R,
    config: &Config,
    ends: &Ends,
    run: Result<(usize, [u64; 4]), Fault>,
) -> Result<Told, Fault> {
    let (steps, executed) = run?;
    let mut told = Told {
        steps,
        left: 0,
        replies: [0; 2],
        executed,
    };
    for end in &ends.replicas {
        told.left = told.left.wrapping_add(end.waiting(rt));
    }
    for number in 0..config.clients() {
        let place = usize::from(number);
        if let Some(end) = ends.clients.get(place) {
            let came = came_to(rt, config, ClientId(number), end);
            told.left = told.left.wrapping_add(came.others);
            if let Some(replies) = told.replies.get_mut(place) {
                *replies = came.replies;
            }
        }
    }
    Ok(told)
}

/// How many steps the stations' replicas made until the run was over, and how far a new eye sees
/// that each has executed.
fn look_on<R: Threads + Wait + Clock + Sync, G: Gate + Sync>(
    rt: &R,
    stage: &Stage<'_, G>,
    mut watcher: Watcher<'_>,
    stations: Vec<Station<'_>>,
    handed: Vec<(ReplicaId, Bytes)>,
    until: Until,
) -> Result<(usize, [u64; 4]), Fault> {
    let worked = work_all(rt, stage, stations.as_slice(), handed, until, &mut watcher);
    let steps = close_all(stations, worked)?;
    let mut another = watcher.another()?;
    Ok((steps, executed_by(&mut another)))
}

/// What `look_on` tells of new replicas.
fn run_at<R: Threads + Wait + Clock + Sync, G: Gate + Sync>(
    rt: &R,
    stage: &Stage<'_, G>,
    replicas: Range<u8>,
    handed: Vec<(ReplicaId, Bytes)>,
    until: Until,
) -> Result<(usize, [u64; 4]), Fault> {
    let (marks, mut eyes) = Marks::new(stage.alloc, stage.config.n())?;
    let watcher = Watcher::new(&marks, stage.config.n(), &mut eyes);
    let stations = stations(
        stage.alloc,
        stage.config,
        &marks,
        eyes,
        replicas,
        stage.hasher,
    )?;
    look_on(rt, stage, watcher, stations, handed, until)
}

/// Two workers for each wanted replica take the frames that are handed in, until the run is over.
pub(crate) fn run<R: Threads + Wait + Clock + Sync, G: Gate + Sync>(
    rt: &R,
    alloc: Global,
    config: Config,
    hasher: RandomState,
    replicas: Range<u8>,
    gate: &G,
    seen: &Seen,
    handed: Vec<(ReplicaId, Bytes)>,
    until: Until,
) -> Result<Told, Fault> {
    let (links, ends) = Links::new(alloc, config)?;
    let stage = Stage {
        alloc,
        config,
        hasher,
        links: &links,
        ends: &ends,
        gate,
        seen,
    };
    look(
        rt,
        &config,
        &ends,
        run_at(rt, &stage, replicas, handed, until),
    )
}
