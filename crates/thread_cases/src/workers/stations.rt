//! Replicas, each under its lock.

ghost use Rattle.std.specs.Prelude.{◌≡◌, ◌<◌, map};
ghost use Rattle.std.specs.List.{range_with_len};
ghost use Rattle.ids.specs.Sizes.{replicas};
ghost use Rattle.marks.specs.Eyes.{first_eye};

use fabric::WaitingRoom;
use ids::{Config, Fault, ReplicaId};
use locked_replica::{Kept, Locked, Share};
use marks::{Eye, Marks};
use replica::Archived;
use simulated_keys::replica_keyring_of;
use std::alloc::Global;
use std::hash::RandomState;
use std::ops::Range;
use std::sync::Mutex;

/// A replica under its lock.
#[derive(Drop)]
pub(crate) struct Station<'a> {
    pub(crate) number: ReplicaId,
    pub(crate) locked: Locked<'a>,
    /// Where the frames of its link wait.
    pub(crate) room: WaitingRoom,
    /// The shares of its two workers, while they don't work.
    pub(crate) shares: Mutex<Vec<Share>>,
}

/// A replica that has made no step.
fn new_kept<'a>(
    alloc: Global,
    config: Config,
    number: ReplicaId,
    eye: Eye,
    marks: &'a Marks,
    hasher: RandomState,
) -> Result<Kept<'a>, Fault>
    requires eye { eye ≡ first_eye marks.now number }
    requires number { number < marks.now.words }
{
    let keyring = replica_keyring_of(alloc, config, number)?;
    let replica = Archived::new(alloc, config, number, keyring, hasher)?;
    Ok(Kept::new(alloc, replica, eye, marks))
}

/// A share for each of two workers.
fn two_shares(alloc: Global, kept: &mut Kept<'_>) -> Result<Vec<Share>, Fault> {
    let mut shares = Vec::with_capacity(alloc, 2)?;
    for _ in 0..2 {
        shares.push(kept.share()?)?;
    }
    Ok(shares)
}

/// A value with what a call gave; where the call was refused, the value is dropped.
fn beside<T: Drop, U>(value: T, given: Result<U, Fault>) -> Result<(T, U), Fault> {
    match given {
        Ok(given) => Ok((value, given)),
        Err(fault) => Err(fault),
    }
}

/// The station of a replica that has made no step.
fn make_station<'a>(
    alloc: Global,
    config: Config,
    number: ReplicaId,
    eye: Eye,
    marks: &'a Marks,
    hasher: RandomState,
) -> Result<Station<'a>, Fault>
    requires eye { eye ≡ first_eye marks.now number }
    requires number { number < marks.now.words }
{
    let mut kept = new_kept(alloc, config, number, eye, marks, hasher)?;
    let shares = two_shares(alloc, &mut kept);
    let (kept, shares) = beside(kept, shares)?;
    Ok(Station {
        number,
        locked: Mutex::new(kept),
        room: WaitingRoom::new(alloc, config, 2),
        shares: Mutex::new(shares),
    })
}

/// The stations of those replicas that are wanted, by number.
pub(crate) fn stations<'a>(
    alloc: Global,
    config: Config,
    marks: &'a Marks,
    owners: Vec<Eye>,
    wanted: Range<u8>,
    hasher: RandomState,
) -> Result<Vec<Station<'a>>, Fault>
    requires words { marks.now.words ≡ replicas config }
    requires owners { owners.items ≡ map (first_eye marks.now) (range_with_len 0 marks.now.words) }
{
    let mut stations = Vec::new(alloc);
    let _replicas = config.n();
    for (i, eye) in owners.into_iter().enumerate() {
        let number = i as u8;
        if wanted.contains(&number) {
            stations.push(make_station(alloc, config, ReplicaId(number), eye, marks, hasher)?)?;
        }
    }
    Ok(stations)
}
