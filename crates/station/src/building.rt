//! How stations are made: replicas that have made no step, and their workers.

ghost use Rattle.std.specs.Prelude.{◌≡◌, ◌-◌, ◌<◌, ◌⊎◌, ◌^◌, map, option_map, unwrap_or, All, Err, IfOk, OnErr, vec_len, false};
ghost use Rattle.ids.specs.declared.fault.Fault.TheVariants.{Memory, NoSuchParty};
ghost use Rattle.key_file.specs.KeyFile.{keys_of_party};
ghost use Rattle.liars.specs.Lying.{new_lying};
ghost use Rattle.station.specs.Keeping.{keep};
ghost use Rattle.station.specs.Stations.{AllKeep, fresh, numbers_of, shared};
ghost use Rattle.station.specs.Workers.{AllLieBy, LieFrom, lie_by, liar_at, worker_count};
ghost use Rattle.std.specs.List.{range_with_len};
ghost use Rattle.ids.specs.Sizes.{replicas};
ghost use Rattle.marks.specs.Eyes.{first_eye};

use crate::beside::Beside;
use crate::comeback::Comeback;
use crate::doubts::Doubts;
use crate::forerunners::Forerunners;
use crate::guarded::Guarded;
use crate::left_out::LeftOut;
use crate::lying::LiarStart;
use crate::passed_over::PassedOver;
use crate::recorder::Recorder;
use crate::station::Station;
use crate::terms::{Liars, Terms};
use crate::trouble::TroubleSign;
use crate::worker::WorkerStart;
use asking::Questions;
use authenticators::ReplicaKeyring;
use doorkeeper::Doorkeeper;
use fabric::{Inbox, WaitingRoom};
use ids::{Fault, ReplicaId};
use key_file::PairKeys;
use liars::Lying;
use locked_replica::{Kept, Share};
use marks::{Eye, Marks};
use replica::Archived;
use signed_frames::WorkerKeyring;
use std::alloc::{AllocError, Global};
use std::hash::RandomState;
use std::sync::atomic::{AtomicBool, AtomicU64};
use std::sync::{Arc, Mutex};

/// What a worker of a replica begins to lie with.
fn liar_start(
    alloc: Global,
    keyring: &ReplicaKeyring,
    liars: Liars,
) -> Result<LiarStart, AllocError>
    ensures { IfOk result (λ start. (start.lying ≡ new_lying liars.liar keyring.now) × (start.until ≡ liars.until)) }
{
    let lying = Lying::new(alloc, keyring.duplicate(alloc)?, liars.liar);
    let until = liars.until;
    Ok(LiarStart {
        alloc,
        lying,
        until,
        beside: Beside::of(liars.liar),
    })
}

/// A worker of a replica with these keys. What the replica and its other workers found to be right it knows.
fn new_worker(
    alloc: Global,
    keyring: &ReplicaKeyring,
    liars: Option<Liars>,
) -> Result<WorkerStart, AllocError>
    ensures { IfOk result (λ worker. worker.lie ≡ option_map lie_by liars) }
{
    let liar = match liars {
        None => None,
        Some(liars) => Some(liar_start(alloc, keyring, liars)?),
    };
    Ok(WorkerStart {
        keyring: WorkerKeyring::new(keyring.duplicate(alloc)?),
        liar,
    })
}

/// A replica with these keys that has made no step.
fn new_kept<'a>(
    alloc: Global,
    keyring: &ReplicaKeyring,
    eye: Eye,
    marks: &'a Marks,
    hasher: RandomState,
) -> Result<Kept<'a>, Fault>
    requires words { marks.now.words ≡ replicas keyring.now.sizes }
    requires eye { eye ≡ first_eye marks.now keyring.now.party }
    ensures made { IfOk result (λ kept. kept ≡ fresh keyring.now eye) }
    ensures memory { OnErr result (result ≡ Err Memory) }
{
    let (config, number) = (keyring.config(), keyring.replica());
    let own = keyring.duplicate(alloc)?;
    let replica = Archived::new(alloc, config, number, own, hasher)?;
    Ok(Kept::new(alloc, replica, eye, marks))
}

/// The workers of a replica with these keys: as many as the terms say.
fn new_workers(
    alloc: Global,
    keyring: &ReplicaKeyring,
    terms: &Terms,
) -> Result<Vec<WorkerStart>, AllocError>
    ensures count { IfOk result (λ workers. vec_len workers ≡ worker_count terms.now.workers) }
    ensures lies { IfOk result
        (λ workers. AllLieBy (liar_at terms.now.liars keyring.now.party) workers.items) }
{
    let (count, liars) = (terms.workers.count(), terms.liar_of(keyring.replica()));
    let mut workers = Vec::with_capacity(alloc, count)?;
    for _ in 0..count {
        workers.push_reserved(new_worker(alloc, keyring, liars)?);
    }
    Ok(workers)
}

/// So many shares more of a kept replica.
fn new_shares(alloc: Global, kept: &mut Kept<'_>, count: usize) -> Result<Vec<Share>, Fault>
    ensures count { IfOk result (λ shares. vec_len shares ≡ count) }
    ensures shared { IfOk result (λ shares. kept.new ≡ shared count kept.old) }
    ensures memory { OnErr result (result ≡ Err Memory) }
{
    let mut shares = Vec::with_capacity(alloc, count)?;
    for _ in 0..count {
        shares.push_reserved(kept.share()?);
    }
    Ok(shares)
}

/// What is to stand under the lock of a replica that has made no step, and a share of it for each worker.
fn new_guarded<'a>(
    alloc: Global,
    keyring: &ReplicaKeyring,
    eye: Eye,
    marks: &'a Marks,
    terms: &Terms,
) -> Result<(Guarded<'a>, Vec<Share>), Fault>
    requires words { marks.now.words ≡ replicas keyring.now.sizes }
    requires eye { eye ≡ first_eye marks.now keyring.now.party }
    ensures kept { IfOk result (λ made.
        made.0.kept ≡ shared (worker_count terms.now.workers) (fresh keyring.now eye)) }
    ensures room { IfOk result (λ made. made.0.most_blocks ≡ unwrap_or terms.now.blocks (2 ^ 64 - 1)) }
    ensures out { IfOk result (λ made. made.0.is_out ≡ false) }
    ensures count { IfOk result (λ made. vec_len made.1 ≡ worker_count terms.now.workers) }
    ensures memory { OnErr result (result ≡ Err Memory) }
{
    let mut kept = new_kept(alloc, keyring, eye, marks, terms.hasher)?;
    let shares = new_shares(alloc, &mut kept, terms.workers.count())?;
    let guarded = Guarded {
        kept,
        door: Doorkeeper::new(alloc, keyring.config()),
        most_blocks: terms.most_blocks(),
        is_out: false,
        questions: Questions::new(alloc, keyring.config()),
    };
    Ok((guarded, shares))
}

/// The station of a replica that has made no step, and its workers. `Memory` is its one refusal.
pub fn build_station<'a>(
    alloc: Global,
    keyring: &ReplicaKeyring,
    eye: Eye,
    marks: &'a Marks,
    inbox: Arc<Inbox>,
    terms: &Terms,
) -> Result<(Station<'a>, Vec<WorkerStart>), Fault>
    requires words { marks.now.words ≡ replicas keyring.now.sizes }
    requires eye { eye ≡ first_eye marks.now keyring.now.party }
    ensures count { IfOk result (λ made. vec_len made.1 ≡ worker_count terms.now.workers) }
    ensures lies { IfOk result
        (λ made. AllLieBy (liar_at terms.now.liars keyring.now.party) made.1.items) }
    ensures number { IfOk result (λ made. made.0.number ≡ keyring.now.party) }
    ensures keep { IfOk result (λ made. made.0.keep ≡ keep terms.now keyring.now.sizes) }
    ensures memory { OnErr result (result ≡ Err Memory) }
{
    let (config, number) = (keyring.config(), keyring.replica());
    let (guarded, shares) = new_guarded(alloc, keyring, eye, marks, terms)?;
    let workers = new_workers(alloc, keyring, terms)?;
    let station = Station {
        number,
        locked: Mutex::new(guarded),
        shares: Mutex::new(shares),
        keep: terms.keep(config),
        patience: terms.patience,
        ended: AtomicU64::new(0),
        alone: AtomicBool::new(false),
        held: AtomicU64::new(0),
        doubts: Doubts::none(),
        trouble: TroubleSign::none(),
        passed_over: PassedOver::none(config),
        left_out: LeftOut::none(alloc, config)?,
        forerunners: Forerunners::none(terms.patience),
        recorder: Recorder::new(alloc, config, terms.record)?,
        comeback: Comeback::none(config, number),
        late: terms.late_of(config, number),
        inbox,
        room: WaitingRoom::new(alloc, config, terms.workers.count()),
    };
    Ok((station, workers))
}

/// The keyring of a replica that the deployment has. `Memory` is its one refusal.
fn keyring_of(alloc: Global, keys: &PairKeys, number: ReplicaId) -> Result<ReplicaKeyring, Fault>
    requires { number < replicas keys.now.sizes }
    ensures made { IfOk result (λ keyring. keyring ≡ keys_of_party keys.now number) }
    ensures memory { OnErr result (result ≡ Err Memory) }
{
    keys.replica_keyring(alloc, number)
}

/// The station of the keyring's replica, and its workers. What they find to be right, all of them remember.
fn station_by<'a>(
    alloc: Global,
    keyring: ReplicaKeyring,
    eye: Eye,
    marks: &'a Marks,
    inbox: Arc<Inbox>,
    terms: &Terms,
) -> Result<(Station<'a>, Vec<WorkerStart>), Fault>
    requires words { marks.now.words ≡ replicas keyring.sizes }
    requires eye { eye ≡ first_eye marks.now keyring.party }
    ensures count { IfOk result (λ made. vec_len made.1 ≡ worker_count terms.now.workers) }
    ensures lies { IfOk result
        (λ made. AllLieBy (liar_at terms.now.liars keyring.party) made.1.items) }
    ensures number { IfOk result (λ made. made.0.number ≡ keyring.party) }
    ensures keep { IfOk result (λ made. made.0.keep ≡ keep terms.now keyring.sizes) }
    ensures memory { OnErr result (result ≡ Err Memory) }
{
    let keyring = keyring.remembering(alloc)?;
    build_station(alloc, &keyring, eye, marks, inbox, terms)
}

/// A station for each word of the marks, with the eye that owns it, and the workers of each.
pub fn stations<'a>(
    alloc: Global,
    keys: &PairKeys,
    marks: &'a Marks,
    owners: Vec<Eye>,
    ends: Vec<Arc<Inbox>>,
    terms: &Terms,
) -> Result<(Vec<Station<'a>>, Vec<Vec<WorkerStart>>), Fault>
    requires words { marks.now.words ≡ replicas keys.now.sizes }
    requires owners { owners.items ≡ map (first_eye marks.now) (range_with_len 0 marks.now.words) }
    ensures numbers { IfOk result (λ made. numbers_of made.0.items ≡ range_with_len 0 (replicas keys.now.sizes)) }
    ensures keep { IfOk result (λ made. AllKeep (keep terms.now keys.now.sizes) made.0.items) }
    ensures count { IfOk result (λ made. vec_len made.0 ≡ replicas keys.now.sizes) }
    ensures workers { IfOk result
        (λ made. All (λ workers. vec_len workers ≡ worker_count terms.now.workers) made.1.items) }
    ensures lies { IfOk result (λ made. LieFrom terms.now.liars 0 made.1.items) }
    ensures both { IfOk result (λ made. vec_len made.0 ≡ vec_len made.1) }
    ensures refused { OnErr result ((result ≡ Err Memory) ⊎ (result ≡ Err NoSuchParty)) }
{
    let mut ends = ends.into_iter();
    let mut stations = Vec::new(alloc);
    let mut workers = Vec::new(alloc);
    for (number, eye) in owners.into_iter().enumerate() {
        let (Ok(number), Some(inbox)) = (u8::try_from(number), ends.next()) else {
            return Err(Fault::NoSuchParty);
        };
        stations.reserve(1)?;
        workers.reserve(1)?;
        let keyring = keyring_of(alloc, keys, ReplicaId(number))?;
        let (station, its_own) = station_by(alloc, keyring, eye, marks, inbox, terms)?;
        stations.push_reserved(station);
        workers.push_reserved(its_own);
    }
    Ok((stations, workers))
}
