//! What the leader leads from.

ghost use Rattle.std.specs.Prelude.{◌≡◌, ◌==◌, ◌-◌, Some, slice_get, length, IfOk, OnOk};
ghost use Rattle.definitions.specs.Chronicles.{taken_blocks};
ghost use Rattle.definitions.specs.Digests.{digest_of};
ghost use Rattle.recovery.specs.Correct.{chronicle_of, lock_of};
ghost use Rattle.recovery.specs.Healing.{highest_locked, newcomers, over_lock, make_first, lead_with};
ghost use Rattle.healer.specs.Courses.{Goes, GoesWhere, ToldWhere, HasReplica, AreCorrect};
ghost use Rattle.healer.specs.Grounds.{HasWhole};
ghost use Rattle.healer.specs.Locks.{higher_locked};
ghost use Rattle.replica.specs.Locked as kept;

use crate::healer::{Healer, bring_to_each, lock_height};
use frames_view::genesis_digest;
use ids::{Digest, Fault, Height, Kind, ReplicaId};
use replica::Replica;
use world_schedule::Event;

/// The first of two replicas, unless the other one's lock is higher.
fn higher_locked(healer: &Healer<'_>, first: ReplicaId, other: ReplicaId) -> ReplicaId
    ensures { ToldWhere healer.now (λ w. HasReplica first w × HasReplica other w)
        (λ w. result ≡ higher_locked w first other) }
{
    if lock_height(healer, first).0 < lock_height(healer, other).0 {
        other
    } else {
        first
    }
}

/// Of these replicas the first of the highest lock.
pub(crate) fn highest_locked(healer: &Healer<'_>, replicas: &[ReplicaId]) -> ReplicaId
    ensures { ToldWhere healer.now (AreCorrect replicas.now) (λ w. result ≡ highest_locked w replicas.now) }
{
    match replicas.last() {
        Some(last) => highest_from(healer, replicas, *last),
        None => ReplicaId(0),
    }
}

/// The same, where this is the last of them.
fn highest_from(healer: &Healer<'_>, replicas: &[ReplicaId], last: ReplicaId) -> ReplicaId
    requires { Some last ≡ slice_get replicas.now (length replicas.now - 1) }
    ensures { ToldWhere healer.now (AreCorrect replicas.now) (λ w. result ≡ highest_locked w replicas.now) }
{
    let mut best = last;
    for behind in 1..replicas.len() {
        best = higher_locked(healer, replicas[replicas.len() - 1 - behind], best);
    }
    best
}

/// Whether a replica never took a block.
fn is_newcomer(healer: &Healer<'_>, replica: ReplicaId) -> bool
    ensures { ToldWhere healer.now (HasReplica replica)
        (λ w. result ≡ (length (taken_blocks (chronicle_of w replica)) == 0)) }
{
    match healer.replica(replica) {
        Some(replica) => {
            let count = replica.blocks();
            count == 1
        }
        None => false,
    }
}

/// Of these replicas those that never took a block.
fn newcomers(healer: &Healer<'_>, replicas: &[ReplicaId]) -> Result<Vec<ReplicaId>, Fault>
    ensures { IfOk result
        (λ rs. ToldWhere healer.now (AreCorrect replicas.now) (λ w. rs.items ≡ newcomers w replicas.now)) }
{
    let mut found = Vec::new(healer.alloc());
    for replica in replicas {
        if is_newcomer(healer, *replica) {
            found.push(*replica)?;
        }
    }
    Ok(found)
}

/// A certified block that justifies a replica's lock, with its height: genesis, where it took none over such a one.
/// `Pruned` where it has forgotten any block.
fn found_over(replica: &Replica) -> Result<(Digest, Height), Fault>
    ensures { IfOk result (λ x.
        HasWhole replica.now.replica.chronicle x.0 x.1 (kept.over_lock replica.now.replica.chronicle)) }
{
    if replica.horizon().0 > 0 {
        Err(Fault::Pruned)
    } else {
        Ok(replica.over_lock())
    }
}

/// The same of the leader.
pub(crate) fn over_lock(healer: &Healer<'_>, leader: ReplicaId) -> Result<(Digest, Height), Fault>
    ensures { IfOk result (λ x. ToldWhere healer.now (HasReplica leader)
        (λ w. HasWhole (chronicle_of w leader) x.0 x.1 (over_lock leader w))) }
{
    match healer.replica(leader) {
        Some(replica) => found_over(replica),
        None => Ok((genesis_digest(), Height(0))),
    }
}

/// The digest of the block that a replica is locked on.
pub(crate) fn lock_of(healer: &Healer<'_>, replica: ReplicaId) -> Digest
    ensures { ToldWhere healer.now (HasReplica replica) (λ w. result ≡ digest_of (lock_of w replica)) }
{
    match healer.replica(replica) {
        Some(replica) => replica.lock(),
        None => genesis_digest(),
    }
}

/// Genesis has grounds with who took any block. So where genesis justifies a leader's lock, which `over` tells, it makes
/// a block there. That comes to all that never took one, as genesis's certificate is good for all.
pub(crate) fn make_first(
    healer: &mut Healer<'_>,
    correct: &[ReplicaId],
    leader: ReplicaId,
    over: Height,
) -> Result<(), Fault>
    ensures origin { healer.new.origin ≡ healer.old.origin }
    ensures came { OnOk result (GoesWhere healer.old
        (λ w. AreCorrect correct.now w × (over ≡ length (over_lock leader w))) (make_first leader) healer.new) }
{
    if over.0 > 0 {
        return Ok(());
    }
    let before = healer.sent();
    let block = genesis_digest();
    healer.take(Event::Lead {
        replica: leader,
        block,
    })?;
    healer.take(Event::Beat(leader))?;
    let proposals = healer.sent_since(before, Kind::Proposal)?;
    let newcomers = newcomers(healer, correct)?;
    bring_to_each(healer, &newcomers, &proposals)
}

/// A replica is told to lead from the block of this digest, and frame k, a request, comes to it.
pub(crate) fn lead_with(
    healer: &mut Healer<'_>,
    request: u64,
    leader: ReplicaId,
    block: Digest,
) -> Result<(), Fault>
    ensures origin { healer.new.origin ≡ healer.old.origin }
    ensures leads { OnOk result (Goes healer.old (lead_with request leader block) healer.new) }
{
    healer.take(Event::Lead {
        replica: leader,
        block,
    })?;
    bring_to_each(healer, &[leader], &[request])
}
