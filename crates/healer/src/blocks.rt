//! Blocks that decide.

ghost use Rattle.std.specs.Prelude.{◌≡◌, ◌==◌, ◌-◌, ◌+◌, not, filter, length, IfOk, OnOk};
ghost use Rattle.definitions.specs.Chronicles.{vheight};
ghost use Rattle.definitions.specs.States.{leaf};
ghost use Rattle.definitions.specs.Worlds.{self_of};
ghost use Rattle.recovery.specs.Correct.{chronicle_of};
ghost use Rattle.recovery.specs.Healing.{make_block, make_blocks, highest_voted, to_climb, burst, round, rounds};
ghost use Rattle.healer.specs.Courses.{Goes, GoesWhere, ToldWhere, HasReplica, AreCorrect};

use crate::healer::{Healer, bring_to_each, offer_to_each};
use ids::{Fault, Height, Kind, ReplicaId};
use world_schedule::Event;

/// A leader makes a block, and it is offered to itself.
fn make_block(healer: &mut Healer<'_>, leader: ReplicaId) -> Result<(), Fault>
    ensures origin { healer.new.origin ≡ healer.old.origin }
    ensures made { OnOk result (Goes healer.old (make_block leader) healer.new) }
{
    let before = healer.sent();
    healer.take(Event::Beat(leader))?;
    let proposals = healer.sent_since(before, Kind::Proposal)?;
    offer_to_each(healer, &[leader], &proposals)
}

/// So many blocks.
fn make_blocks(healer: &mut Healer<'_>, count: u64, leader: ReplicaId) -> Result<(), Fault>
    ensures origin { healer.new.origin ≡ healer.old.origin }
    ensures made { OnOk result (Goes healer.old (make_blocks count leader) healer.new) }
{
    for _made in 0..count {
        make_block(healer, leader)?;
    }
    Ok(())
}

/// The greatest height that a replica voted for.
fn voted_by(healer: &Healer<'_>, replica: ReplicaId) -> Height
    ensures { ToldWhere healer.now (HasReplica replica) (λ w. result ≡ vheight (chronicle_of w replica)) }
{
    match healer.replica(replica) {
        Some(replica) => replica.voted(),
        None => Height(0),
    }
}

/// The greatest height that one of these replicas voted for.
fn highest_voted(healer: &Healer<'_>, replicas: &[ReplicaId]) -> Height
    ensures { ToldWhere healer.now (AreCorrect replicas.now) (λ w. result ≡ highest_voted w replicas.now) }
{
    let mut highest: u64 = 0;
    for replica in replicas {
        highest = highest.max(voted_by(healer, *replica).0);
    }
    Height(highest)
}

/// The height of the block that a replica's next proposal stands on.
fn leaf_height(healer: &Healer<'_>, replica: ReplicaId) -> Height
    ensures { ToldWhere healer.now (HasReplica replica)
        (λ w. result ≡ length (leaf (self_of w replica) (chronicle_of w replica))) }
{
    match healer.replica(replica) {
        Some(replica) => replica.leaf_height(),
        None => Height(0),
    }
}

/// How many blocks on this leaf it takes until one is higher than this. `Full` where heights are spent.
fn climb_above(voted: Height, leaf: Height) -> Result<u64, Fault>
    ensures { IfOk result (λ n. n ≡ (voted - leaf) + 1) }
{
    match voted.0.saturating_sub(leaf.0).checked_add(1) {
        Some(count) => Ok(count),
        None => Err(Fault::Full),
    }
}

/// How many blocks on its leaf it takes until one is higher than all that correct replicas voted for. `Full` where
/// heights are spent.
pub(crate) fn to_climb(
    healer: &Healer<'_>,
    correct: &[ReplicaId],
    leader: ReplicaId,
) -> Result<u64, Fault>
    ensures { IfOk result (λ n. ToldWhere healer.now (λ w. AreCorrect correct.now w × HasReplica leader w)
        (λ w. n ≡ to_climb leader w)) }
{
    let voted = highest_voted(healer, correct);
    let leaf = leaf_height(healer, leader);
    climb_above(voted, leaf)
}

/// Whether a replica is another one.
fn is_other(replica: ReplicaId, leader: ReplicaId) -> bool
    ensures { result ≡ not (replica == leader) }
{
    replica.0 != leader.0
}

/// The correct replicas but this one.
fn others(
    healer: &Healer<'_>,
    correct: &[ReplicaId],
    leader: ReplicaId,
) -> Result<Vec<ReplicaId>, Fault>
    ensures { IfOk result (λ rs. rs.items ≡ filter (λ r. not (r == leader)) correct.now) }
{
    let mut found = Vec::new(healer.alloc());
    for replica in correct {
        if is_other(*replica, leader) {
            found.push(*replica)?;
        }
    }
    Ok(found)
}

/// A leader makes so many blocks, before anybody else is offered one. Then the others are offered all.
fn burst(
    healer: &mut Healer<'_>,
    correct: &[ReplicaId],
    count: u64,
    leader: ReplicaId,
) -> Result<(), Fault>
    ensures origin { healer.new.origin ≡ healer.old.origin }
    ensures came { OnOk result (GoesWhere healer.old (AreCorrect correct.now) (burst count leader) healer.new) }
{
    let before = healer.sent();
    make_blocks(healer, count, leader)?;
    let proposals = healer.sent_since(before, Kind::Proposal)?;
    let others = others(healer, correct, leader)?;
    offer_to_each(healer, &others, &proposals)
}

/// A burst, and only then all votes on it come to all.
fn round(
    healer: &mut Healer<'_>,
    correct: &[ReplicaId],
    count: u64,
    leader: ReplicaId,
) -> Result<(), Fault>
    ensures origin { healer.new.origin ≡ healer.old.origin }
    ensures came { OnOk result (GoesWhere healer.old (AreCorrect correct.now) (round count leader) healer.new) }
{
    let before = healer.sent();
    burst(healer, correct, count, leader)?;
    let votes = healer.sent_since(before, Kind::Vote)?;
    bring_to_each(healer, correct, &votes)
}

/// A round to climb above all votes, and three more, which decide its last block.
pub(crate) fn rounds(
    healer: &mut Healer<'_>,
    correct: &[ReplicaId],
    count: u64,
    leader: ReplicaId,
) -> Result<(), Fault>
    ensures origin { healer.new.origin ≡ healer.old.origin }
    ensures came { OnOk result (GoesWhere healer.old (AreCorrect correct.now) (rounds count leader) healer.new) }
{
    round(healer, correct, count, leader)?;
    round(healer, correct, 1, leader)?;
    round(healer, correct, 1, leader)?;
    round(healer, correct, 1, leader)
}
