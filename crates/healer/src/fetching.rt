//! Blocks that are asked for.

ghost use Rattle.std.specs.Prelude.{◌≡◌, Some, not, map, option_map, IfOk, OnOk};
ghost use Rattle.std.specs.Option.{option_and_then};
ghost use Rattle.definitions.specs.Branches.{Branch};
ghost use Rattle.definitions.specs.Chronicles.{horizon};
ghost use Rattle.definitions.specs.Digests.{digest_of};
ghost use Rattle.definitions.specs.States.{find_block, is_known};
ghost use Rattle.replica.specs.Execution.{seen_at};
ghost use Rattle.recovery.specs.Correct.{chronicle_of};
ghost use Rattle.recovery.specs.Healing.{in_turn, ask_one, ask_each, fetch_block, lacking, lowest_first};
ghost use Rattle.world_schedule.specs.declared.event.Source.TheVariants.{Record};
ghost use Rattle.healer.specs.Courses.{GoesWhere, ToldWhere, HasReplica, AreCorrect};
ghost use Rattle.healer.specs.Fetching.{fetch_by};
ghost use Rattle.healer.specs.Grounds.{HasWhole};

use crate::healer::{Healer, deliver_since, is_known};
use ids::{Digest, Fault, Height, Kind, ReplicaId};
use replica::Replica;
use world_schedule::{Event, Source};

/// A replica asks another one for a block, and its question comes there.
fn ask_one(
    healer: &mut Healer<'_>,
    correct: &[ReplicaId],
    block: Digest,
    replica: ReplicaId,
    to: ReplicaId,
) -> Result<(), Fault>
    ensures origin { healer.new.origin ≡ healer.old.origin }
    ensures came { OnOk result (GoesWhere healer.old (AreCorrect correct.now) (ask_one block replica to) healer.new) }
{
    let before = healer.sent();
    healer.take(Event::Ask { replica, to, block })?;
    deliver_since(healer, correct, before, Kind::Fetch)
}

/// It asks all correct ones.
fn ask_each(
    healer: &mut Healer<'_>,
    correct: &[ReplicaId],
    block: Digest,
    replica: ReplicaId,
) -> Result<(), Fault>
    ensures origin { healer.new.origin ≡ healer.old.origin }
    ensures came { OnOk result
        (GoesWhere healer.old (AreCorrect correct.now) (ask_each block replica correct.now) healer.new) }
{
    for to in correct {
        ask_one(healer, correct, block, replica, *to)?;
    }
    Ok(())
}

/// The frames of these numbers, as sources.
fn sources_of(healer: &Healer<'_>, frames: &[u64]) -> Result<Vec<Source>, Fault>
    ensures { IfOk result (λ sources. sources.items ≡ map (λ k. Record k) frames.now) }
{
    let mut sources = Vec::new(healer.alloc());
    for frame in frames {
        sources.push(Source::Record(*frame))?;
    }
    Ok(sources)
}

/// A replica asks for a block, and gathers what all answered. `UnknownParent` where nobody has it.
fn fetch_block(
    healer: &mut Healer<'_>,
    correct: &[ReplicaId],
    block: Digest,
    replica: ReplicaId,
) -> Result<(), Fault>
    ensures origin { healer.new.origin ≡ healer.old.origin }
    ensures came { OnOk result (GoesWhere healer.old (AreCorrect correct.now) (fetch_block block replica) healer.new) }
{
    let before = healer.sent();
    ask_each(healer, correct, block, replica)?;
    let copies = healer.sent_since(before, Kind::Block)?;
    if copies.is_empty() {
        return Err(Fault::UnknownParent);
    }
    let sources = sources_of(healer, &copies)?;
    healer.take(Event::Gather {
        to: replica,
        sources,
    })
}

/// Whether a replica lacks a block.
fn lacks(healer: &Healer<'_>, replica: ReplicaId, block: &Digest) -> bool
    ensures { ToldWhere healer.now (HasReplica replica)
        (λ w. result ≡ not (is_known block.now (chronicle_of w replica))) }
{
    !is_known(healer, replica, block)
}

/// The replicas that lack a block.
fn lacking(
    healer: &Healer<'_>,
    correct: &[ReplicaId],
    block: &Digest,
) -> Result<Vec<ReplicaId>, Fault>
    ensures { IfOk result
        (λ rs. ToldWhere healer.now (AreCorrect correct.now) (λ w. rs.items ≡ lacking block.now w)) }
{
    let mut found = Vec::new(healer.alloc());
    for replica in correct {
        if lacks(healer, *replica, block) {
            found.push(*replica)?;
        }
    }
    Ok(found)
}

/// They get it, one after the other.
fn fetch_for_all(healer: &mut Healer<'_>, correct: &[ReplicaId], block: Digest) -> Result<(), Fault>
    ensures origin { healer.new.origin ≡ healer.old.origin }
    ensures came { OnOk result (GoesWhere healer.old (AreCorrect correct.now) (fetch_by block) healer.new) }
{
    let lacking = lacking(healer, correct, &block)?;
    for replica in &lacking {
        fetch_block(healer, correct, block, *replica)?;
    }
    Ok(())
}

/// The block of a height on the branch of one that this replica has. `UnknownParent` where it hasn't.
fn found_below(replica: &Replica, block: &Digest, height: Height) -> Result<Digest, Fault>
    ensures { IfOk result (λ d. Some d
        ≡ option_map digest_of (option_and_then (seen_at (horizon replica.now.replica.chronicle) height)
        (find_block block.now replica.now.replica.chronicle))) }
{
    match replica.block_below(block, height) {
        Some(digest) => Ok(digest),
        None => Err(Fault::UnknownParent),
    }
}

/// The block of a height on the branch of one that a replica has. `UnknownParent` where it hasn't.
fn block_below(
    healer: &Healer<'_>,
    replica: ReplicaId,
    block: &Digest,
    height: Height,
) -> Result<Digest, Fault>
    ensures { IfOk result (λ d. ToldWhere healer.now (HasReplica replica) (λ w. Some d
        ≡ option_map digest_of (option_and_then (seen_at (horizon (chronicle_of w replica)) height)
        (find_block block.now (chronicle_of w replica))))) }
{
    match healer.replica(replica) {
        Some(replica) => found_below(replica, block, height),
        None => Err(Fault::UnknownParent),
    }
}

/// The digests of a block that a replica has, which is of this height, and of all below it, the lowest first.
pub(crate) fn lowest_first(
    healer: &Healer<'_>,
    replica: ReplicaId,
    block: &Digest,
    top: Height,
) -> Result<Vec<Digest>, Fault>
    ensures { IfOk result (λ ds. ToldWhere healer.now (HasReplica replica) (λ w.
        (x : Branch) → HasWhole (chronicle_of w replica) block.now top x → ds.items ≡ map digest_of (lowest_first x))) }
{
    let mut digests = Vec::new(healer.alloc());
    for below in 0..top.0 {
        let digest = block_below(healer, replica, block, Height(below + 1))?;
        digests.push(digest)?;
    }
    Ok(digests)
}

/// All correct replicas get the blocks of these digests, one after the other.
pub(crate) fn fetch_all(
    healer: &mut Healer<'_>,
    correct: &[ReplicaId],
    digests: &[Digest],
) -> Result<(), Fault>
    ensures origin { healer.new.origin ≡ healer.old.origin }
    ensures came { OnOk result
        (GoesWhere healer.old (AreCorrect correct.now) (in_turn (map fetch_by digests.now)) healer.new) }
{
    for digest in digests {
        fetch_for_all(healer, correct, *digest)?;
    }
    Ok(())
}
