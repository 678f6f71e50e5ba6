//! What a replica takes, and leads from, though it has no certificate that is good for it.

ghost use Rattle.worked_examples.specs.Grounds.{AnEarlierTake, NoGrounds, TwoSenders, OneSender};
ghost use Rattle.worked_examples.specs.Grounds.{LeadsFromTheLock, LeadsFromNoOther, ALeadMovesThere};
ghost use Rattle.worked_examples.specs.Healing.{IsWedged, IsOffered, IsGathered};
ghost use Rattle.worked_examples.specs.Healing.{CopiesPass, OffersPass};
ghost use Rattle.worked_examples.specs.Grounds.{ALeadKeepsIt, AWholeOneFills, VotesFillNothing};
ghost use Rattle.worked_examples.specs.Grounds.{AsksAnyone, ItsViewCounts};
ghost use Rattle.worked_examples.specs.Waiting.{IsTakenWhole, PremisesHold, WedgedMayHeal, IsHealed};
ghost use Rattle.worked_examples.specs.AfterPruning.{OnePruned, PrunedMayHeal};
ghost use Rattle.worked_examples.specs.AfterPruning.{PremisesHold as PremisesHoldAfterIt, IsHealed as IsHealedAfterIt};
ghost use Rattle.worked_examples.specs.ForgedForOne.{IsRefused, IsForgedForOne};
ghost use Rattle.worked_examples.specs.HalfRequest.{OneVotes, MayHealIt};
ghost use Rattle.worked_examples.specs.HalfRequest.{PremisesHold as PremisesHoldOfIt, IsHealed as IsHealedOfIt};

use recovery::runs_are_healed;

/// A block is taken where an earlier one justifies the same block, or f + 1 replicas sent it; else not.
pub fn a_block_is_taken_on_grounds()
    ensures earlier { AnEarlierTake }
    ensures none { NoGrounds }
    ensures two { TwoSenders }
    ensures one { OneSender }
{}

/// A replica leads from its lock or above, where a block that it took justifies the block. After that
/// a certificate that comes whole takes the place of one without votes, and single votes do not.
pub fn a_replica_leads_from_its_lock()
    ensures lock { LeadsFromTheLock }
    ensures others { LeadsFromNoOther }
    ensures moves { ALeadMovesThere }
    ensures keeps { ALeadKeepsIt }
    ensures whole { AWholeOneFills }
    ensures votes { VotesFillNothing }
{}

/// A question goes to whoever is named, and a view counts without its certificate.
pub fn questions_and_views_need_no_certificate()
    ensures asks { AsksAnyone }
    ensures views { ItsViewCounts }
{}

/// A vote that is right for the leader alone makes a certificate that the others refuse. They take its block
/// all the same, one by its own certificate, the other by two copies, and both vote for it.
pub fn a_half_vote_wedges_and_grounds_heal()
    ensures wedged { IsWedged }
    ensures offered { IsOffered }
    ensures gathered { IsGathered }
{}

/// A frame is offered, and copies come together, with their own tags alone.
pub fn offers_and_copies_need_their_own_tags()
    ensures copies { CopiesPass }
    ensures offers { OffersPass }
{}

/// Where a half vote wedged a run, and a client waits, the premises of runs hold, and all that healing asks of a
/// world.
pub fn a_wedged_world_may_heal()
    ensures whole { IsTakenWhole }
    ensures premises { PremisesHold }
    ensures may { WedgedMayHeal }
{}

/// So it is where no replica is faulty, and a client's request was right for the leader alone.
pub fn a_half_request_wedges_and_may_heal()
    ensures votes { OneVotes }
    ensures premises { PremisesHoldOfIt }
    ensures may { MayHealIt }
{}

/// So it is where a replica pruned, after careful votes, and another one never took a block.
pub fn a_world_after_a_pruning_may_heal()
    ensures pruned { OnePruned }
    ensures premises { PremisesHoldAfterIt }
    ensures may { PrunedMayHeal }
{}

/// A frame with a tag that is forged for a replica to which it doesn't come is one that no run may invent.
pub fn a_tag_is_forged_for_one()
    ensures refused { IsRefused }
    ensures forged { IsForgedForOne }
{}

/// So healing brings the clients of these three worlds their receipts, where no two cores collide in it.
pub fn wedged_worlds_are_healed()
    ensures half_vote { IsHealed }
    ensures half_request { IsHealedOfIt }
    ensures pruning { IsHealedAfterIt }
{
    runs_are_healed();
}
