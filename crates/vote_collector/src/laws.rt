//! How a collector follows the chronicle of its replica.

ghost use Rattle.ids.specs.Sizes.{Sizes};
ghost use Rattle.definitions.specs.Branches.{Branch};
ghost use Rattle.definitions.specs.Chronicles.{Chronicle};
ghost use Rattle.vote_collector.specs.Collecting.{VotesByDigest};
ghost use Rattle.vote_collector.specs.Lawful.{BeginsEmpty, IsFollowedAtLead, IsFollowedAtVote, IsFollowedElse};
ghost use Rattle.vote_collector.specs.Lawful.{NoneAreLow};

/// An empty collector is that of a replica before its first step.
pub fn begins_empty()
    ensures { (s : Sizes) → BeginsEmpty s }
{}

/// After a vote that a lawful replica stores, its collector is as it was where the block is no higher
/// than that of the highest certificate or the vote is `Doubled`, what `add` leaves where it is
/// `First`, and what `drop_up_to` leaves where it is `Complete`; the highest certificate is then the
/// one that `completed` gives, and else the one before.
pub fn votes_are_followed()
    ensures { (s : Sizes) (c : Chronicle) (kept : VotesByDigest) → IsFollowedAtVote s c kept }
{}

/// After a lead its collector is empty, as `forget_all` leaves it.
pub fn leads_are_followed()
    ensures { (s : Sizes) (c : Chronicle) (b : Branch) → IsFollowedAtLead s c b }
{}

/// After any other step its collector is what `drop_up_to` leaves at the height of the highest
/// certificate then.
pub fn other_steps_are_followed()
    ensures { (s : Sizes) (c : Chronicle) (kept : VotesByDigest) → IsFollowedElse s c kept }
{}

/// Dropping up to a height that the highest certificate had before changes nothing.
pub fn none_are_low()
    ensures { (s : Sizes) (c : Chronicle) (kept : VotesByDigest) → NoneAreLow s c kept }
{}
