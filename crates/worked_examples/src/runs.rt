//! Runs of a world, with real digests and tags, computed.

ghost use Rattle.worked_examples.specs.Liar.{IsTakenWhole as IsTakenWithALiar};
ghost use Rattle.worked_examples.specs.Liar.{PremisesHold as PremisesHoldWithALiar};
ghost use Rattle.worked_examples.specs.Liar.{LiarVotes, LiarTells, Accepts, IsOfTheCache};
ghost use Rattle.worked_examples.specs.Rounds.{SentSizes, SentIn};
ghost use Rattle.worked_examples.specs.Runs.{IsTakenWhole, SendsOneVote, Lengths, Answers, PremisesHold};

/// A proposal that is brought twice is voted for once.
pub fn a_proposal_brought_twice_gets_one_vote()
    ensures whole { IsTakenWhole }
    ensures sends { SendsOneVote }
    ensures lengths { Lengths }
    ensures answers { Answers }
{}

/// A request is submitted and proposed; four votes come in; the next proposal has a certificate of three.
pub fn a_round_of_votes_makes_a_certificate()
    ensures sizes { SentSizes }
    ensures events { SentIn }
{}

/// The premises of the laws of runs can be met: they hold of this run.
pub fn the_premises_of_runs_can_be_met()
    ensures { PremisesHold }
{}

/// They hold of a run with a faulty replica, too, which ends with a receipt: a frame of the liar's with its own
/// tags forges nothing.
pub fn the_premises_can_be_met_beside_a_liar()
    ensures whole { IsTakenWithALiar }
    ensures premises { PremisesHoldWithALiar }
{}

/// In that run the liar's votes count, and the client counts its reply, too, which tells another text. The
/// client accepts what the sequential cache replies.
pub fn a_receipt_is_right_beside_a_liar()
    ensures votes { LiarVotes }
    ensures tells { LiarTells }
    ensures accepted { Accepts }
    ensures reply { IsOfTheCache }
{}
