//! Nobody is wedged: laws over the definitions alone; no code runs here. Each stands as the contract of a function
//! with an empty body. `never_wedged` is the statement; the others are its steps.
#![tactic(auto)]

ghost use Rattle.recovery.specs.Locks.{HighestLocksAreSafe, LocksMayBeLedFrom, JustifiedBlocksAreHeld};
ghost use Rattle.recovery.specs.Locks.{GroundsAreHeld, HighestAreCertified, LeadsBegin};
ghost use Rattle.recovery.specs.Views.{TimeoutsBringTogether, ACorrectLeaderComes};
ghost use Rattle.recovery.specs.Fetching.{CopiesAreTaken, MissingBlocksAreFetched, BranchesAreBrought};
ghost use Rattle.recovery.specs.Rounds.{ProposalsAreTaken, ThreeMoreDecide, BurstsAreVotedFor, RoundsCertify};
ghost use Rattle.recovery.specs.Rounds.{RoundsDecide};
ghost use Rattle.recovery.specs.Requests.{RequestsAreExecuted, RepliesConvince};
ghost use Rattle.recovery.specs.NeverWedged.{NeverWedged, FirstRequestsMayHeal, WaitingClientsAsked};
ghost use Rattle.recovery.specs.NeverWedged.{RequestsNameClients};
ghost use Rattle.recovery.specs.Inventions.{HealingForgesNothing, RunsAreHealed};

/// Timeouts alone bring all correct replicas into any view that none of them passed; nothing else changes.
pub fn timeouts_bring_together()
    ensures { TimeoutsBringTogether }
{}

/// So they come into a view that a correct replica leads, while views are left.
pub fn a_correct_leader_comes()
    ensures { ACorrectLeaderComes }
{}

/// A correct replica of the highest lock: no correct lock is above it or beside it, so a block that justifies
/// it is safe for all.
pub fn highest_locks_are_safe()
    ensures { HighestLocksAreSafe }
{}

/// A correct replica may lead from its lock, but where it never took a block.
pub fn locks_may_be_led_from()
    ensures { LocksMayBeLedFrom }
{}

/// So it leads from there, with no request, once it is told to.
pub fn leads_begin()
    ensures { LeadsBegin }
{}

/// Whatever a correct replica took: more than f correct ones took what it justifies, and all below that.
pub fn justified_blocks_are_held()
    ensures { JustifiedBlocksAreHeld }
{}

/// So more than f correct replicas took the block that justifies the highest lock.
pub fn grounds_are_held()
    ensures { GroundsAreHeld }
{}

/// A correct replica takes a block of which it gathers the copies of more than f correct ones.
pub fn copies_are_taken()
    ensures { CopiesAreTaken }
{}

/// A correct replica gets a block that it lacks by asking, where more than f correct replicas have it.
pub fn missing_blocks_are_fetched()
    ensures { MissingBlocksAreFetched }
{}

/// So all correct replicas get a whole branch, as far as it is in their reach.
pub fn branches_are_brought()
    ensures { BranchesAreBrought }
{}

/// A correct replica takes a correct leader's block on grounds, and votes for it where it may.
pub fn proposals_are_taken()
    ensures { ProposalsAreTaken }
{}

/// A leader's burst, from a block from which all may climb, ends with a block for which all vote.
pub fn bursts_are_voted_for()
    ensures { BurstsAreVotedFor }
{}

/// A correct replica's highest certificate is for a block for which a quorum may have voted, or genesis; so it
/// is no higher than what some correct replica voted for.
pub fn highest_are_certified()
    ensures { HighestAreCertified }
{}

/// A leader's round leaves all correct replicas with certificates of their own for its last block.
pub fn rounds_certify()
    ensures { RoundsCertify }
{}

/// Who took three more blocks over a block, each certified by the next, executed that block.
pub fn three_more_decide()
    ensures { ThreeMoreDecide }
{}

/// Rounds in turn decide the last block of the first, which carries the requests that waited.
pub fn rounds_decide()
    ensures { RoundsDecide }
{}

/// So a correct client's request is executed by all.
pub fn requests_are_executed()
    ensures { RequestsAreExecuted }
{}

/// Whoever waits sent its request, so that it is in the record.
pub fn waiting_clients_asked()
    ensures { WaitingClientsAsked }
{}

/// Each request of the record names the client that sent it.
pub fn requests_name_clients()
    ensures { RequestsNameClients }
{}

/// And the client has its receipt, once its request comes to them again, and their replies to it.
pub fn replies_convince()
    ensures { RepliesConvince }
{}

/// So nobody is wedged: events of correct parties alone, which are computed from the world, bring a waiting client its
/// receipt, whatever at most f faulty replicas and any clients did before.
pub fn never_wedged()
    ensures { NeverWedged }
{}

/// Healing reads no bytes and forges no tag, if nothing was invented before that is forged for anybody.
pub fn healing_forges_nothing()
    ensures { HealingForgesNothing }
{}

/// So the premises of the run are enough, if no two cores collide in healing.
pub fn runs_are_healed()
    ensures { RunsAreHealed }
{}

/// What that asks of a world can be met: it holds after the first request of all.
pub fn first_requests_may_heal()
    ensures { FirstRequestsMayHeal }
{}
