//! What an audit rests on: where the histories of kept replicas fork, a vote is unbacked or two
//! cores collide. The laws speak of the definitions alone; no code runs here. Each stands as the
//! contract of a function with an empty body.
#![tactic(auto)]

ghost use Rattle.audit_ground.specs.Law.{StoredBlocksAreNamed, FrontsAreOne, MovingFindsTheFronts};
ghost use Rattle.audit_ground.specs.Law.{UnbackedVotesAreSeen, UntakenBlocksAreSeen};
ghost use Rattle.audit_ground.specs.Law.{BackedChroniclesAreOrderly};
ghost use Rattle.audit_ground.specs.Law.{BackedHistoriesAgree, OrderlyChroniclesAreBacked};
ghost use Rattle.audit_ground.specs.Law.{EachForkHasAReason, EachAuditAnswers, SomeAgreement, SomeFork};
ghost use Rattle.audit_ground.specs.Law.{SomeCircle, AgreeingWindowsAreRight, ForkingWindowsAreRight};
ghost use Rattle.audit_ground.specs.Law.{WindowsShowOneVerdict};

/// A lawful chronicle is kept well where each block is stored under its own digest, with a
/// certificate of the block that it justifies.
pub fn stored_blocks_are_named()
    ensures { StoredBlocksAreNamed }
{}

/// Judged replicas have fronts, and one choice of them.
pub fn fronts_are_one()
    ensures { FrontsAreOne }
{}

/// Moving one counter at a time, while its replica may move, ends at the fronts.
pub fn moving_one_counter_finds_the_fronts()
    ensures { MovingFindsTheFronts }
{}

/// At any fronts, an unbacked vote is one that the first step behind counts and the voter's front lacks.
pub fn unbacked_votes_are_seen()
    ensures { UnbackedVotesAreSeen }
{}

/// And an untaken block is one for which that step names the sender, whose front lacks it.
pub fn untaken_blocks_are_seen()
    ensures { UntakenBlocksAreSeen }
{}

/// Where no two known cores collide and no vote is unbacked, the judged are a lawful family.
pub fn backed_chronicles_are_orderly()
    ensures { BackedChroniclesAreOrderly }
{}

/// And their histories agree.
pub fn backed_histories_agree()
    ensures { BackedHistoriesAgree }
{}

/// No vote is unbacked where the judged are members of an orderly family, as correct replicas are.
pub fn orderly_chronicles_are_backed()
    ensures { OrderlyChroniclesAreBacked }
{}

/// Where the histories of judged replicas do not agree, a vote is unbacked or two cores collide.
pub fn each_fork_has_a_reason()
    ensures { EachForkHasAReason }
{}

/// Judged replicas have a verdict.
pub fn each_audit_answers()
    ensures { EachAuditAnswers }
{}

/// Where the windows of replicas that may have pruned show that their executed blocks lie on one branch,
/// and no two known cores collide, their histories agree.
pub fn agreeing_windows_are_right()
    ensures { AgreeingWindowsAreRight }
{}

/// Where windows show two blocks at one height, neither executed branch goes through the other's last block.
pub fn forking_windows_are_right()
    ensures { ForkingWindowsAreRight }
{}

/// What windows show is one verdict, but for the lower replica that is named.
pub fn windows_show_one_verdict()
    ensures { WindowsShowOneVerdict }
{}

/// The premises can be met: three of four replicas are judged that executed something, and no vote
/// is unbacked.
pub fn some_agreement()
    ensures { SomeAgreement }
{}

/// And by a fork: three of four replicas are judged, and their histories do not agree.
pub fn some_fork()
    ensures { SomeFork }
{}

/// Votes can stand behind one another in a circle: then each is unbacked, though both were given.
pub fn some_circle()
    ensures { SomeCircle }
{}
