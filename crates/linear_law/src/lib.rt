//! The laws of every run of a world, over the definitions alone; no code runs here. Each stands as
//! the contract of a function with an empty body. A run is any list of submissions, deliveries,
//! losses, repeats, timeouts, beats and invented frames; refused memory is its one free choice.
#![tactic(auto)]

ghost use Rattle.linear_law.specs.Law.{EveryRunIsLinear, ChroniclesAreLawful, ChroniclesAreAFamily};
ghost use Rattle.linear_law.specs.Law.{NoEventConflicts, SentFramesAreFrames, AnySentFramesAreFrames};
ghost use Rattle.linear_law.specs.Law.{SentFramesAreRead, MadeCertificatesAreCertificates};
ghost use Rattle.linear_law.specs.Law.{NoSeqIsGivenTwice, NoSeqIsGivenAgain, ReceiptsNameCommands};
ghost use Rattle.linear_law.specs.Law.{DeliveriesForgeNothing};
ghost use Rattle.linear_law.specs.AsBefore.{UsualRunsAreJudgedAsBefore};

/// Every run is linear.
pub fn every_run_is_linear()
    ensures { EveryRunIsLinear }
{}

/// The chronicle of each correct replica is lawful.
pub fn chronicles_are_lawful()
    ensures { ChroniclesAreLawful }
{}

/// The chronicles of the correct replicas are an orderly family, so that agreement holds of them.
pub fn chronicles_are_a_family()
    ensures { ChroniclesAreAFamily }
{}

/// No event is answered with a conflict.
pub fn no_event_conflicts()
    ensures { NoEventConflicts }
{}

/// Each frame that a correct party sends is a frame at the run's sizes, and a certificate in it has no
/// votes or exactly a quorum.
pub fn sent_frames_are_frames()
    ensures { SentFramesAreFrames }
{}

/// So is each frame of a run of fewer than 2^63 events, whatever tags are forged in it and whatever
/// cores collide.
pub fn any_sent_frames_are_frames()
    ensures { AnySentFramesAreFrames }
{}

/// A frame that a correct party sent is read as it was sent, wherever it comes.
pub fn sent_frames_are_read()
    ensures { SentFramesAreRead }
{}

/// Each certificate that a correct replica keeps, or makes from votes, is a certificate at the
/// run's sizes, for its block and good for the replica.
pub fn made_certificates_are_certificates()
    ensures { MadeCertificatesAreCertificates }
{}

/// No two submissions of a client have one seq: two recorded requests of one sender and one seq are
/// of the same event, with the same payload. Nothing is assumed of the run.
pub fn no_seq_is_given_twice()
    ensures { NoSeqIsGivenTwice }
{}

/// A client that goes on behind a number, say after a restart, gives none again of those that it gave before,
/// if it had given none above that number. No run is spoken of: a world's clients live for its whole run.
pub fn no_seq_is_given_again()
    ensures { NoSeqIsGivenAgain }
{}

/// Each accepted receipt names one submitted command: its client submitted one of the receipt's seq
/// before it accepted the receipt, and no other one of that seq in the whole run. Nothing is
/// assumed of the run.
pub fn receipts_name_commands()
    ensures { ReceiptsNameCommands }
{}

/// No tag is forged in a run in which recorded frames alone come, each to a party that it was sent
/// to, if each correct replica has its own keys.
pub fn deliveries_forge_nothing()
    ensures { DeliveriesForgeNothing }
{}

/// A run in which no frame is offered, no copies come together, and no replica is told to lead from a block
/// or to ask for one, is judged as if there were no such events: each block was taken by a certificate that
/// is good for its replica, and the highest certificate is the first of the greatest height.
pub fn usual_runs_are_judged_as_before()
    ensures { UsualRunsAreJudgedAsBefore }
{}
