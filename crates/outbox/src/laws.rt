//! What holds over a whole history of calls. Each law stands as the contract of a function with an empty body.

ghost use Rattle.outbox.specs.Laws.{GivesWhatWasKept, CountsWhatIsLost, StaysWithinItsBound};

/// Over all calls of an outbox, what was taken or let go at a closing, and then what waits, are the frames that were
/// kept, in order, each once.
pub fn an_outbox_gives_what_was_kept()
    ensures { GivesWhatWasKept }
{}

/// Over all calls, each frame that was put was taken, waits or is counted as lost.
pub fn an_outbox_counts_what_is_lost()
    ensures { CountsWhatIsLost }
{}

/// Over all calls, what waits never costs more than it may.
pub fn an_outbox_stays_within_its_bound()
    ensures { StaysWithinItsBound }
{}
