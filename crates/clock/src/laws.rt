//! What the rules are for. Each law stands as the contract of a function with an empty body.

ghost use Rattle.clock.specs.Laws.{EndsSilences, IsEarned, IsGiven, IsOwed, IsPatient};
ghost use Rattle.clock.specs.Pruning.{HelpsSlower, KeepsWindow, KeepsWithin};

/// No timeout is due before the replica has lagged in its view for a third of the view's limit, or was silent for a third of what
/// that may last, or the view has brought more heights than it may without a decision.
pub fn timeouts_are_earned()
    ensures { IsEarned }
{}

/// A timeout is due once the replica has lagged so long at each look.
pub fn timeouts_are_given()
    ensures { IsGiven }
{}

/// A timeout is due once the replica was silent at each look for a third of what a view may lag at its beginning, or, where nobody is
/// in a later view, of `MOST_SLACK` times what it may where none passed in vain.
pub fn silences_end()
    ensures { EndsSilences }
{}

/// A proposal may always wait for the least pause before there is a beat on top of it.
pub fn proposals_may_wait()
    ensures { IsPatient }
{}

/// A command may always take as long as usual, and never more than so many times as long, however many views ended.
pub fn commands_are_owed()
    ensures { IsOwed }
{}

/// A replica forgets nothing that a slower one needs, as long as that one is no further behind than the most that it keeps.
pub fn slower_ones_are_helped()
    ensures { HelpsSlower }
{}

/// However far behind others are, a replica keeps no more than the most, and the part of a window by which it waits.
pub fn what_is_kept_is_within()
    ensures { KeepsWithin }
{}

/// A replica keeps its window.
pub fn the_window_is_kept()
    ensures { KeepsWindow }
{}
