//! One replica, step by step.

ghost use Rattle.worked_examples.specs.Replicas.{VotesAndLocks, Waits, Executes, Orphan, Gap};
ghost use Rattle.worked_examples.specs.Replicas.{OtherJustified, KnownBlock, OtherView};

/// A request, and four proposals in succession: the fourth decides the first, and the request is executed.
pub fn the_fourth_proposal_executes_the_first()
    ensures votes { VotesAndLocks }
    ensures waits { Waits }
    ensures executes { Executes }
{}

/// A block with an unknown parent, of a wrong height, with a certificate of another block.
pub fn blocks_that_are_refused()
    ensures orphan { Orphan }
    ensures gap { Gap }
    ensures justified { OtherJustified }
    ensures known { KnownBlock }
{}

/// A replica votes in its own view alone.
pub fn a_proposal_of_another_view_gets_no_vote()
    ensures { OtherView }
{}
