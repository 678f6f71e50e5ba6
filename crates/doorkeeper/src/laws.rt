//! What the rule is for. Each law stands as the contract of a function with an empty body.

ghost use Rattle.doorkeeper.specs.Doors.{FewPass, OthersDontCount, FewOfHeight, NeverCrowded};
ghost use Rattle.doorkeeper.specs.Doors.{MostOfHeight, NoneCrowdedOut};
ghost use Rattle.doorkeeper.specs.Climbs.{LeadersPass};

/// With at most fifteen replicas, an account with at most three blocks of a height has room for one more.
pub fn few_pass()
    ensures { FewPass }
{}

/// What comes in on one account changes nothing for the others.
pub fn others_do_not_count()
    ensures { OthersDontCount }
{}

/// Of one height n accounts let in at most n times as many blocks as each may.
pub fn few_of_a_height()
    ensures { FewOfHeight }
{}

/// No height is crowded, whoever lies and whoever asks whom: 31 accounts let in two blocks of it each at most, and a tree
/// takes 64.
pub fn never_crowded()
    ensures { NeverCrowded }
{}

/// A replica behind a doorkeeper never refuses an input because its height is crowded, whoever lies.
pub fn none_crowded_out()
    ensures { NoneCrowdedOut }
{}

/// A leader of a later view that justifies no lower block than one that passed may propose four blocks above that.
pub fn leaders_pass()
    ensures { LeadersPass }
{}

/// So many blocks of a height come in at most, for f = 1 to 10: fewer than the 64 that a tree takes.
pub fn most_of_a_height()
    ensures { MostOfHeight }
{}
