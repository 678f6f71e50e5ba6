//! What the accounts and the turns are for. Each law stands as the contract of a function with an empty body.

ghost use Rattle.asking.specs.Laws.{ComeNearer, OthersKeepRoom};

/// What is asked for on one replica's account takes no room on another's.
pub fn others_keep_room()
    ensures { OthersKeepRoom }
{}

/// Where a question is asked on another replica's account, one that is due comes nearer to its turn.
pub fn others_come_nearer()
    ensures { ComeNearer }
{}
