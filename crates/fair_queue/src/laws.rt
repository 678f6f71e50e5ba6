//! What the turns are for. Each law stands as the contract of a function with an empty body.

ghost use Rattle.fair_queue.specs.Laws.{ComeNearer};

/// A row from which something may be taken, and isn't, is nearer to the turn afterwards. So it is served within as
/// many takes as there are rows.
pub fn others_come_nearer<T>()
    ensures { ComeNearer T }
{}
