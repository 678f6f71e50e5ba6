//! What holds over a whole history of calls, and of each batch. Each law stands as the contract of a function with an empty
//! body.

ghost use Rattle.frame_record.specs.Laws.{IsABeginning, KeepsTheNewest};

/// Over all calls, what is recorded is the end of all that was put, in order of height: nothing above the lowest height is
/// missing.
pub fn the_newest_stay()
    ensures { KeepsTheNewest }
{}

/// A batch is a beginning of what is there, one frame at least, and of no more bytes than it may have, or than its first
/// frame has.
pub fn a_batch_is_a_beginning()
    ensures { IsABeginning }
{}
