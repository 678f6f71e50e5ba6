//! What holds over a whole history of calls.

ghost use Rattle.line_feed.specs.Feeding.{GivesWhatWasPushed, GivesTheEndAgain};

/// Over all calls of a feed from the first on, the items that it gave are the first items of all
/// that was pushed, in whatever pieces, and it holds what they leave.
pub fn a_feed_gives_what_was_pushed()
    ensures { GivesWhatWasPushed }
{}

/// After an item that ends all, only that item is given again, and what is held stays.
pub fn a_feed_gives_the_end_again()
    ensures { GivesTheEndAgain }
{}
