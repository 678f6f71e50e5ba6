//! What holds of all frames, and over a whole history of calls. Each law stands as the contract of a function with an
//! empty body.

ghost use Rattle.wire_frames.specs.Longest.{NoneIsLonger, OneIsAsLong};
ghost use Rattle.wire_frames.specs.Framing.{GivesWhatWasPushed, GivesWhatWasPut, GivesNothingMore, HasRoomForAPiece};

/// No frame that is read at some sizes, in either version, is longer than `longest_frame` of them.
pub fn no_frame_is_longer()
    ensures { NoneIsLonger }
{}

/// At all sizes a frame is as long.
pub fn one_frame_is_as_long()
    ensures { OneIsAsLong }
{}

/// Over all calls of a feed from the first on, what was pushed, in whatever pieces, is the frames that it gave, one
/// behind the other, and then what it holds.
pub fn a_feed_gives_what_was_pushed()
    ensures { GivesWhatWasPushed }
{}

/// What was put comes back: of frames that aren't too long none is refused, and those that are given are the first of
/// them, whole and in order. Once all of their bytes came and nothing whole is held, all were given.
pub fn a_feed_gives_what_was_put()
    ensures { GivesWhatWasPut }
{}

/// After a refusal nothing more is given, whatever is pushed.
pub fn a_feed_gives_nothing_after_a_refusal()
    ensures { GivesNothingMore }
{}

/// Once `next` found nothing whole, a piece can be pushed.
pub fn a_feed_has_room_for_a_piece()
    ensures { HasRoomForAPiece }
{}
