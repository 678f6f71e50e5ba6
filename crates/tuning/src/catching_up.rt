//! How a replica that fell behind catches up by what others recorded.

/// Heights by which more than f others are ahead of a replica, behind which it asks for what they recorded; nearer, it asks
/// for one parent at a time. Fewer: it asks for what is on its way. Above what may wait for parents
/// (`MOST_WAITING_FRAMES`): what it was given and what comes over its link don't meet.
pub const AWAY_HEIGHTS: u64 = 2048;

/// Heights that they are ahead by when it asks no more. Fewer: a server at full load never lets it off. More: what lies
/// between is asked for one by one.
pub const NEAR_HEIGHTS: u64 = 256;

/// Heights by which it is behind others that stand still, behind which it asks, too. Fewer: it asks for what is on its way. More:
/// what lies between is asked for one by one, and nobody goes on without it meanwhile.
pub const STILL_HEIGHTS: u64 = 16;

/// Milliseconds in which they executed nothing, behind which they stand still. Fewer: it asks for what is on its way. More: who
/// is needed for a quorum comes later.
pub const STILL_MILLIS: u64 = 500;

/// Milliseconds in which nothing was executed behind which it asks the next one; as much more behind each round in vain. So
/// long it awaits an answer, too, at least: twice as long as the last one took. Fewer: two are asked for the same. More: who
/// gives nothing costs more.
pub const CATCH_UP_PAUSE_MILLIS: u64 = 100;

/// That is no longer than so many milliseconds.
pub const MOST_CATCH_UP_PAUSE_MILLIS: u64 = 5000;

/// Milliseconds for which one is asked again and again, at most, before it is the next one's turn. More: who gives little
/// costs more.
pub const CATCH_UP_TURN_MILLIS: u64 = 1000;

/// Bytes that are asked for at once, at least: twice as many behind each answer in vain. Fewer: more questions. More: a
/// replica takes nothing else for longer.
pub const CATCH_UP_BYTES: u64 = 1_048_576;

/// That is no more than half of what one sender may have waiting.
pub const MOST_CATCH_UP_BYTES: u64 = 8_388_608;

/// Bytes of an answer that count for a millisecond of what a replica is given. Fewer: who fell behind comes back later. More:
/// who asks without end costs more.
pub const ANSWER_BYTES_A_MILLI: u64 = 32_768;

/// Milliseconds that an answer counts for, at least. Fewer: who asks for little without end costs more.
pub const LEAST_ANSWER_MILLIS: u64 = 2;

/// Microseconds that a block counts for which a replica asked, for each that may be faulty. Fewer: who asks without end costs
/// more. More than a block's share of a correct one's pace (`QUESTION_PACE`): that is given fewer than it asks for.
pub const BLOCK_MICROS: u64 = 150;

/// Milliseconds that what a replica was given may count ahead. Fewer: who takes much at once waits. More: who asks without end
/// gets more at once.
pub const GIVEN_AHEAD_MILLIS: u64 = 1000;
