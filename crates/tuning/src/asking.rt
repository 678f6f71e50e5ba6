//! Blocks that a replica asks for. A frame's way between two replicas of one process is 10 milliseconds at most, mostly.

/// Milliseconds after which a block is asked for again where nothing came, at least: there and back, and a way to spare.
/// Fewer: what is on its way is asked for twice. More: a lost question costs more.
pub const QUESTION_PAUSE_MILLIS: u64 = 30;

/// Milliseconds after which a block is asked for again, at most. More: a faulty replica that answers late makes a lost
/// question cost more. Fewer: on a machine that has too much to do what is on its way is asked for again and again.
pub const MOST_QUESTION_PAUSE_MILLIS: u64 = 480;

/// By which part the time for which an answer is awaited becomes less where one came sooner, at most: one in so many. A
/// smaller part: one late answer is remembered longer.
pub const PAUSE_PART: u64 = 8;

/// Times that a block is asked for on one frame's account, at most. Fewer: it is given up where many frames are lost.
/// More: what doesn't exist is asked for longer.
pub const MOST_TIMES_ASKED: u8 = 12;

/// Milliseconds that a block is awaited before it's asked for once more, at most. Fewer: where answers take long, questions are
/// asked so often that none is answered. More: one that is lost often costs more.
pub const MOST_ASK_AGAIN_MILLIS: u64 = 3_840;

/// Milliseconds in which questions are counted: some turns of a busy processor. Fewer: who has its turn seldom asks for little.
pub const QUESTION_PACE_MILLIS: u64 = 100;

/// Questions that go out in that time, at most; a block that n replicas are asked for counts n. More: faulty replicas have
/// correct ones answer more. Fewer: one that lacks many blocks is behind longer.
pub const QUESTION_PACE: u64 = 1600;

/// Blocks of others' records that are asked for at once on one replica's account, at most. More: where answers take long, they
/// come late, and are asked for again. Fewer: who fell behind waits for answers.
pub const MOST_ASKED_AHEAD: usize = 64;

/// Blocks that are asked for at once on one replica's account, at most: as many heights as a leader may climb in view 15.
/// More: what faulty replicas name takes more memory, and each look more time.
pub const MOST_ASKED_FOR: usize = 256;

/// Bytes of copies that are kept on one replica's account, at most: three times what one block of the longest frames
/// takes, of f + 1 among 31. More: faulty replicas fill more memory. Fewer: what waits for lower blocks is lost.
pub const MOST_COPY_BYTES: usize = 4_194_304;
