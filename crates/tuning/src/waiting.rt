//! Frames that lack a block.

/// Frames that wait at one replica for blocks, at most; the oldest makes way. Fewer: a replica that is behind asks
/// again for what it had.
pub const MOST_WAITING_FRAMES: usize = 8192;

/// Bytes that they have together, at most, beside the one that came last.
pub const MOST_WAITING_BYTES: usize = 33_554_432;

/// Parcels that must be done before the same block is asked of the same sender again.
pub const ASK_AGAIN: u64 = 64;

/// Waiting frames that are passed, at most, on the way down to the block that is asked for.
pub const MOST_PASSED: usize = 64;

/// Frames that may wait without a worker's holding back, where another worker of its replica is busy.
pub const WORKER_CROWD: u64 = 512;

/// Milliseconds for which a worker holds back at most: what waits may lack a block that never comes.
pub const WORKER_HELD_MILLIS: u64 = 1000;

/// Proposals that wait at one replica for what gives them grounds, at most; the oldest makes way. Fewer: a faulty leader
/// drives out what a correct one proposed.
pub const MOST_UNFOUNDED: usize = 256;

/// Bytes that they have together, at most, beside the one that came last.
pub const MOST_UNFOUNDED_BYTES: usize = 8_388_608;
