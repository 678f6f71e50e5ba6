//! What an operator is told.

/// Seconds in which each warning of a replica, and that views passed, is told once at most.
pub const WARNING_PAUSE_SECONDS: u64 = 60;

/// Milliseconds between two looks whether the thread that tells is to end.
pub const STATUS_LOOK_MILLIS: u64 = 100;

/// Such looks between two looks at all replicas: a second.
pub const STATUS_LOOKS: u64 = 10;

/// Seconds between two lines that tell how far a replica is that catches up.
pub const BEHIND_TOLD_SECONDS: u64 = 10;

/// Seconds in which a replica that is far behind executed nothing, behind which it is told that it is stuck: all others
/// were asked in that time. Fewer: one that waits for a slow answer is told of.
pub const VAIN_SECONDS: u64 = 10;
