//! Clients' requests and connections.

/// Times that a request is sent to all replicas before it is given up, and its seat is lost. Fewer: seats are lost
/// while views change.
pub const MOST_TRIES: u32 = 30;

/// Times that it is still sent when the link was found closed, for answers that are on their way.
pub const LATE_TRIES: u32 = 2;

/// Milliseconds that a client waits for replies before it sends its request again.
pub const REPLY_WAIT_MILLIS: u64 = 1000;

/// Requests that may wait at the links of more than f replicas without a client's holding back, so that these can catch
/// up. More: they fall behind.
pub const CLIENT_CROWD: usize = 1024;

/// Milliseconds for which a client holds back a request at most. Longer: f + 1 slow replicas slow all clients more.
pub const CLIENT_HELD_MILLIS: u64 = 20;

/// Milliseconds after which a connection that waits for its peer looks whether the server ends.
pub const CLOSED_LOOK_MILLIS: u64 = 500;

/// Milliseconds of one look for what a closed connection still brings: the system takes back what was written if
/// something unread is there when a socket goes.
pub const LINGER_MILLIS: u64 = 20;

/// Looks of that kind.
pub const LINGER_TIMES: u32 = 10;

/// Bytes that one look takes at most.
pub const LINGER_BYTES: usize = 1024;

/// Milliseconds for which a leader lets in no request of a client whose request found no certificate, the first time;
/// twice as many each further time. More: one that is slow, or whom faulty replicas hinder, waits longer. Fewer: faulty
/// clients cost the others more.
pub const BAR_MILLIS: u64 = 1000;

/// How often that is doubled, at most. More: who was faulty once waits longer.
pub const MOST_DOUBLINGS: u32 = 6;

/// By how many places of 256 two clients with neighbouring numbers are apart in the order of trials: odd, so that each has
/// a place of its own. Fewer: faulty clients with neighbouring numbers come one behind the other.
pub const TRIAL_STRIDE: u64 = 167;
