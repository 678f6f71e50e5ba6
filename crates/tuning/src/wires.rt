//! Links between processes: frames over TCP.

/// Milliseconds that a connection has for its handshake, in all; and for being made. Fewer: peers far away stay out.
/// More: who says nothing holds a place longer.
pub const HANDSHAKE_MILLIS: u64 = 2000;

/// Milliseconds of nothing to send behind which a ping goes out. More: a silence is noticed later.
pub const PING_MILLIS: u64 = 1000;

/// Milliseconds in which nothing comes, not even a ping, behind which a connection ends. Fewer than a few pings: one
/// that is alive ends. More: what goes to a peer that is gone is lost longer.
pub const SILENCE_MILLIS: u64 = 5000;

/// Milliseconds in which a write moves nothing, behind which a connection ends. Fewer: a peer that is slow for a moment
/// loses what is under way.
pub const STUCK_MILLIS: u64 = 2000;

/// Milliseconds before a peer is dialled again, the first time; twice as many each further time.
pub const REDIAL_MILLIS: u64 = 50;

/// Milliseconds before a peer is dialled again, at most. More: one that came back is found later.
pub const MOST_REDIAL_MILLIS: u64 = 2000;

/// Milliseconds between two looks whether a full row has room again, and whether a handshake goes on.
pub const ROOM_LOOK_MILLIS: u64 = 2;

/// Bytes that are read from a socket, and written to one, at once. Fewer: more calls of the system.
pub const WIRE_PIECE_BYTES: usize = 65_536;

/// Connections of one named address, or of all strangers together, that may be at their handshakes. Fewer: a crowd
/// drives out a peer of the same address. More: more sockets are held.
pub const WIRE_PLACES: usize = 32;

/// Bytes of frames that wait for a replica that is away, at most; more is lost. Less: a replica that is away for a moment asks
/// for more. More: more memory.
pub const REPLICA_BACKLOG_BYTES: usize = 268_435_456;

/// Bytes of replies that wait for a front; more is lost. Less than what its clients wait for: they ask again.
pub const FRONT_BACKLOG_BYTES: usize = 16_777_216;

/// Milliseconds between two times that a replica tells the others how far it is. Fewer: more frames. More: clocks see others later.
pub const TELL_MILLIS: u64 = 20;

/// Milliseconds between two looks into a state directory, at what is asked there. Fewer: more work. More: answers come later.
pub const ASK_LOOK_MILLIS: u64 = 200;

/// Looks for which who asks waits for an answer. Fewer: a busy process seems to be none. More: it is told later that there is none.
pub const ASK_LOOKS: u64 = 100;

/// Numbers that a front marks ahead of those that its clients give. Fewer: the disk is waited for more often. More: nothing but
/// higher numbers after a restart.
pub const NUMBERS_AHEAD: u64 = 1_048_576;

/// Milliseconds for which a front that reaches too few replicas takes requests still. Fewer: a moment's cut refuses some. More:
/// clients wait in vain for longer.
pub const UNREACHED_MILLIS: u64 = 2000;
