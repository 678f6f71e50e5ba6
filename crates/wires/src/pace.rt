use std::time::Duration;
use tuning::{
    BAR_MILLIS, HANDSHAKE_MILLIS, MOST_REDIAL_MILLIS, PING_MILLIS, REDIAL_MILLIS, SILENCE_MILLIS,
    STUCK_MILLIS, WIRE_PLACES,
};

/// How long one end of a link waits for the other, and how many may wait at its door.
#[derive(Clone, Copy)]
pub struct Pace {
    /// What a connection has for being made, and then for its handshake, in all.
    pub handshake: Duration,
    /// After so long without a frame a ping goes out.
    pub ping: Duration,
    /// A connection over which nothing came for so long ends.
    pub silence: Duration,
    /// A connection to which nothing could be written for so long ends.
    pub stuck: Duration,
    /// How long it is before a peer is dialled again, the first time. It doubles.
    pub redial: Duration,
    /// How long it is at most. A link that lasted so long was no failure.
    pub most_redial: Duration,
    /// How long a peer stays out that told a length that no item has, the first time. It doubles (`MOST_DOUBLINGS`).
    pub bar: Duration,
    /// How many connections of one named address, and of all strangers, may be at their handshakes.
    pub places: usize,
}

impl Pace {
    /// That of the running server (`tuning`).
    pub fn usual() -> Pace {
        Pace {
            handshake: Duration::from_millis(HANDSHAKE_MILLIS),
            ping: Duration::from_millis(PING_MILLIS),
            silence: Duration::from_millis(SILENCE_MILLIS),
            stuck: Duration::from_millis(STUCK_MILLIS),
            redial: Duration::from_millis(REDIAL_MILLIS),
            most_redial: Duration::from_millis(MOST_REDIAL_MILLIS),
            bar: Duration::from_millis(BAR_MILLIS),
            places: WIRE_PLACES,
        }
    }
}
