use ids::ReplicaId;
use std::fmt;

/// What is wrong with a run. Events and places are counted from 1.
#[derive(Clone, Copy)]
pub(crate) enum Wrong {
    /// A refused replica took the input of this event.
    GoesOn(u64),
    /// A replica that had no reason to stop answers this event as one that stopped.
    Stopped(u64),
    /// A frame was sent in this event, which was refused.
    Sent(u64),
    /// This replica's history forks.
    Forks(ReplicaId),
    /// What stands at this place was not submitted.
    NotSubmitted(u64),
    /// This event answers what was not submitted before.
    Foretold(u64),
    /// The receipt of this event is not for its place.
    Misplaced(u64),
    /// The receipt of this event has another text.
    Misread(u64),
    /// What stands at this place was submitted after a later one was accepted.
    OutOfOrder(u64),
}

impl Wrong {
    /// The words before its number, the number, and the words behind it.
    fn words(self) -> (&'static str, u64, &'static str) {
        match self {
            Wrong::GoesOn(event) => ("event ", event, "came to a refused replica that goes on"),
            Wrong::Stopped(event) => (
                "event ",
                event,
                "came to a replica that stopped for nothing",
            ),
            Wrong::Sent(event) => ("event ", event, "was refused, and sent a frame"),
            Wrong::Forks(replica) => ("the history of r", u64::from(replica.0), "forks"),
            Wrong::NotSubmitted(place) => ("place ", place, "was not submitted"),
            Wrong::Foretold(event) => ("event ", event, "answers what was not submitted before"),
            Wrong::Misplaced(event) => ("the receipt of event ", event, "is not for its place"),
            Wrong::Misread(event) => ("the receipt of event ", event, "has another text"),
            Wrong::OutOfOrder(place) => {
                (
                    "place ",
                    place,
                    "was submitted after a later one was accepted",
                )
            }
        }
    }
}

impl fmt::Display for Wrong {
    fn fmt<W: fmt::Write>(&self, f: &mut fmt::Formatter<W>) -> fmt::Result {
        let (before, number, behind) = self.words();
        write!(f, "{before}{number} {behind}")
    }
}
