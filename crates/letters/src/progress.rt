use ids::{Height, View};

/// How far a replica is.
#[derive(Clone, Copy, Debug, PartialEq, Eq)]
pub struct Progress {
    /// The height that it executed.
    pub height: Height,
    /// What it forgot of its tree lies below this one.
    pub horizon: Height,
    /// The lowest height that it recorded.
    pub recorded: Height,
    pub view: View,
    /// Whether it goes on: it hasn't stopped.
    pub goes_on: bool,
    /// Whether it is far behind.
    pub is_away: bool,
}
