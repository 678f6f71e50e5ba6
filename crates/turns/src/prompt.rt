//! What a replica does by itself.

use ids::View;

/// What a clock or a worker prompts a replica to do by itself. When its turn comes, what it is for may be over.
#[derive(Clone, Copy, Debug, PartialEq, Eq)]
pub enum Prompt {
    /// To propose, where a beat brings something at once, as `Replica::wants_beat_now` says.
    Beat,
    /// To leave this view, where the replica is in it. If another timeout has ended it, one more step would end the
    /// next view, which has just begun.
    Timeout(View),
}
