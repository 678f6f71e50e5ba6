//! How long it is before a peer is dialled again.

ghost use Rattle.std.specs.Prelude.{◌≡◌};

use crate::pace::Pace;
use std::time::Duration;

/// The pause before the next dial.
#[derive(Clone, Copy)]
pub(crate) struct Backoff {
    first: Duration,
    most: Duration,
    pause: Duration,
}

impl Backoff {
    /// Before the first dial there is none.
    pub(crate) fn new(pace: &Pace) -> Backoff {
        Backoff {
            first: pace.redial,
            most: pace.most_redial,
            pause: Duration::ZERO,
        }
    }

    /// How long it is before the next dial.
    pub(crate) fn pause(&self) -> Duration
        ensures { result ≡ self.now.pause }
    {
        self.pause
    }

    /// A dial was in vain, or its link lasted so long.
    pub(crate) fn ended(&mut self, lasted: Duration) {
        self.pause = if lasted >= self.most || self.pause.is_zero() {
            self.first
        } else {
            self.pause.saturating_mul(2).min(self.most)
        };
    }
}
