//! When others follow one that is ahead in its view.

ghost use Rattle.std.specs.Prelude.{◌≡◌};
ghost use Rattle.clock.specs.Following.{follows, next_wait, no_forerunner, watched};

use tuning::{FOLLOW_MILLIS, MOST_FOLLOW_MILLIS};

/// Another replica, as far as it was seen to be in a later view than this one. A correct one that left a view before the others
/// votes no more in theirs; where liars vote in its place, they go on without it, and it falls behind. So they follow it after a
/// while: after twice as long each time, since a faulty one may be ahead whenever it likes.
#[derive(Clone, Copy, Debug, PartialEq, Eq)]
pub struct Forerunner {
    /// For how many milliseconds it has been ahead.
    ahead: u64,
    /// For how many others wait until they follow it.
    wait: u64,
    /// For how many it hasn't been ahead.
    level: u64,
}

impl Forerunner {
    /// It wasn't ahead yet.
    pub fn none() -> Forerunner
        ensures { result ≡ no_forerunner }
    {
        Forerunner {
            ahead: 0,
            wait: FOLLOW_MILLIS,
            level: 0,
        }
    }

    /// Whether others follow it, which is ahead now or isn't, so many milliseconds after it was looked at last.
    fn follows(&self, is_ahead: bool, passed: u64) -> bool
        ensures { result ≡ follows self.now is_ahead passed }
    {
        is_ahead && self.ahead.saturating_add(passed) >= self.wait
    }

    /// For how long others wait the next time: at first so long again once it hasn't been ahead for as long as they ever do.
    fn next_wait(&self, is_ahead: bool, passed: u64) -> u64
        ensures { result ≡ next_wait self.now is_ahead passed }
    {
        if self.follows(is_ahead, passed) {
            self.wait.saturating_mul(2).min(MOST_FOLLOW_MILLIS)
        } else if !is_ahead && self.level.saturating_add(passed) >= MOST_FOLLOW_MILLIS {
            FOLLOW_MILLIS
        } else {
            self.wait
        }
    }

    /// It is ahead now or isn't, so many milliseconds after it was looked at last. Whether others follow it.
    pub fn look(&mut self, is_ahead: bool, passed: u64) -> bool
        ensures follows { result ≡ follows self.old is_ahead passed }
        ensures watched { self.new ≡ watched self.old is_ahead passed }
    {
        let follows = self.follows(is_ahead, passed);
        let wait = self.next_wait(is_ahead, passed);
        *self = Forerunner {
            ahead: if is_ahead && !follows {
                self.ahead.saturating_add(passed)
            } else {
                0
            },
            wait,
            level: if is_ahead {
                0
            } else {
                self.level.saturating_add(passed)
            },
        };
        follows
    }
}
