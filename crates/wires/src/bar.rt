//! How long a peer stays out that told a length that no item has.

ghost use Rattle.std.specs.Prelude.{◌≡◌, ◌-◌, nat_lt};
ghost use Rattle.wires.specs.Barring.{bar_after, bar_of, lengthened, times_by};

use crate::end::End;
use tuning::MOST_DOUBLINGS;

/// Until when a peer stays out. Moments are milliseconds.
#[derive(Clone, Copy, Debug, PartialEq, Eq)]
pub(crate) struct Bar {
    /// For how long it stays out the first time.
    first: u64,
    until: u64,
    /// How often it told such a length before, each time soon after it was let in again.
    times: u32,
}

/// How many milliseconds a peer stays out that told such a length so often before, by those of the first time.
fn bar_of(first: u64, times: u32) -> u64
    ensures { result ≡ bar_of first times }
{
    first.saturating_mul(1 << times.min(MOST_DOUBLINGS))
}

impl Bar {
    /// It told none, and stays out for so many milliseconds the first time.
    pub(crate) fn none(first: u64) -> Bar
        ensures { result ≡ record { first = first; until = 0; times = 0 } }
    {
        Bar {
            first,
            until: 0,
            times: 0,
        }
    }

    /// Whether the peer stays out at a moment.
    pub(crate) fn is_on(self, now: u64) -> bool
        ensures { result ≡ nat_lt now self.until }
    {
        now < self.until
    }

    /// For how many milliseconds it still does.
    pub(crate) fn left(self, now: u64) -> u64
        ensures { result ≡ self.until - now }
    {
        self.until.saturating_sub(now)
    }

    /// How often it counts as having told one by a moment.
    fn times_by(self, now: u64) -> u32
        ensures { result ≡ times_by self now }
    {
        if now.saturating_sub(self.until) >= bar_of(self.first, MOST_DOUBLINGS) {
            0
        } else {
            self.times
        }
    }

    /// It told one more.
    fn lengthened(self, now: u64) -> Bar
        ensures { result ≡ lengthened self now }
    {
        let times = self.times_by(now);
        Bar {
            first: self.first,
            until: now.saturating_add(bar_of(self.first, times)),
            times: times.saturating_add(1),
        }
    }

    /// Its connection ended so.
    pub(crate) fn after(self, end: End, now: u64) -> Bar
        ensures { result ≡ bar_after self end now }
    {
        match end {
            End::BadLength => self.lengthened(now),
            End::Closed | End::Failed | End::Memory => self,
        }
    }
}
