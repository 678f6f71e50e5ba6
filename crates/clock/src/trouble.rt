//! When others may lie.

ghost use Rattle.std.specs.Prelude.{◌≡◌, nat_lt};
ghost use Rattle.clock.specs.Troubled.{lasts_after, met, no_trouble, seen, until_after};

use ids::View;
use tuning::{MOST_DOUBLINGS, TROUBLE_MILLIS};

/// Until when there is trouble around a replica: its view ended a short while ago, or a certificate came that isn't good for
/// it. While there is, its votes go to all, so that each replica can count a quorum itself. It knows nobody's guilt.
///
/// Where it comes again within as long a time as the last one lasted at least, it lasts twice as long: a liar that does harm
/// whenever trouble is over costs a pause ever more rarely.
#[derive(Clone, Copy, Debug, PartialEq, Eq)]
pub struct Trouble {
    /// The view that it was in when it was looked at last.
    view: View,
    /// How many certificates weren't good for it until then.
    doubted: u64,
    /// In milliseconds.
    until: u64,
    /// How long it lasts, at least: so many milliseconds. None before the first.
    lasts: u64,
}

impl Trouble {
    /// None was met.
    pub fn none() -> Trouble
        ensures { result ≡ no_trouble }
    {
        Trouble {
            view: View(0),
            doubted: 0,
            until: 0,
            lasts: 0,
        }
    }

    /// How long trouble lasts that is met at a moment: as long as before while it goes on, twice as long where it comes again
    /// soon.
    fn lasts_after(&self, now: u64) -> u64
        ensures { result ≡ lasts_after self.now now }
    {
        if now < self.until {
            self.lasts
        } else if now - self.until < self.lasts {
            let most = TROUBLE_MILLIS << MOST_DOUBLINGS;
            self.lasts.saturating_mul(2).min(most)
        } else {
            TROUBLE_MILLIS
        }
    }

    /// Whether its view is another one than before, or a certificate came that wasn't good for it.
    fn is_met(&self, view: View, doubted: u64) -> bool
        ensures { result ≡ met self.now view doubted }
    {
        view.0 != self.view.0 || doubted != self.doubted
    }

    /// Whether there is trouble around a replica that is in this view at a moment, in milliseconds, and to which so many
    /// certificates weren't good so far.
    pub fn look(&mut self, now: u64, view: View, doubted: u64) -> bool
        ensures trouble { result ≡ nat_lt now (until_after self.old now view doubted) }
        ensures new { self.new ≡ seen self.old now view doubted }
    {
        let (mut until, mut lasts) = (self.until, self.lasts);
        if self.is_met(view, doubted) {
            lasts = self.lasts_after(now);
            until = now.saturating_add(lasts);
        }
        *self = Trouble {
            view,
            doubted,
            until,
            lasts,
        };
        now < until
    }
}
