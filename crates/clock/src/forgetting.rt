//! Up to where a replica may forget.

ghost use Rattle.std.specs.Prelude.{◌≡◌, fold, max};
ghost use Rattle.clock.specs.Pruning as pruning;

use crate::watch::Pulse;
use ids::Height;
use tuning::WINDOW_SLACK;

/// How many heights below its last executed block a replica keeps.
#[derive(Clone, Copy, Debug, PartialEq, Eq)]
pub struct Keep {
    /// So many in any case.
    pub window: u64,
    /// So many for replicas that are behind, at most.
    pub most: u64,
}

/// Whether a replica that has executed up to this height doesn't find its next block any more where others have this
/// horizon.
pub fn lacks_next(horizon: Height, height: Height) -> bool
    ensures { result ≡ pruning.lacks_next horizon height }
{
    let kept = horizon.lowest_kept().0;
    kept > 1 && height.0 < kept - 1
}

/// The height that a replica shows of which this is seen: the last that it has executed. One that goes on no more needs
/// nothing, and shows the greatest.
pub(crate) fn shown_by(pulse: Pulse) -> Height
    ensures { result ≡ pruning.shown_by pulse }
{
    if pulse.stopped.is_some() {
        Height(u64::MAX)
    } else {
        pulse.height
    }
}

/// The lesser of two heights, as long as who shows the second one finds its next block.
fn slower(horizon: Height, least: Height, height: Height) -> Height
    ensures { result ≡ pruning.slower horizon least height }
{
    if lacks_next(horizon, height) {
        least
    } else {
        Height(least.0.min(height.0))
    }
}

/// The least height that was executed, by a replica of which this is seen, or by one that shows its height and still
/// finds its next block there.
fn slowest(shown: &[Height], pulse: &Pulse) -> Height
    ensures { result ≡ pruning.slowest shown.now pulse.now }
{
    let mut least = pulse.height;
    for height in shown {
        least = slower(pulse.horizon, least, *height);
    }
    least
}

/// Up to where a replica may forget that is to keep so much, where this is seen of it and these heights were executed by
/// the others.
fn forgettable(keep: Keep, shown: &[Height], pulse: &Pulse) -> u64
    ensures { result ≡ pruning.forgettable keep shown.now pulse.now }
{
    let needed = slowest(shown, pulse).0.saturating_sub(keep.window);
    let most = keep.window.max(keep.most);
    needed.max(pulse.height.0.saturating_sub(most))
}

/// The height up to which a replica is to forget: what lies a window below its own last executed block and those of the
/// replicas that are behind it, or more than the most that it keeps below its own. One that doesn't find its next block
/// any more is waited for no longer.
///
/// None until that is a part of the window, one in `WINDOW_SLACK`, so that it isn't asked for each block.
pub fn prune_at(keep: Keep, shown: &[Height], pulse: &Pulse) -> Option<Height>
    ensures { result ≡ pruning.prune_at keep shown.now pulse.now }
{
    let up_to = forgettable(keep, shown, pulse);
    if up_to > pulse.horizon.0.saturating_add(keep.window / WINDOW_SLACK) {
        Some(Height(up_to))
    } else {
        None
    }
}
