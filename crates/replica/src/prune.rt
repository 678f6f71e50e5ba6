//! Pruning the tree.

ghost use Rattle.std.specs.Prelude.{◌≡◌};
ghost use Rattle.replica.specs.Prunings.{horizon_at, prune_change};

use crate::change::{Change, Growth};
use crate::state::State;
use crate::stored::StoredStep;
use ids::Height;
use signed_frames::Out;

/// The horizon that a pruning to this height leaves: no higher than the last executed block, and never lower
/// than it was.
fn horizon_at(state: &State, height: Height) -> Height
    ensures { result ≡ horizon_at state.now.variables height }
{
    let executed = state.rules.executed().height;
    Height(height.0.min(executed.0).max(state.tree.horizon().0))
}

/// What leave to prune comes to: it always stands, and sends nothing.
pub(crate) fn decide_prune(state: &State, height: Height) -> Change
    ensures { result ≡ prune_change state.now.variables height }
{
    Change {
        growth: Growth::Prune(horizon_at(state, height)),
        ..Change::noting(state, StoredStep::Pruned(height), Out::none(state.alloc))
    }
}
