//! How a pool follows the chronicle of its replica.

ghost use Rattle.definitions.specs.Frames.{Command};
ghost use Rattle.definitions.specs.Branches.{Branch};
ghost use Rattle.definitions.specs.Histories.{History};
ghost use Rattle.definitions.specs.Chronicles.{Chronicle, Step};
ghost use Rattle.mempool.specs.Laws.{FollowsRequest, IsForgottenBy, IsLeftBy, IsPicked};

/// After a step that stores a request, the pending requests are those that `insert` leaves where
/// the request is due, and stay where it isn't.
pub fn request_joins_pending()
    ensures { (c : Chronicle) (r : Command) → FollowsRequest c r }
{}

/// After a lead nothing is pending, as `forget_all` leaves it.
pub fn lead_forgets_pending()
    ensures { (c : Chronicle) (b : Branch) → IsForgottenBy c b }
{}

/// After a step that brings no request and is no lead, the pending requests are those that
/// `drop_executed` leaves, called for each command that the step executes, in their order.
pub fn executed_leave_pending()
    ensures { (c : Chronicle) (s : Step) (new : History) → IsLeftBy c s new }
{}

/// What `pick` gives beside the commands along a branch is what a child of it takes. Where the
/// branch goes on from what was executed, its commands above that are enough.
pub fn pick_is_for_child()
    ensures { (c : Chronicle) (on : Branch) → IsPicked c on }
{}
