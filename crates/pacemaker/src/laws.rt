//! How a pacemaker follows the chronicle of its replica.

ghost use Rattle.std.specs.Prelude.{◌∷◌};
ghost use Rattle.definitions.specs.Chronicles.{Chronicle, Step};
ghost use Rattle.pacemaker.specs.Pacing.{Pace, IsPaceOf, LeavesPace};

/// After a step that is no timeout and brings no announcement, the pace is as before.
pub fn other_steps_keep_the_pace()
    ensures { (st : Step) (c : Chronicle) (p : Pace) → LeavesPace st → IsPaceOf c p → IsPaceOf (st ∷ c) p }
{}
