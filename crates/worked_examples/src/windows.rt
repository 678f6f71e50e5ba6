//! What stands of a tree above a horizon, and what further blocks come to there.

ghost use Rattle.worked_examples.specs.Windows.{TwoBelowStand, GenesisStays, JustifiesTheHorizon};
ghost use Rattle.worked_examples.specs.Windows.{JustifiesBelow, OtherTests, BeforeThePruning};

/// Two heights below the horizon stand, and genesis always does.
pub fn two_heights_below_the_horizon_stand()
    ensures window { TwoBelowStand }
    ensures genesis { GenesisStays }
{}

/// A block that justifies one below the horizon is refused, whether it stands or not; of the others the
/// other tests decide.
pub fn what_justifies_below_the_horizon_is_refused()
    ensures above { JustifiesTheHorizon }
    ensures below { JustifiesBelow }
    ensures others { OtherTests }
    ensures before { BeforeThePruning }
{}
