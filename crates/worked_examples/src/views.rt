//! The pacemaker: which view a replica is in.

ghost use Rattle.worked_examples.specs.Views.{OneAlone, TwoTogether, Lower, TimesOut, StaysGreatest};

/// Of four replicas, two that announced or passed a view take the others there.
pub fn two_announcements_move_the_view()
    ensures alone { OneAlone }
    ensures together { TwoTogether }
    ensures lower { Lower }
{}

/// A timeout adds one, and not past 2^64 - 1.
pub fn a_timeout_adds_one()
    ensures adds { TimesOut }
    ensures greatest { StaysGreatest }
{}
