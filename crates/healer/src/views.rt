//! All correct replicas come into one view.

ghost use Rattle.std.specs.Prelude.{◌≡◌, ◌-◌, IfOk, OnOk, IfSome};
ghost use Rattle.ids.specs.Sizes.{replicas};
ghost use Rattle.recovery.specs.Correct.{amply, view_of};
ghost use Rattle.recovery.specs.Healing.{highest_view, next_led, view_to_come, timeouts, waits_until, come_to};
ghost use Rattle.healer.specs.Courses.{Goes, GoesWhere, ToldWhere, HasReplica, AreCorrect};

use crate::healer::Healer;
use ids::{Config, Fault, ReplicaId, View};
use world_schedule::Event;

/// The view that a replica is in.
fn view_of(healer: &Healer<'_>, replica: ReplicaId) -> View
    ensures { ToldWhere healer.now (HasReplica replica) (λ w. result ≡ view_of w replica) }
{
    match healer.replica(replica) {
        Some(replica) => replica.view(),
        None => View(0),
    }
}

/// The highest view of these replicas.
fn highest_view(healer: &Healer<'_>, replicas: &[ReplicaId]) -> View
    ensures { ToldWhere healer.now (AreCorrect replicas.now) (λ w. result ≡ highest_view w replicas.now) }
{
    let mut highest: u64 = 0;
    for replica in replicas {
        highest = highest.max(view_of(healer, *replica).0);
    }
    View(highest)
}

/// The first view from this one on that a replica leads. None where views are spent.
fn next_led(config: &Config, leader: ReplicaId, view: View) -> Option<View>
    ensures { IfSome result (λ v. v ≡ next_led (replicas config.now) leader view) }
{
    let n = u64::from(config.n());
    let steps = (u64::from(leader.0) + (n - view.0 % n)) % n;
    Some(View(view.0.checked_add(steps)?))
}

/// The first view above all those of correct replicas that this one leads. `Spent` where there is none.
pub(crate) fn view_to_come(
    healer: &Healer<'_>,
    correct: &[ReplicaId],
    leader: ReplicaId,
) -> Result<View, Fault>
    ensures { IfOk result (λ v. ToldWhere healer.now (AreCorrect correct.now) (λ w. v ≡ view_to_come leader w)) }
{
    let Some(above) = highest_view(healer, correct).0.checked_add(1) else {
        return Err(Fault::Spent);
    };
    match next_led(&healer.config(), leader, View(above)) {
        Some(view) => Ok(view),
        None => Err(Fault::Spent),
    }
}

/// Timeouts bring a replica from one view into another.
fn wait_from(
    healer: &mut Healer<'_>,
    from: View,
    view: View,
    replica: ReplicaId,
) -> Result<(), Fault>
    ensures origin { healer.new.origin ≡ healer.old.origin }
    ensures waited { OnOk result (Goes healer.old (λ w. amply (timeouts replica (view - from))) healer.new) }
{
    for _passed in from.0..view.0 {
        healer.take(Event::Timeout(replica))?;
    }
    Ok(())
}

/// Timeouts bring a replica into this view.
fn wait_until(healer: &mut Healer<'_>, view: View, replica: ReplicaId) -> Result<(), Fault>
    ensures origin { healer.new.origin ≡ healer.old.origin }
    ensures waited { OnOk result (GoesWhere healer.old (HasReplica replica) (waits_until view replica) healer.new) }
{
    let from = view_of(healer, replica);
    wait_from(healer, from, view, replica)
}

/// All correct replicas come into this view.
pub(crate) fn come_to(
    healer: &mut Healer<'_>,
    correct: &[ReplicaId],
    view: View,
) -> Result<(), Fault>
    ensures origin { healer.new.origin ≡ healer.old.origin }
    ensures came { OnOk result (GoesWhere healer.old (AreCorrect correct.now) (come_to view) healer.new) }
{
    for replica in correct {
        wait_until(healer, view, *replica)?;
    }
    Ok(())
}
