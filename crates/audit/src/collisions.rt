//! Collisions: two unequal cores of one digest. No fork was ever seen to be due to one.

ghost use Rattle.std.specs.Prelude.{◌≡◌, ◌↔◌, IsTrue, MatchOption, option_map};
ghost use Rattle.definitions.specs.Frames.{Core};
ghost use Rattle.definitions.specs.Digests.{NoCollision};
ghost use Rattle.definitions.specs.Audit.{chronicle_of, core_in, core_at, step_after, IsCollision, Holds};
ghost use Rattle.definitions.specs.Lists.{Among, AreDistinct};
ghost use Rattle.audit_ground.specs.Law.{KnownTo, numbers};
ghost use Rattle.audit.specs.Judged.{member_of, judged};
ghost use Rattle.audit.specs.Cores.{known, Stores, Collide, CollidesAt};
ghost use Rattle.audit.specs.Verdicts.{place_of, reason_of};

use crate::chronicles::step_after;
use crate::cores::KnownCore;
use crate::members::chronicle_of;
use crate::verdict::{CorePlace, Reason};
use ids::ReplicaId;
use replica::{ChronicleView, Whole};

/// The core that a replica stored in a step.
fn stored_core<'a>(
    replicas: &[&'a Whole<'a>],
    number: ReplicaId,
    step: usize,
) -> Option<KnownCore<'a>>
    ensures { option_map known result
        ≡ core_in (step_after step (chronicle_of (judged replicas.now) number)) }
{
    let step = step_after(chronicle_of(replicas, number)?, step)?;
    let core = step.core()?;
    Some(KnownCore::Block(core))
}

/// The core at a place.
fn core_at<'a>(replicas: &[&'a Whole<'a>], place: &CorePlace) -> Option<KnownCore<'a>>
    ensures { option_map known result ≡ core_at (judged replicas.now) (place_of place.now) }
{
    match place {
        CorePlace::Genesis => Some(KnownCore::Genesis),
        CorePlace::Step { replica, step } => stored_core(replicas, *replica, *step),
    }
}

/// Whether two unequal cores of one digest stand at these places.
pub(crate) fn is_collision(replicas: &[&Whole<'_>], first: &CorePlace, second: &CorePlace) -> bool
    ensures { IsTrue result ↔ IsCollision (judged replicas.now) (place_of first.now) (place_of second.now) }
{
    match (core_at(replicas, first), core_at(replicas, second)) {
        (Some(a), Some(b)) => a.collides_with(&b),
        _ => false,
    }
}

/// The step of a chronicle that stored a core which collides with this one.
fn collides_in(chronicle: ChronicleView<'_>, core: &KnownCore<'_>) -> Option<usize>
    ensures { MatchOption result
        ((b : Core) → Stores chronicle.entry b → Collide (known core.now) b → ⊥)
        (λ k. (b : Core) × (core_in (step_after k chronicle.entry) ≡ Some b) × Collide (known core.now) b) }
{
    let mut earlier = chronicle;
    while let Some(step) = earlier.next() {
        if let Some(other) = step.core() {
            if core.collides_with(&KnownCore::Block(other)) {
                return Some(earlier.len());
            }
        }
    }
    None
}

/// The place of a core that collides with this one.
fn collides_at(replicas: &[&Whole<'_>], core: &KnownCore<'_>) -> Option<CorePlace>
    requires { AreDistinct (numbers (judged replicas.now)) }
    ensures { MatchOption result
        ((b : Core) → KnownTo (judged replicas.now) b → Collide (known core.now) b → ⊥)
        (λ p. CollidesAt (judged replicas.now) (known core.now) (place_of p)) }
{
    if core.collides_with(&KnownCore::Genesis) {
        return Some(CorePlace::Genesis);
    }
    for replica in replicas {
        if let Some(step) = collides_in(replica.chronicle(), core) {
            let replica = replica.number();
            return Some(CorePlace::Step { replica, step });
        }
    }
    None
}

/// A collision of a core that a replica stored.
fn collision_of(replicas: &[&Whole<'_>], replica: &Whole<'_>) -> Option<Reason>
    requires distinct { AreDistinct (numbers (judged replicas.now)) }
    requires member { Among (member_of replica.now) (judged replicas.now) }
    ensures { MatchOption result
        ((a b : Core) → Stores replica.now.replica.chronicle a → KnownTo (judged replicas.now) b
        → Collide a b → ⊥)
        (λ r. Holds (judged replicas.now) (reason_of r)) }
{
    let number = replica.number();
    let mut earlier = replica.chronicle();
    while let Some(step) = earlier.next() {
        if let Some(core) = step.core() {
            if let Some(second) = collides_at(replicas, &KnownCore::Block(core)) {
                let first = CorePlace::Step {
                    replica: number,
                    step: earlier.len(),
                };
                return Some(Reason::Collision { first, second });
            }
        }
    }
    None
}

/// A collision of two cores that judged replicas know.
pub(crate) fn find_collision(replicas: &[&Whole<'_>]) -> Option<Reason>
    requires { AreDistinct (numbers (judged replicas.now)) }
    ensures { MatchOption result (NoCollision (KnownTo (judged replicas.now)))
        (λ r. Holds (judged replicas.now) (reason_of r)) }
{
    if let Some(second) = collides_at(replicas, &KnownCore::Genesis) {
        let first = CorePlace::Genesis;
        return Some(Reason::Collision { first, second });
    }
    for replica in replicas {
        if let Some(reason) = collision_of(replicas, replica) {
            return Some(reason);
        }
    }
    None
}
