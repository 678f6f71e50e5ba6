//! Whether replicas can be judged.

ghost use Rattle.std.specs.Prelude.{◌≡◌, ◌≢◌, ◌↔◌, ◌≤◌, length, IsTrue};
ghost use Rattle.std.specs.List.{All};
ghost use Rattle.ids.specs.Sizes.{quorum};
ghost use Rattle.definitions.specs.Lists.{AreDistinct};
ghost use Rattle.audit_ground.specs.Law.{numbers};
ghost use Rattle.audit.specs.Judged.{judged_by, AreEnoughBy, IsHeld};

use ids::{Config, ReplicaId};
use replica::{Replica, Whole};

/// A replica that is handed in, with its past or without.
pub(crate) trait Judged {
    ghost use Rattle.replica.specs.Steps.{Held};

    // its keys and its state
    ghost held: { Self → Held };

    /// Which replica it is.
    fn number(&self) -> ReplicaId
        ensures { result ≡ (held self.now).keys.party };

    /// The sizes that it was made with.
    fn config(&self) -> Config
        ensures { result ≡ (held self.now).keys.sizes };

    /// Says that it is one of the replicas of its sizes, and that its chronicle is kept as an audit
    /// wants it, and does nothing else.
    fn holds(&self)
        ensures { IsHeld (held self.now) };
}

impl Judged for Replica {
    ghost held = { λ r. r };

    fn number(&self) -> ReplicaId {
        Replica::number(self)
    }

    fn config(&self) -> Config {
        Replica::config(self)
    }

    fn holds(&self) {
        Replica::holds(self);
    }
}

impl<'a> Judged for Whole<'a> {
    ghost held = { λ r. r };

    fn number(&self) -> ReplicaId {
        Whole::number(self)
    }

    fn config(&self) -> Config {
        Whole::config(self)
    }

    fn holds(&self) {
        Whole::holds(self);
    }
}

/// Says what holds of each replica, and does nothing else.
pub(crate) fn hold<J: Judged>(replicas: &[&J])
    ensures { All (λ r. IsHeld (J.held r.now)) replicas.now }
{
    for replica in replicas {
        // For the proof: its chronicle is lawful.
        replica.holds();
    }
}

/// Whether each has these sizes.
fn have_sizes<J: Judged>(replicas: &[&J], config: Config) -> bool
    ensures { IsTrue result ↔ All (λ r. (J.held r.now).keys.sizes ≡ config) replicas.now }
{
    replicas.iter().all(|replica| replica.config() == config)
}

/// Whether none of them has this number.
fn is_free<J: Judged>(replicas: &[&J], number: ReplicaId) -> bool
    ensures { IsTrue result ↔ All (λ r. (J.held r.now).keys.party ≢ number) replicas.now }
{
    replicas.iter().all(|replica| replica.number() != number)
}

/// Whether each has a number of its own.
fn are_distinct<J: Judged>(replicas: &[&J]) -> bool
    ensures { IsTrue result ↔ AreDistinct (numbers (judged_by J.held replicas.now)) }
{
    for (i, replica) in replicas.iter().enumerate() {
        if !is_free(&replicas[i + 1..], replica.number()) {
            return false;
        }
    }
    true
}

/// Whether they are at least a quorum of these sizes.
fn are_quorum<J: Judged>(replicas: &[&J], config: Config) -> bool
    ensures { IsTrue result ↔ quorum config ≤ length replicas.now }
{
    replicas.len() >= usize::from(config.quorum())
}

/// Whether these can be judged: at least a quorum of replicas of the same sizes, each once.
pub(crate) fn are_enough<J: Judged>(replicas: &[&J]) -> bool
    ensures { IsTrue result ↔ AreEnoughBy J.held replicas.now }
{
    let Some(first) = replicas.first() else {
        return false;
    };
    let config = first.config();
    have_sizes(replicas, config) && are_quorum(replicas, config) && are_distinct(replicas)
}
