//! Votes that are counted and weren't given in time, and blocks that their senders hadn't taken.

ghost use Rattle.std.specs.Prelude.{◌≡◌, ◌↔◌, None, IsTrue, MatchOption};
ghost use Rattle.definitions.specs.Audit.{chronicle_of, step_after, AreFronts, Holds};
ghost use Rattle.audit_ground.specs.Law.{NoneUnbacked};
ghost use Rattle.audit.specs.Judged.{judged};
ghost use Rattle.audit.specs.Deeds.{reason_for};
ghost use Rattle.audit.specs.Fronts.{cut_of};
ghost use Rattle.audit.specs.Verdicts.{reason_of};

use crate::deeds::Deed;
use crate::fronts::{Row, fronts, missing, next_step, stands};
use crate::verdict::Reason;
use ids::{Digest, ReplicaId};
use replica::Whole;

/// What a replica's first step behind its front relies on and is missing, where its front isn't whole.
fn unbacked_of(replicas: &[&Whole<'_>], fronts: &Row, receiver: ReplicaId) -> Option<Reason>
    requires { AreFronts (judged replicas.now) (cut_of fronts.now) }
    ensures { MatchOption result
        (step_after (cut_of fronts.now receiver) (chronicle_of (judged replicas.now) receiver) ≡ None)
        (λ r. Holds (judged replicas.now) (reason_of r)) }
{
    let step = next_step(replicas, fronts, receiver)?;
    let missing = missing(replicas, fronts, &step)?;
    Some(missing.reason(receiver))
}

/// An unbacked vote or an untaken block: of the first replica whose front isn't whole, and of the first voter, or else
/// of the first sender.
pub(crate) fn find_unbacked(replicas: &[&Whole<'_>]) -> Option<Reason>
    ensures { MatchOption result (NoneUnbacked (judged replicas.now))
        (λ r. Holds (judged replicas.now) (reason_of r)) }
{
    let fronts = fronts(replicas);
    for replica in replicas {
        if let Some(reason) = unbacked_of(replicas, &fronts, replica.number()) {
            return Some(reason);
        }
    }
    None
}

/// Whether a replica's deed is missing at the receiver's front.
pub(crate) fn is_unbacked(
    replicas: &[&Whole<'_>],
    receiver: ReplicaId,
    deed: Deed,
    block: &Digest,
    replica: ReplicaId,
) -> bool
    ensures { IsTrue result ↔ Holds (judged replicas.now) (reason_for receiver deed replica block.now) }
{
    let fronts = fronts(replicas);
    match next_step(replicas, &fronts, receiver) {
        Some(step) => {
            deed.names(&step, block, replica) && !stands(replicas, &fronts, deed, block, replica)
        }
        None => false,
    }
}
