//! The audit.

ghost use Rattle.std.specs.Prelude.{◌≡◌, ◌↔◌, IsOk, IfOk, OnErr, IsTrue, MatchOption};
ghost use Rattle.definitions.specs.Lists.{AreDistinct};
ghost use Rattle.definitions.specs.Digests.{NoCollision};
ghost use Rattle.definitions.specs.Audit.{IsVerdict, Holds};
ghost use Rattle.audit_ground.specs.Law.{numbers, KnownTo, NoneUnbacked};
ghost use Rattle.audit.specs.Judged.{judged, AreEnough};
ghost use Rattle.audit.specs.Verdicts.{reason_of, verdict_of};

use crate::collisions::{find_collision, is_collision};
use crate::deeds::Deed;
use crate::enough::{are_enough, hold};
use crate::histories::histories_agree;
use crate::unbacked::{find_unbacked, is_unbacked};
use crate::verdict::{Reason, Verdict};
use ids::Fault;
use replica::Whole;

/// A reason for a fork: an unbacked vote or an untaken block, or else a collision.
fn find_reason(replicas: &[&Whole<'_>]) -> Option<Reason>
    requires { AreDistinct (numbers (judged replicas.now)) }
    ensures { MatchOption result
        (NoneUnbacked (judged replicas.now) × NoCollision (KnownTo (judged replicas.now)))
        (λ r. Holds (judged replicas.now) (reason_of r)) }
{
    match find_unbacked(replicas) {
        Some(reason) => Some(reason),
        None => find_collision(replicas),
    }
}

/// Whether the histories of these replicas are beginnings of one another, and a reason where they fork.
///
/// It is refused with `TooFew` where there is none, fewer than `n - f`, a replica twice, or replicas of
/// other sizes. Replicas that aren't handed in may have lied. It takes no memory; where histories agree
/// it takes one pass over them for each pair, and where they fork a time that grows with the square of
/// the number of steps.
pub fn judge(replicas: &[&Whole<'_>]) -> Result<Verdict, Fault>
    ensures judged { IsOk result ↔ AreEnough replicas.now }
    ensures refused { OnErr result (result ≡ Err Fault.TooFew) }
    ensures verdict { IfOk result (λ v. IsVerdict (judged replicas.now) (verdict_of v)) }
{
    if !are_enough(replicas) {
        return Err(Fault::TooFew);
    }
    hold(replicas);
    if histories_agree(replicas) {
        return Ok(Verdict::Agree);
    }
    match find_reason(replicas) {
        Some(reason) => Ok(Verdict::Fork(reason)),
        None => Ok(Verdict::Agree),
    }
}

/// Whether a reason holds of these replicas, as it does of those that were judged.
///
/// It doesn't where they can't be judged, or where one that the reason names isn't among them.
pub fn check_reason(replicas: &[&Whole<'_>], reason: &Reason) -> bool
    ensures { IsTrue result ↔ (AreEnough replicas.now × Holds (judged replicas.now) (reason_of reason.now)) }
{
    if !are_enough(replicas) {
        return false;
    }
    match reason {
        Reason::Vote {
            receiver,
            voter,
            digest,
        } => is_unbacked(replicas, *receiver, Deed::Vote, digest, *voter),
        Reason::Take {
            receiver,
            sender,
            digest,
        } => is_unbacked(replicas, *receiver, Deed::Take, digest, *sender),
        Reason::Collision { first, second } => is_collision(replicas, first, second),
    }
}
