//! What events bring to a replica.

ghost use Rattle.std.specs.Prelude.{◌≡◌, ◌<◌, IfSome, IfOk, OnErr};
ghost use Rattle.ids.specs.Sizes.{replicas};
ghost use Rattle.definitions.specs.Admission.{passes};
ghost use Rattle.definitions.specs.Checks.{identity_of};
ghost use Rattle.admission.specs.Inputs.{input_of};
ghost use Rattle.world_schedule.specs.Turns.{Takes, TakesBytes, IsMove, asked_by};
ghost use Rattle.world_schedule.specs.Asking.{Asks, is_lack, Refuses, TellsAnswer, checks_of};

use crate::effect::Effect;
use crate::replica_party::ReplicaParty;
use crate::way::Way;
use admission::missing;
use ids::{Digest, Fault, Kind, ReplicaId};
use replica::{Input, Out, Replica, Sending, To};
use std::alloc::Global;

/// The effect of a refusal for want of a block: the question for it, to this replica. It is left out where
/// that is the replica itself, or where memory for it is refused.
#[tactic(auto, unfolding(definitions::specs::Sendings::fetch_frame))]
fn ask(alloc: Global, replica: &Replica, to: ReplicaId, block: &Digest) -> Result<Effect, Fault>
    requires { to < replicas replica.now.keys.sizes }
    ensures asked { IfOk result (λ e. Asks (identity_of replica.now.keys) to block.now e) }
    ensures memory { OnErr result (result ≡ Err Fault.Memory) }
{
    let refused = Some(Fault::UnknownParent);
    if to == replica.number() {
        return Ok(Effect::only(alloc, refused));
    }
    match replica.write_fetch(to, block) {
        Ok(frame) => {
            let sending = Sending {
                to: To::Replica(to),
                kind: Kind::Fetch,
                frame,
            };
            Effect::one(alloc, sending, refused)
        }
        Err(_) => Ok(Effect::only(alloc, refused)),
    }
}

/// Whether a replica lacked a block.
fn is_lack(fault: Fault) -> bool
    ensures { result ≡ is_lack fault }
{
    matches!(fault, Fault::UnknownParent)
}

/// The effect of a refusal, where this block may have been lacking, and this replica is to be asked for it.
fn refuse(
    alloc: Global,
    replica: &Replica,
    lack: Option<(ReplicaId, Digest)>,
    fault: Fault,
) -> Result<Effect, Fault>
    requires { IfSome lack (λ l. l.0 < replicas replica.now.keys.sizes) }
    ensures refused { IfOk result (λ e. Refuses (identity_of replica.now.keys) lack fault e) }
    ensures memory { OnErr result (result ≡ Err Fault.Memory) }
{
    let Some((to, block)) = lack else {
        return Ok(Effect::only(alloc, Some(fault)));
    };
    if is_lack(fault) {
        return ask(alloc, replica, to, &block);
    }
    Ok(Effect::only(alloc, Some(fault)))
}

/// The effect of what a replica answered.
fn tell(
    alloc: Global,
    replica: &Replica,
    lack: Option<(ReplicaId, Digest)>,
    answer: Result<Out, Fault>,
) -> Result<Effect, Fault>
    requires { IfSome lack (λ l. l.0 < replicas replica.now.keys.sizes) }
    ensures told { IfOk result (λ e. TellsAnswer (identity_of replica.now.keys) lack answer e) }
    ensures memory { OnErr result (result ≡ Err Fault.Memory) }
{
    match answer {
        Ok(out) => Ok(Effect::sends(out)),
        Err(fault) => refuse(alloc, replica, lack, fault),
    }
}

/// Brings bytes to a replica, this way.
pub(crate) fn receive(
    alloc: Global,
    replica: &mut ReplicaParty,
    way: Way,
    bytes: &[u8],
) -> Result<Effect, Fault>
    ensures keys { replica.new.keys ≡ replica.old.keys }
    ensures taken { IfOk result (λ e. TakesBytes (checks_of way) (identity_of replica.old.keys) bytes.now
        replica.old.replica replica.new.replica e) }
    ensures memory { OnErr result (result ≡ Err Fault.Memory) }
{
    // For the proof: there are few replicas.
    replica.replica().config().holds();
    let lack = missing(&replica.replica().config(), bytes);
    let answer = replica.take(way, bytes);
    tell(alloc, replica.replica(), lack, answer)
}

/// Whom an input has a replica ask, and for which block.
fn asked_by(input: &Input<'_>) -> Option<(ReplicaId, Digest)>
    ensures { result ≡ asked_by (input_of input.now) }
{
    match input {
        Input::Ask(to, block) => Some((*to, *block)),
        _ => None,
    }
}

/// Has a replica take an input that no frame brings.
pub(crate) fn step(
    alloc: Global,
    replica: &mut ReplicaParty,
    input: Input<'_>,
) -> Result<Effect, Fault>
    requires { IsMove replica.old.keys.sizes (input_of input) }
    ensures keys { replica.new.keys ≡ replica.old.keys }
    ensures taken { IfOk result (λ e. Takes (identity_of replica.old.keys) (passes (input_of input.entry))
        replica.old.replica replica.new.replica e) }
    ensures memory { OnErr result (result ≡ Err Fault.Memory) }
{
    let lack = asked_by(&input);
    let answer = replica.step(input);
    tell(alloc, replica.replica(), lack, answer)
}
