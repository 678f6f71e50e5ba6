//! A replica by itself, with no archive and no shares, that is stepped.

ghost use Rattle.std.specs.Prelude.{IsTrue};
ghost use Rattle.admission.specs.Inputs.{is_addressed};

use crate::step::requests::request;
use crate::step::stepped::number;
use crate::step::told::tell_answer;
use admission::admit;
use ids::{Config, Fault, ReplicaId};
use replica::{Input, Out, Replica};
use simulated_keys::replica_keyring_of;
use std::alloc::Global;
use std::hash::RandomState;

/// Steps a replica.
fn step(replica: &mut Replica, input: Input<'_>) -> Result<Out, Fault>
    requires { IsTrue (is_addressed replica.old.keys input) }
{
    replica.step(input)
}

/// What a replica answers to bytes, checked with the keys of the replica CHECKER.
fn receive(
    alloc: Global,
    replica: &mut Replica,
    checker: u8,
    bytes: &[u8],
) -> Result<Result<Out, Fault>, Fault> {
    let config = replica.config();
    if checker != replica.number().0 {
        return Err(Fault::NoSuchParty);
    }
    let ring = replica_keyring_of(alloc, config, ReplicaId(checker))?;
    match admit(ring.verifying(), bytes) {
        Ok(input) => Ok(step(replica, input)),
        Err(fault) => Ok(Err(fault)),
    }
}

/// What a replica answers to an input.
fn take(alloc: Global, replica: &mut Replica, input: &str) -> Result<Result<Out, Fault>, Fault> {
    match input {
        "beat" => Ok(step(replica, Input::Beat)),
        "timeout" => Ok(step(replica, Input::Timeout)),
        _ => {
            let (checker, digits) = input.split_once(':').unwrap_or(("", ""));
            let bytes = hex::decode(alloc, digits).ok().ok_or(Fault::BadFields)?;
            receive(alloc, replica, number(checker)?, &bytes)
        }
    }
}

/// How many of client 0's requests from 1 to COUNT are answered without a refusal.
fn ask(alloc: Global, replica: &mut Replica, count: &str) -> Result<u64, Fault> {
    let count: u64 = count.parse().ok().ok_or(Fault::BadFields)?;
    let mut stood: u64 = 0;
    for number in 1..=count {
        let frame = request(alloc, replica.config(), number)?;
        let own = replica.number().0;
        if receive(alloc, replica, own, &frame)?.is_ok() {
            stood = stood.wrapping_add(1);
        }
    }
    Ok(stood)
}

/// Tells what an input is answered.
fn tell(alloc: Global, replica: &mut Replica, input: &str, text: &mut String) -> Result<(), Fault> {
    if let Some(count) = input.strip_prefix("requests:") {
        write!(text, "{} ok", ask(alloc, replica, count)?)?;
        return Ok(());
    }
    let answer = take(alloc, replica, input)?;
    tell_answer(alloc, &answer, text)
}

/// Tells what the inputs are answered, and then how many steps stand and how many commands were executed.
fn tell_all(
    alloc: Global,
    replica: &mut Replica,
    inputs: &str,
    text: &mut String,
) -> Result<(), Fault> {
    for input in inputs.split(' ') {
        tell(alloc, replica, input, text)?;
        text.push_str(", ")?;
    }
    write!(
        text,
        "made {}, executed {}",
        replica.steps(),
        replica.executed()
    )?;
    Ok(())
}

/// What a replica that has made no step, with room for so many keys, does with its inputs, one after the other.
/// Or why there is none.
pub(crate) fn run(
    alloc: Global,
    hasher: RandomState,
    config: Config,
    own: ReplicaId,
    most_keys: usize,
    inputs: &str,
    text: &mut String,
) -> Result<(), Fault> {
    let ring = replica_keyring_of(alloc, config, own)?;
    match Replica::with_keys(alloc, config, own, ring, most_keys, hasher) {
        Ok(made) => {
            let mut replica = made;
            tell_all(alloc, &mut replica, inputs, text)
        }
        Err(fault) => Ok(write!(text, "refused {}", fault.number())?),
    }
}
