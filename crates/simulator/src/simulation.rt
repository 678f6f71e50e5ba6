ghost use Rattle.std.specs.Prelude.{◌≡◌, ◌≢◌, ◌⊎◌, Err, IfSome, IfOk, IfErr, OnOk, OnErr};
ghost use Rattle.std.specs.IoError.{error_kind};
ghost use Rattle.simulator.specs.Faults.{IsWhyNoOutcome, IsWhyNoRun, IsWhyNoWorld, read_fault_of};
ghost use Rattle.world_schedule.specs.Settings.{AreKeyrings};
ghost use Rattle.simulator.specs.Simulations.{all_keys, IsWorldOf, IsTextOfRun, IsToldOf};

use crate::lines::Heading;
use crate::schedule::{Schedule, parse};
use crate::sim_fault::SimFault;
use authenticators::Keyring;
use ids::{ClientId, Config, Fault, ReplicaId};
use run_report::text_of;
use simulated_keys::keyring_of;
use std::alloc::Global;
use std::hash::RandomState;
use std::io::{self, ErrorKind, Read, Write};
use world_schedule::{World, run};

/// Reads a schedule to the reader's end, runs it, and writes what happened.
///
/// For event E, counted from 1, that is the line `eE ok`, or `eE fault N` where the party refused
/// it; then for each frame that was sent in it a line `fK KIND LEN to DEST`: its number in the
/// record of sent frames, its kind, its bytes, and `all` or a party; then, where a client accepted
/// a reply, `accepted cN seq S place P HEX`. At the end stands a line `hN LENGTH` for each correct
/// replica: its history's length.
///
/// `Err` names the first line that isn't one of a schedule. Else it comes of sizes out of their
/// limits, a faulty party that isn't there, or more faulty replicas than are tolerated; of the
/// first event that names a party that isn't there, then a frame that wasn't sent, then a payload
/// that is no request; or of what failed of memory, reader and writer.
pub fn simulate<R: Read, W: Write>(
    alloc: Global,
    hasher: RandomState,
    reader: &mut R,
    writer: &mut W,
) -> Result<(), SimFault>
    // What is written is the text of an outcome of the schedule that was read.
    ensures ok { OnOk result
        (IfSome (R.remaining reader.old) (IsToldOf (W.contents writer.old) (W.contents writer.new))) }
    // A line is named where it is the first bad one, and else a fault of what failed.
    ensures refused { IfErr result (IsWhyNoOutcome (R.remaining reader.old)) }
    // Nothing is written but by a whole run.
    ensures unwritten { IfErr result
        (λ fault. fault ≢ SimFault.Fault Fault.WriteFailed → writer.new ≡ writer.old) }
{
    let schedule = parse(alloc, &read_all(alloc, reader)?)?;
    let text = tell_run(alloc, hasher, schedule)?;
    let written = writer.write_all(&text);
    written.map_err(|_error| SimFault::Fault(Fault::WriteFailed))
}

/// What a reader gives up to its end.
pub(crate) fn read_all<R: Read>(alloc: Global, reader: &mut R) -> Result<Vec<u8>, Fault>
    ensures read { IfOk result (λ bytes. IfSome (R.remaining reader.old) (λ text. bytes.items ≡ text)) }
    ensures failed { OnErr result ((result ≡ Err Fault.Memory) ⊎ (result ≡ Err Fault.ReadFailed)) }
{
    let mut bytes = Vec::new(alloc);
    match reader.read_to_end(&mut bytes) {
        Ok(_) => Ok(bytes),
        Err(error) => Err(read_fault(&error)),
    }
}

/// The refusal that a failed read is: out of memory is told apart.
pub fn read_fault(error: &io::Error) -> Fault
    ensures { result ≡ read_fault_of (error_kind error.now) }
{
    match error.kind() {
        ErrorKind::OutOfMemory => Fault::Memory,
        _ => Fault::ReadFailed,
    }
}

/// What is told of the run of a schedule.
fn tell_run(alloc: Global, hasher: RandomState, schedule: Schedule) -> Result<Vec<u8>, Fault>
    ensures told { IfOk result (λ text. IsTextOfRun schedule text.items) }
    ensures refused { IfErr result (IsWhyNoRun schedule) }
{
    let Schedule { heading, events } = schedule;
    let world = world_of(alloc, hasher, heading)?;
    let outcome = run(&world, events.as_slice())?;
    text_of(alloc, &outcome)
}

/// The world of a schedule's heading, with the keys of simulations.
///
/// `BadSize` comes where its sizes are out of their limits; then `NoSuchParty` where a faulty party isn't
/// there, and `TooManyFaulty` where more replicas are faulty than are tolerated.
pub fn world_of(alloc: Global, hasher: RandomState, heading: Heading) -> Result<World, Fault>
    ensures made { IfOk result (IsWorldOf heading) }
    ensures refused { IfErr result (IsWhyNoWorld heading) }
{
    let config = heading.config()?;
    let keyrings = keyrings_of(alloc, config)?;
    World::new(alloc, config, heading.faulty, keyrings, hasher)
}

/// The keyrings of all parties, replicas first.
pub fn keyrings_of(alloc: Global, config: Config) -> Result<Vec<Keyring>, Fault>
    ensures made { IfOk result (λ keyrings. keyrings.items ≡ all_keys config) }
    ensures each { IfOk result (λ keyrings. AreKeyrings config keyrings.items) }
    ensures memory { OnErr result (result ≡ Err Fault.Memory) }
{
    // For the proof: there are few parties.
    config.holds();
    let mut keyrings = Vec::new(alloc);
    for replica in 0..config.n() {
        keyrings.push(keyring_of(alloc, config, ReplicaId(replica).into())?)?;
    }
    for client in 0..config.clients() {
        keyrings.push(keyring_of(alloc, config, ClientId(client).into())?)?;
    }
    Ok(keyrings)
}
