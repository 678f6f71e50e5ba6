//! A schedule with what heals it.

ghost use Rattle.std.specs.Prelude.{◌≡◌, ◌≢◌, IfSome, IfErr, OnOk};
ghost use Rattle.simulator.specs.Simulations.{HasHealed, IsHealedFrom};

use crate::schedule::{Schedule, parse};
use crate::sim_fault::SimFault;
use crate::simulation::{read_all, world_of};
use crate::written::put_events;
use healer::heal_all;
use ids::Fault;
use std::alloc::Global;
use std::hash::RandomState;
use std::io::{Read, Write};

/// Reads a schedule to the reader's end, and writes it, with events behind it that bring each correct client that waits
/// its receipt, one after the other. So what is written is a schedule again.
///
/// `Err` is as `simulate` has it of the schedule. Else it is of what healing met: `Pruned` where its leader has forgotten
/// blocks, `UnknownParent` where nobody has a block that is needed, `Spent` or `Full` where no view or height is left.
pub fn heal<R: Read, W: Write>(
    alloc: Global,
    hasher: RandomState,
    reader: &mut R,
    writer: &mut W,
) -> Result<(), SimFault>
    // What is written is the schedule that was read, and more events.
    ensures ok { OnOk result
        (IfSome (R.remaining reader.old) (IsHealedFrom (W.contents writer.old) (W.contents writer.new))) }
    // Nothing is written but by a whole run.
    ensures unwritten { IfErr result
        (λ fault. fault ≢ SimFault.Fault Fault.WriteFailed → writer.new ≡ writer.old) }
{
    let mut text = read_all(alloc, reader)?;
    let schedule = parse(alloc, &text)?;
    add_healing(alloc, hasher, schedule, &mut text)?;
    let written = writer.write_all(&text);
    written.map_err(|_error| SimFault::Fault(Fault::WriteFailed))
}

/// Appends the lines of the events that heal a schedule to its text.
fn add_healing(
    alloc: Global,
    hasher: RandomState,
    schedule: Schedule,
    text: &mut Vec<u8>,
) -> Result<(), Fault>
    ensures { OnOk result (HasHealed schedule text.old.items text.new.items) }
{
    let Schedule { heading, events } = schedule;
    let world = world_of(alloc, hasher, heading)?;
    let healed = heal_all(alloc, &world, events.as_slice())?;
    put_events(alloc, text, healed.events.as_slice())
}
