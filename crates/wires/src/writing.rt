//! From frames to a connection's bytes.

ghost use Rattle.std.specs.Prelude.{◌≡◌, ◌++◌, OnOk, OnErr};
ghost use Rattle.std.specs.Io.KnownBytes.{Appends};
ghost use Rattle.wire_frames.specs.Framing.{stream};
ghost use Rattle.wires.specs.Writing.{WritesBeginning};

use bytes::Bytes;
use connection::Counted;
use ids::{Config, Fault};
use std::io::Write;
use wire_frames::{WireFault, put};

/// Appends frames as they go over a wire, one behind the other.
fn spell(config: &Config, frames: &[Bytes], out: &mut Vec<u8>) -> Result<(), WireFault>
    ensures { OnOk result (out.new.items ≡ out.old.items ++ stream frames.now) }
{
    for frame in frames {
        put(config, frame, out)?;
    }
    Ok(())
}

/// Writes frames, one behind the other, in one go. A frame of no bytes is a ping. `room` is what they are put together
/// in; what it holds is dropped.
///
/// `WriteFailed` where the device failed; `Full` where a frame is longer than any item at these sizes; else
/// `Memory`. Where a write failed a beginning of them was written.
pub fn write_frames<W: Write>(
    config: &Config,
    frames: &[Bytes],
    room: &mut Vec<u8>,
    writer: &mut Counted<W>,
) -> Result<(), Fault>
    ensures all { OnOk result (Appends (W.contents writer.old.device) (W.contents writer.new.device) (stream frames.now)) }
    ensures part { OnErr result
        (WritesBeginning (W.contents writer.old.device) (W.contents writer.new.device) (stream frames.now)) }
{
    room.clear();
    match spell(config, frames, room) {
        Ok(()) => writer.write(room),
        Err(WireFault::TooLong) => Err(Fault::Full),
        Err(_) => Err(Fault::Memory),
    }
}
