ghost use Rattle.std.specs.Prelude.{◌≡◌, ◌++◌, length, nat_lt, OnOk, OnErr, MatchBool};
ghost use Rattle.wire_frames.specs.Framing.{on_wire};
ghost use Rattle.wire_frames.specs.Longest.{longest_item};

use crate::longest::longest_item;
use crate::wire_fault::WireFault;
use appending::put as append;
use ids::Config;

/// Appends a frame as it goes over a wire. One of no bytes is a ping. `TooLong` exactly where it is longer than any
/// item at these sizes; else `Memory` alone. A refusal appends nothing.
pub fn put(config: &Config, frame: &[u8], out: &mut Vec<u8>) -> Result<(), WireFault>
    ensures appended { OnOk result (out.new.items ≡ out.old.items ++ on_wire frame.now) }
    ensures unchanged { OnErr result (out.new.items ≡ out.old.items) }
    ensures refused { MatchBool (nat_lt (longest_item config.now) (length frame.now))
        (result ≡ Err WireFault.TooLong) (OnErr result (result ≡ Err WireFault.Memory)) }
{
    if frame.len() > longest_item(config) {
        return Err(WireFault::TooLong);
    }
    out.reserve(4 + frame.len())?;
    append(out, &(frame.len() as u32).to_be_bytes());
    append(out, frame);
    Ok(())
}
