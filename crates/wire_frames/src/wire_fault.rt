ghost use Rattle.std.specs.Prelude.{◌≡◌};
ghost use Rattle.wire_frames.specs.declared.wire_fault.WireFault.TheVariants as refusal;

use std::alloc::{AllocError, AllocFailed};
use std::error::Error;
use std::fmt;

/// Why frames don't go over a wire.
#[derive(Clone, Copy, Debug, PartialEq, Eq)]
pub enum WireFault {
    /// A frame, or a length that was told, is above that of the longest item.
    TooLong,
    /// More bytes came than there is room for.
    FeedFull,
    /// The allocator refused memory.
    Memory,
}

impl From<AllocError> for WireFault {
    ghost from_gives = { λ _ fault. fault ≡ refusal.Memory };

    fn from(_error: AllocError) -> WireFault {
        WireFault::Memory
    }
}

impl fmt::Display for WireFault {
    fn fmt<W: fmt::Write>(&self, f: &mut fmt::Formatter<W>) -> fmt::Result {
        f.write_str(match self {
            WireFault::TooLong => "a length that no item has",
            WireFault::FeedFull => "more bytes than there is room for",
            WireFault::Memory => "out of memory",
        })
    }
}

impl Error for WireFault {}
