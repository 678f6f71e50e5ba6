ghost use Rattle.std.specs.Prelude.{◌≡◌};
ghost use Rattle.ids.specs.declared.fault.Fault.TheVariants as refusal;

use crate::fault::Fault;
use std::error::Error;
use std::fmt;

/// The one refusal of reading a frame: the bytes are no frame at these sizes.
#[derive(Clone, Copy, Debug, PartialEq, Eq)]
pub struct NotAFrame;

impl From<NotAFrame> for Fault {
    ghost from_gives = { λ _ fault. fault ≡ refusal.NotAFrame };

    fn from(_bytes: NotAFrame) -> Fault {
        Fault::NotAFrame
    }
}

impl fmt::Display for NotAFrame {
    fn fmt<W: fmt::Write>(&self, f: &mut fmt::Formatter<W>) -> fmt::Result {
        Fault::NotAFrame.fmt(f)
    }
}

impl Error for NotAFrame {}
