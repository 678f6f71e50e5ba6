ghost use Rattle.std.specs.Prelude.{◌≡◌};
ghost use Rattle.ids.specs.Numbers.{fault_of_line};

use crate::fault::Fault;
use std::error::Error;
use std::fmt;

/// What is wrong with a request line: the refusal of the same name.
#[derive(Clone, Copy, Debug, PartialEq, Eq, Hash)]
pub enum LineFault {
    /// The line begins with none of the commands' names.
    UnknownName,
    /// The line doesn't have the fields that its command takes.
    BadFields,
    /// The line announces more data than may be stored.
    TooLarge,
    /// The data isn't followed by CR LF.
    BadChunk,
    /// The line has no end within its limit.
    LineTooLong,
}

impl From<LineFault> for Fault {
    ghost from_gives = { λ line fault. fault ≡ fault_of_line line };

    fn from(line: LineFault) -> Fault {
        match line {
            LineFault::UnknownName => Fault::UnknownName,
            LineFault::BadFields => Fault::BadFields,
            LineFault::TooLarge => Fault::TooLarge,
            LineFault::BadChunk => Fault::BadChunk,
            LineFault::LineTooLong => Fault::LineTooLong,
        }
    }
}

impl fmt::Display for LineFault {
    fn fmt<W: fmt::Write>(&self, f: &mut fmt::Formatter<W>) -> fmt::Result {
        let fault: Fault = (*self).into();
        fault.fmt(f)
    }
}

impl Error for LineFault {}
