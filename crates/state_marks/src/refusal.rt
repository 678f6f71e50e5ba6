ghost use Rattle.std.specs.Prelude.{◌≡◌};
ghost use Rattle.state_marks.specs.declared.refusal.Refusal.TheVariants as refusal;

use std::alloc::AllocError;
use std::error::Error;
use std::fmt;

/// Why a party doesn't begin, or gives no more numbers.
#[derive(Clone, Copy, Debug, PartialEq, Eq)]
pub enum Refusal {
    /// It is a replica, and has spoken before. Without its memory it could vote twice.
    HasSpoken,
    /// What the directory keeps isn't this party's.
    NotItsOwn,
    /// The directory can't be read.
    CannotRead,
    /// Nothing can be kept in the directory.
    CannotKeep,
    /// Memory was refused.
    Memory,
}

impl From<AllocError> for Refusal {
    ghost from_gives = { λ _ why. why ≡ refusal.Memory };

    fn from(_error: AllocError) -> Refusal {
        Refusal::Memory
    }
}

impl fmt::Display for Refusal {
    fn fmt<W: fmt::Write>(&self, f: &mut fmt::Formatter<W>) -> fmt::Result {
        f.write_str(match self {
            Refusal::HasSpoken => "has run before",
            Refusal::NotItsOwn => "not the state directory of this party",
            Refusal::CannotRead => "cannot read the state directory",
            Refusal::CannotKeep => "cannot write into the state directory",
            Refusal::Memory => "out of memory",
        })
    }
}

impl Error for Refusal {}
