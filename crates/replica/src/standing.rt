//! Whether a replica goes on.

ghost use Rattle.std.specs.Prelude.{◌≡◌, ◌↔◌, ℕ, IsNone, IsTrue};
ghost use Rattle.replica.specs.Steps.{is_running, standing_of};
ghost use Rattle.replica.specs.StepsTo.{halts};
ghost use Rattle.replica.specs.Advances.{answer_of, standing_after};

use ids::{Fault, Height};
use signed_frames::Out;

/// Whether a replica goes on.
#[derive(Clone, Copy)]
pub(crate) enum Standing {
    Running,
    /// This refusal stopped it.
    Stopped(Fault),
    /// Memory was refused while the last step was executed. Some of its commands stand, and the others don't.
    CutShort,
}

impl Standing {
    /// Whether the replica takes further inputs.
    pub(crate) fn is_running(self) -> bool
        ensures { result ≡ is_running self }
    {
        matches!(self, Standing::Running)
    }

    /// Why it takes none. None while it does.
    pub(crate) fn stopped(self) -> Option<Fault>
        ensures { IsNone result ↔ IsTrue (is_running self) }
    {
        match self {
            Standing::Running => None,
            Standing::Stopped(fault) => Some(fault),
            Standing::CutShort => Some(Fault::Memory),
        }
    }
}

/// What comes of an input.
#[derive(Drop)]
pub(crate) enum Taken {
    /// The step stands, and what it decided is executed.
    Sends(Out),
    /// Nothing changed.
    Refused(Fault),
    /// The step stands, and memory was refused while it was executed.
    CutShort,
}

/// Whether a replica with this horizon is stopped after this refusal.
fn halts(horizon: Height, fault: Fault) -> bool
    ensures { result ≡ halts horizon fault }
{
    match fault {
        Fault::Full => horizon.0 == 0,
        Fault::Conflict | Fault::Memory => true,
        _ => false,
    }
}

impl Taken {
    /// Whether the replica goes on, if it has this horizon.
    pub(crate) fn standing(&self, horizon: Height) -> Standing
        ensures { (held : ℕ) → standing_of result held ≡ standing_after horizon self.now held }
    {
        match self {
            Taken::Sends(_) => Standing::Running,
            Taken::Refused(fault) if halts(horizon, *fault) => Standing::Stopped(*fault),
            Taken::Refused(_) => Standing::Running,
            Taken::CutShort => Standing::CutShort,
        }
    }

    /// What the caller is told.
    pub(crate) fn into_answer(self) -> Result<Out, Fault>
        ensures { result ≡ answer_of self }
    {
        match self {
            Taken::Sends(out) => Ok(out),
            Taken::Refused(fault) => Err(fault),
            Taken::CutShort => Err(Fault::Memory),
        }
    }
}
