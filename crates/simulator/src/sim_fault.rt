ghost use Rattle.std.specs.Prelude.{◌≡◌};
ghost use Rattle.ids.specs.declared.fault.Fault.TheVariants.{Memory};
ghost use Rattle.simulator.specs.declared.sim_fault.SimFault.TheVariants as sim;

use ids::Fault;
use std::alloc::{AllocError, AllocFailed};
use std::error::Error;
use std::fmt;

/// Why a schedule has no outcome.
#[derive(Clone, Copy, Debug, PartialEq, Eq)]
pub enum SimFault {
    /// The line of this number, from 1, isn't one of a schedule: the first such line.
    Line(u64),
    /// The run, the reader or the writer was refused.
    Fault(Fault),
}

impl From<Fault> for SimFault {
    ghost from_gives = { λ fault sim_fault. sim_fault ≡ sim.Fault fault };

    fn from(fault: Fault) -> SimFault {
        SimFault::Fault(fault)
    }
}

impl From<AllocError> for SimFault {
    ghost from_gives = { λ _ sim_fault. sim_fault ≡ sim.Fault Memory };

    fn from(_error: AllocError) -> SimFault {
        SimFault::Fault(Fault::Memory)
    }
}

impl<T: Drop> From<AllocFailed<T>> for SimFault {
    ghost from_gives = { λ _ sim_fault. sim_fault ≡ sim.Fault Memory };

    fn from(_error: AllocFailed<T>) -> SimFault {
        SimFault::Fault(Fault::Memory)
    }
}

impl fmt::Display for SimFault {
    fn fmt<W: fmt::Write>(&self, f: &mut fmt::Formatter<W>) -> fmt::Result {
        match self {
            SimFault::Line(number) => write!(f, "line {number}: bad"),
            SimFault::Fault(fault) => write!(f, "fault {}", fault.number()),
        }
    }
}

impl Error for SimFault {}
