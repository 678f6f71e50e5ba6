use ids::Fault;
use std::alloc::{AllocError, AllocFailed};
use std::error::Error;
use std::fmt;

/// Why a process doesn't begin, or ends.
#[derive(Clone, Copy, Debug, PartialEq, Eq)]
pub enum Refusal {
    /// What its state directory says.
    State(state_marks::Refusal),
    /// An address of the deployment file leads nowhere: that of this replica.
    BadAddress(u8),
    /// The deployment has no such replica, or no such front.
    NoSuchPlace,
    /// Another process has the state directory.
    InUse,
    /// No process does what it was asked.
    NobodyAnswers,
    /// No randomness can be had.
    NoRandomness,
    /// A refusal.
    Fault(Fault),
}

impl From<state_marks::Refusal> for Refusal {
    fn from(refusal: state_marks::Refusal) -> Refusal {
        match refusal {
            state_marks::Refusal::Memory => Refusal::Fault(Fault::Memory),
            _ => Refusal::State(refusal),
        }
    }
}

impl From<Fault> for Refusal {
    fn from(fault: Fault) -> Refusal {
        Refusal::Fault(fault)
    }
}

impl From<AllocError> for Refusal {
    fn from(_error: AllocError) -> Refusal {
        Refusal::Fault(Fault::Memory)
    }
}

impl<T: Drop> From<AllocFailed<T>> for Refusal {
    fn from(_failed: AllocFailed<T>) -> Refusal {
        Refusal::Fault(Fault::Memory)
    }
}

impl fmt::Display for Refusal {
    fn fmt<W: fmt::Write>(&self, f: &mut fmt::Formatter<W>) -> fmt::Result {
        match self {
            Refusal::State(refusal) => write!(f, "{refusal}"),
            Refusal::BadAddress(replica) => write!(f, "no address of replica {replica}"),
            Refusal::NoSuchPlace => f.write_str("no such replica or front in the deployment file"),
            Refusal::InUse => f.write_str("the state directory is in use"),
            Refusal::NobodyAnswers => f.write_str("nobody answers"),
            Refusal::NoRandomness => f.write_str("no randomness"),
            Refusal::Fault(fault) => write!(f, "fault {}", fault.number()),
        }
    }
}

impl Error for Refusal {}
