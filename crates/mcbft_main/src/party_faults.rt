use apart::Refusal;
use ids::Fault;
use key_file::KeyFileFault;
use std::fmt;

/// Why a party of a deployment doesn't begin, or ends.
#[derive(Clone, Copy)]
pub(crate) enum PartyFault {
    /// The deployment file can't be read.
    CannotReadDeployment,
    /// This line of it isn't what has to stand there.
    BadDeployment(u32),
    /// The deployment has no such replica.
    NoSuchReplica,
    /// The key file can't be read.
    CannotReadKeys,
    /// It isn't this party's key file of the deployment.
    BadKeys,
    /// No connection can be listened for.
    CannotListen,
    /// A refusal.
    Refused(Refusal),
}

impl From<Fault> for PartyFault {
    fn from(fault: Fault) -> PartyFault {
        PartyFault::Refused(Refusal::Fault(fault))
    }
}

impl From<Refusal> for PartyFault {
    fn from(refusal: Refusal) -> PartyFault {
        PartyFault::Refused(refusal)
    }
}

impl From<deployment::Refusal> for PartyFault {
    fn from(refusal: deployment::Refusal) -> PartyFault {
        match refusal {
            deployment::Refusal::BadLine(line) => PartyFault::BadDeployment(line),
            deployment::Refusal::Memory => PartyFault::from(Fault::Memory),
        }
    }
}

impl From<KeyFileFault> for PartyFault {
    fn from(fault: KeyFileFault) -> PartyFault {
        match fault {
            KeyFileFault::NotOne => PartyFault::BadKeys,
            KeyFileFault::Memory => PartyFault::from(Fault::Memory),
        }
    }
}

impl PartyFault {
    /// The exit status: 3 where a replica may not begin again.
    pub(crate) fn status(self) -> u8 {
        match self {
            PartyFault::Refused(Refusal::State(state_marks::Refusal::HasSpoken)) => 3,
            _ => 1,
        }
    }

    /// What can be done.
    pub(crate) fn advice(self) -> &'static str {
        match self {
            PartyFault::CannotReadDeployment | PartyFault::CannotReadKeys =>
                "no such file, or not yours to read; bin/make-keys --deployment FILE DIR writes keys",
            PartyFault::BadDeployment(_) =>
                "docs/OPERATING.md tells what stands in a deployment file",
            PartyFault::NoSuchReplica | PartyFault::Refused(Refusal::NoSuchPlace) =>
                "--id is a number of the deployment file",
            PartyFault::BadKeys =>
                "not this party's keys of this deployment; bin/make-keys --deployment FILE DIR",
            PartyFault::CannotListen =>
                "the port is taken or not allowed, or no more files may be open (ulimit -n)",
            PartyFault::Refused(Refusal::State(state_marks::Refusal::HasSpoken)) =>
                "without its memory it could vote twice; it counts among the F faulty ones. A new \
                deployment needs new keys and empty state directories",
            PartyFault::Refused(Refusal::State(_) | Refusal::InUse) =>
                "a state directory is one party's alone, and one process's at a time",
            PartyFault::Refused(Refusal::NobodyAnswers) =>
                "no replica runs with this state directory",
            PartyFault::Refused(Refusal::BadAddress(_)) =>
                "an address is IP:PORT or NAME:PORT, with a name that is known here",
            PartyFault::Refused(_) => "docs/OPERATING.md tells what to do at each message",
        }
    }
}

impl fmt::Display for PartyFault {
    fn fmt<W: fmt::Write>(&self, f: &mut fmt::Formatter<W>) -> fmt::Result {
        match self {
            PartyFault::CannotReadDeployment => f.write_str("cannot read the deployment file"),
            PartyFault::BadDeployment(line) => write!(f, "bad line {line} of the deployment file"),
            PartyFault::NoSuchReplica => f.write_str("no such replica in the deployment file"),
            PartyFault::CannotReadKeys => f.write_str("cannot read keys"),
            PartyFault::BadKeys => f.write_str("bad keys"),
            PartyFault::CannotListen => f.write_str("cannot listen"),
            PartyFault::Refused(refusal) => write!(f, "{refusal}"),
        }
    }
}
