use ids::Fault;
use key_file::KeyFileFault;
use std::fmt;

/// Why nothing is served, or nothing more.
#[derive(Clone, Copy)]
pub(crate) enum MainFault {
    /// The key file can't be read.
    CannotReadKeys,
    /// It isn't the key file of a deployment of these sizes.
    BadKeys,
    /// No connection can be listened for.
    CannotListen,
    /// A refusal.
    Fault(Fault),
}

impl From<Fault> for MainFault {
    fn from(fault: Fault) -> MainFault {
        match fault {
            Fault::AcceptFailed => MainFault::CannotListen,
            _ => MainFault::Fault(fault),
        }
    }
}

impl MainFault {
    /// What is wrong in words, and what can be done.
    pub(crate) fn advice(self) -> &'static str {
        match self {
            MainFault::CannotReadKeys =>
                "no such file, or not yours to read; bin/make-keys F C > FILE writes one",
            MainFault::BadKeys =>
                "not a key file for these --faults and --clients; bin/make-keys F C > FILE",
            MainFault::CannotListen =>
                "the port is taken or not allowed, or no more files may be open (ulimit -n)",
            MainFault::Fault(Fault::BadSize) =>
                "sizes out of their limits: --faults is 1 to 10, --clients 1 to 64, --liars 1 to F",
            MainFault::Fault(Fault::BadKeys) => "--keys-held is 1 to 65,536",
            MainFault::Fault(Fault::Full) =>
                "more than F replicas hold as many blocks as they may; start again, with an empty cache",
            MainFault::Fault(Fault::Memory) =>
                "out of memory; start again, with more of it and an empty cache",
            MainFault::Fault(Fault::Conflict) =>
                "decided blocks conflict: more than F replicas are faulty",
            MainFault::Fault(_) => "not expected here; crates/ids/src/fault.rt names all refusals",
        }
    }
}

impl From<KeyFileFault> for MainFault {
    fn from(fault: KeyFileFault) -> MainFault {
        match fault {
            KeyFileFault::NotOne => MainFault::BadKeys,
            KeyFileFault::Memory => MainFault::Fault(Fault::Memory),
        }
    }
}

impl fmt::Display for MainFault {
    fn fmt<W: fmt::Write>(&self, f: &mut fmt::Formatter<W>) -> fmt::Result {
        match self {
            MainFault::CannotReadKeys => f.write_str("cannot read keys"),
            MainFault::BadKeys => f.write_str("bad keys"),
            MainFault::CannotListen => f.write_str("cannot listen"),
            MainFault::Fault(fault) => write!(f, "fault {}", fault.number()),
        }
    }
}
