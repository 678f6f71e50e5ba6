//! What is said of windows that replicas' processes wrote.

use audit::WindowVerdict;
use deployment::Refusal;
use ids::Fault;
use std::alloc::AllocFailed;
use std::io::ErrorKind;
use std::rt::Files;
use std::{fmt, fs};
use window_files::{Window, judge};

/// Why windows can't be judged. Files count from 1.
#[derive(Clone, Copy)]
pub(crate) enum AuditFault {
    /// This file can't be read.
    CannotRead(usize),
    /// This line of a file isn't what has to stand there.
    Bad { file: usize, line: u32 },
    /// A refusal.
    Fault(Fault),
}

impl<T: Drop> From<AllocFailed<T>> for AuditFault {
    fn from(_failed: AllocFailed<T>) -> AuditFault {
        AuditFault::Fault(Fault::Memory)
    }
}

impl fmt::Display for AuditFault {
    fn fmt<W: fmt::Write>(&self, f: &mut fmt::Formatter<W>) -> fmt::Result {
        match self {
            AuditFault::CannotRead(file) => write!(f, "cannot read file {file}"),
            AuditFault::Bad { file, line } => write!(f, "bad line {line} of file {file}"),
            AuditFault::Fault(Fault::TooFew) => f.write_str(
                "2 F + 1 windows are needed, each of another replica, of one deployment",
            ),
            AuditFault::Fault(fault) => write!(f, "fault {}", fault.number()),
        }
    }
}

/// The window in a file, which is the one of this number.
fn read_window<R: AllocGlobal + Files>(
    rt: &R,
    path: &str,
    file: usize,
) -> Result<Window, AuditFault> {
    let text = match fs::read(rt, path) {
        Ok(text) => text,
        Err(error) if error.kind() == ErrorKind::OutOfMemory => {
            return Err(AuditFault::Fault(Fault::Memory));
        }
        Err(_) => return Err(AuditFault::CannotRead(file)),
    };
    match Window::read(rt.alloc(), &text) {
        Ok(window) => Ok(window),
        Err(Refusal::BadLine(line)) => Err(AuditFault::Bad { file, line }),
        Err(Refusal::Memory) => Err(AuditFault::Fault(Fault::Memory)),
    }
}

/// What the windows in these files say of one another.
pub(crate) fn judge_files<R: AllocGlobal + Files>(
    rt: &R,
    paths: &[&str],
) -> Result<WindowVerdict, AuditFault> {
    let mut windows = Vec::new(rt.alloc());
    for (place, path) in paths.iter().enumerate() {
        windows.push(read_window(rt, path, place.saturating_add(1))?)?;
    }
    let mut lent = Vec::new(rt.alloc());
    for window in &windows {
        lent.push(window)?;
    }
    match judge(&lent) {
        Ok(verdict) => Ok(verdict),
        Err(fault) => Err(AuditFault::Fault(fault)),
    }
}
