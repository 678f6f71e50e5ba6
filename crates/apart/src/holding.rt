//! Who has a state directory for itself.

use crate::refusal::Refusal;
use state_marks::Refusal as StateRefusal;
use std::fs::{File, TryLockError};
use std::rt::Files;

/// Has a party's state directory for this process alone, until the file is let go; also where the process is ended. `InUse` where
/// another process has it, so that no two speak for one party.
pub(crate) fn hold<R: Files<File = File> + AllocGlobal>(
    rt: &R,
    state: &str,
) -> Result<File, Refusal> {
    let path = format!(in rt.alloc(); "{state}/lock")?;
    let Ok(file) = File::create(rt, path.as_str()) else {
        return Err(Refusal::State(StateRefusal::CannotKeep));
    };
    match file.try_lock() {
        Ok(()) => Ok(file),
        Err(TryLockError::WouldBlock) => Err(Refusal::InUse),
        Err(TryLockError::Error(_)) => Err(Refusal::State(StateRefusal::CannotKeep)),
    }
}
