//! Values that are carried along where a call may be refused. In a generic function their
//! drop on that path is one call.

use ids::Fault;

/// A value with what a call gave; where the call was refused, the value is dropped.
pub(crate) fn beside<T: Drop, U>(value: T, given: Result<U, Fault>) -> Result<(T, U), Fault> {
    match given {
        Ok(given) => Ok((value, given)),
        Err(fault) => Err(fault),
    }
}
