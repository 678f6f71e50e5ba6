//! Where a turn may be held.

/// Told of each admitted frame before its step and after it, by its number on the replica's link.
///
/// Frames that are refused before the lock aren't told. A test's gate may wait in `enter`; the
/// program's is `Open`.
pub trait Gate {
    /// The frame was checked, and no lock is held.
    fn enter(&self, frame: u64);

    /// Its step was made, and the lock let go.
    fn stepped(&self, frame: u64);
}

/// The gate that holds nothing.
#[derive(Clone, Copy, Debug)]
pub struct Open;

impl Gate for Open {
    fn enter(&self, _frame: u64) {}

    fn stepped(&self, _frame: u64) {}
}
