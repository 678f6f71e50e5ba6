//! How much is taken at once.

/// How much may be taken from each row between two refills.
#[derive(Clone, Copy, Debug, PartialEq, Eq)]
pub struct Allowance {
    /// How many values.
    pub count: usize,
    /// How much size, beside that of one value more.
    pub size: usize,
}
