//! Why a value doesn't come to wait.

/// Why a value doesn't come to wait.
#[derive(Clone, Copy, Debug, PartialEq, Eq)]
pub enum Refusal {
    /// With it more would wait in its row than its share.
    Full,
    /// The allocator refused memory.
    Memory,
}
