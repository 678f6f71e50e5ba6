//! What a vote is to those that are kept.

/// What a vote is to the votes that are kept for its block.
#[derive(Clone, Copy, Debug, PartialEq, Eq)]
pub enum Added {
    /// It is its voter's first, and there is no quorum with it.
    First,
    /// A vote of its voter is kept already.
    Doubled,
    /// It completes a quorum.
    Complete,
}
