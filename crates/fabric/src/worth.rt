//! What a frame was worth to its receiver.

/// What a frame was worth to its receiver. What comes in vain counts more of its sender's allowance.
#[derive(Clone, Copy, Debug, PartialEq, Eq)]
pub(crate) enum Worth {
    /// It brought something, or cost nothing.
    OfUse,
    /// It cost something, and brought nothing.
    InVain,
}
