use crate::progress::Progress;
use ids::Height;

/// What one process tells another one.
#[derive(Clone, Copy, Debug, PartialEq, Eq)]
pub enum Letter<'a> {
    /// A frame, as it is: whatever begins with no letter's mark. Whether it is one of the grammar isn't looked at.
    Frame(&'a [u8]),
    /// A client's request, which the sender passes on.
    Passed(&'a [u8]),
    /// Votes of these replicas weren't right for the sender, in a certificate of the receiver. Bit r stands for replica r.
    Doubted(u32),
    /// The sender asks for what the receiver recorded from a height on, so many bytes at most.
    Asked {
        from: Height,
        bytes: u64,
    },
    /// A recorded frame, for the answer to the question from this height.
    Recorded {
        from: Height,
        frame: &'a [u8],
    },
    /// An announcement's frame, for the same.
    Announced {
        from: Height,
        frame: &'a [u8],
    },
    /// All of the answer was sent.
    Answered {
        from: Height,
        bytes: u64,
        /// Whether nothing is recorded behind it.
        is_last: bool,
    },
    /// How far the sender is.
    Told(Progress),
}
