/// Why a frame isn't recorded.
#[derive(Clone, Copy, Debug, PartialEq, Eq)]
pub enum Refusal {
    /// Alone it costs more than all may.
    TooLarge,
    /// It is of a height below the lowest that is recorded.
    TooLow,
    /// A frame of its height that brought the same block is recorded.
    Known,
    /// The allocator refused memory.
    Memory,
}
