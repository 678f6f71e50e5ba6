/// Why a frame was lost.
#[derive(Clone, Copy, Debug, PartialEq, Eq)]
pub enum Refusal {
    /// The outbox keeps nothing: its peer is away.
    Closed,
    /// With it more would wait than may.
    Full,
    /// The allocator refused memory.
    Memory,
}
