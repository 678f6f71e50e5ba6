/// Why nothing more is read from a connection.
#[derive(Clone, Copy, Debug, PartialEq, Eq)]
pub enum End {
    /// The other end closed it, or this one is told to end.
    Closed,
    /// It failed, or nothing came for too long.
    Failed,
    /// It told a length that no item has.
    BadLength,
    /// The allocator refused memory.
    Memory,
}
