use bytes::Bytes;

/// What is given at once of what was recorded.
#[derive(Drop)]
pub struct Batch {
    /// The lowest first. Their bytes are shared.
    pub frames: Vec<Bytes>,
    /// Whether nothing was recorded behind them.
    pub is_last: bool,
}
