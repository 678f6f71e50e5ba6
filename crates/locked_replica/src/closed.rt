//! What closing gives.

use crate::kept::Kept;
use marks::Eye;
use replica::Archived;
use turns::Share;

/// A replica whose shares have all come back, and the eye that owns its mark.
#[derive(Drop)]
pub struct Closed {
    pub replica: Archived,
    pub eye: Eye,
}

/// What is handed back, unchanged, where the shares are not all there.
#[derive(Drop)]
pub struct NotAll<'a> {
    pub kept: Kept<'a>,
    pub shares: Vec<Share>,
}
