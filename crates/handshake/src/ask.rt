use crate::words::{Life, Nonce};
use ids::PartyId;

/// What a dialler says of itself.
#[derive(Clone, Copy)]
pub struct Ask {
    pub dialler: PartyId,
    pub acceptor: PartyId,
    /// The digest of its deployment's sizes.
    pub sizes: [u8; 32],
    pub life: Life,
    pub nonce: Nonce,
}
