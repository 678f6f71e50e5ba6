use ids::PartyId;

/// The key of two parties: a replica, and a replica of no lower number or a client.
#[derive(Clone, Copy)]
pub struct PairKey {
    pub one: PartyId,
    pub other: PartyId,
    pub key: [u8; 32],
}
