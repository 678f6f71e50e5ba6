ghost use Rattle.std.specs.Prelude.{◌≡◌, ◌+◌, ◌<◌, ◌≤◌, ◌==◌, ◌&&◌, ◌||◌, nat_le, nat_lt, true};
ghost use Rattle.ids.specs.Sizes.{client_party};
ghost use Rattle.key_file.specs.Holders.{acts_for, has_pair};

use ids::{ClientId, PartyId, ReplicaId};

/// Whose keys a key file has: those of each pair in which its holder acts for one of the two.
#[derive(Clone, Copy, Debug, PartialEq, Eq)]
pub enum Holder {
    /// One process runs all parties.
    Everyone,
    /// A replica.
    Replica(ReplicaId),
    /// A front: so many clients, from one on.
    Clients(ClientId, u8),
}

/// Whether a party is among so many clients from one on.
fn is_among(party: PartyId, first: ClientId, count: u8) -> bool
    ensures { result ≡ (nat_le (client_party first) party && nat_lt party (client_party first + count)) }
{
    let first = PartyId::from(first).0;
    first <= party.0 && party.0 < first + u16::from(count)
}

impl Holder {
    /// Whether it is, or has, this party.
    pub fn acts_for(&self, party: PartyId) -> bool
        ensures { result ≡ acts_for self.now party }
    {
        match self {
            Holder::Everyone => true,
            Holder::Replica(replica) => party == PartyId::from(*replica),
            Holder::Clients(first, count) => is_among(party, *first, *count),
        }
    }

    /// Whether it has the key of these two.
    pub fn has_pair(&self, one: PartyId, other: PartyId) -> bool
        ensures { result ≡ has_pair self.now (one, other) }
    {
        self.acts_for(one) || self.acts_for(other)
    }
}
