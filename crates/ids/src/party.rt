ghost use Rattle.std.specs.Prelude.{◌≡◌, ◌+◌, ◌<◌, MatchOption};
ghost use Rattle.ids.specs.Sizes.{client_party};

use std::fmt;
use std::marker::Model;

/// The number of a replica, from 0. Displayed as in a schedule: `r2`.
#[derive(Clone, Copy, Debug, PartialEq, Eq, PartialOrd, Ord, Hash)]
pub struct ReplicaId(pub u8);

impl Model for ReplicaId {
    ghost use Rattle.std.specs.Prelude.{ℕ};

    ghost Value = { ℕ };

    ghost view = { λ replica. replica.0 };

    ghost inverse = { λ n. record { 0 = n } };
}

impl fmt::Display for ReplicaId {
    fn fmt<W: fmt::Write>(&self, f: &mut fmt::Formatter<W>) -> fmt::Result {
        write!(f, "r{}", self.0)
    }
}

/// The number of a client, from 0. Displayed as in a schedule: `c0`.
#[derive(Clone, Copy, Debug, PartialEq, Eq, PartialOrd, Ord, Hash)]
pub struct ClientId(pub u8);

impl Model for ClientId {
    ghost use Rattle.std.specs.Prelude.{ℕ};

    ghost Value = { ℕ };

    ghost view = { λ client. client.0 };

    ghost inverse = { λ n. record { 0 = n } };
}

impl fmt::Display for ClientId {
    fn fmt<W: fmt::Write>(&self, f: &mut fmt::Formatter<W>) -> fmt::Result {
        write!(f, "c{}", self.0)
    }
}

/// A party that sends or receives frames: replica i is i, client c is 256 + c.
#[derive(Clone, Copy, Debug, PartialEq, Eq, PartialOrd, Ord, Hash)]
pub struct PartyId(pub u16);

impl Model for PartyId {
    ghost use Rattle.std.specs.Prelude.{ℕ};

    ghost Value = { ℕ };

    ghost view = { λ party. party.0 };

    ghost inverse = { λ n. record { 0 = n } };
}

/// The party of the first client. Those before it are for replicas.
const FIRST_CLIENT: u16 = 256;

impl PartyId {
    /// The number of the client that it is. None where it is a replica.
    pub fn client(self) -> Option<u16>
        ensures { MatchOption result (self < client_party 0) (λ client. self ≡ client_party client) }
    {
        self.0.checked_sub(FIRST_CLIENT)
    }
}

impl From<ReplicaId> for PartyId {
    ghost from_gives = { λ replica party. party ≡ replica };

    fn from(replica: ReplicaId) -> PartyId {
        PartyId(u16::from(replica.0))
    }
}

impl From<ClientId> for PartyId {
    ghost from_gives = { λ client party. party ≡ client_party client };

    fn from(client: ClientId) -> PartyId {
        PartyId(FIRST_CLIENT + u16::from(client.0))
    }
}

impl fmt::Display for PartyId {
    fn fmt<W: fmt::Write>(&self, f: &mut fmt::Formatter<W>) -> fmt::Result {
        match self.client() {
            None => write!(f, "r{}", self.0),
            Some(client) => write!(f, "c{client}"),
        }
    }
}
