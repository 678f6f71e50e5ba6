//! The events of a schedule.

ghost use Rattle.std.specs.Prelude.{◌≡◌};
ghost use Rattle.world_schedule.specs.Schedules.{party_named};

use ids::{ClientId, Digest, Height, PartyId, ReplicaId};

/// Where a frame comes from.
#[derive(Debug, Drop)]
pub enum Source {
    /// The record: the frame of this number.
    Record(u64),
    /// Any bytes.
    Bytes(Vec<u8>),
}

/// One event of a schedule.
#[derive(Debug, Drop)]
pub enum Event {
    /// A client submits a request, of which this is the canonical text.
    Submit {
        client: ClientId,
        payload: Vec<u8>,
    },
    /// A frame of the record, by its number, is brought to a party.
    Relay {
        frame: u64,
        to: PartyId,
    },
    /// Any bytes are brought to a party.
    Inject {
        to: PartyId,
        bytes: Vec<u8>,
    },
    /// A replica's view has lasted too long.
    Timeout(ReplicaId),
    /// A replica is told to propose, if it leads.
    Beat(ReplicaId),
    /// A replica is given leave to prune its tree up to a height.
    Prune {
        replica: ReplicaId,
        height: Height,
    },
    /// A frame is offered to a replica: the certificate in it needn't be good for it.
    Offer {
        to: ReplicaId,
        source: Source,
    },
    /// Copies of a block come to a replica together.
    Gather {
        to: ReplicaId,
        sources: Vec<Source>,
    },
    /// A replica is told to lead from the block of a digest.
    Lead {
        replica: ReplicaId,
        block: Digest,
    },
    /// A replica is told to ask another one for the block of a digest.
    Ask {
        replica: ReplicaId,
        to: ReplicaId,
        block: Digest,
    },
}

impl Event {
    /// The party that it names.
    pub(crate) fn party(&self) -> PartyId
        ensures { result ≡ party_named self.now }
    {
        match self {
            Event::Submit { client, .. } => PartyId::from(*client),
            Event::Relay { to, .. } | Event::Inject { to, .. } => *to,
            Event::Offer { to, .. } | Event::Gather { to, .. } => PartyId::from(*to),
            Event::Timeout(replica)
            | Event::Beat(replica)
            | Event::Prune { replica, .. }
            | Event::Lead { replica, .. }
            | Event::Ask { replica, .. } => PartyId::from(*replica),
        }
    }
}
