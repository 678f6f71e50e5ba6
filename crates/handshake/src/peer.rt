ghost use Rattle.std.specs.Prelude.{◌≡◌};

use crate::words::{Life, Nonce};
use ids::PartyId;
use std::marker::Model;

/// Who stands at the other end of a link. Only a handshake makes one.
#[derive(Clone, Copy)]
pub struct Peer {
    party: PartyId,
    life: Life,
    nonce: Nonce,
}

impl Model for Peer {
    ghost use Rattle.handshake.specs.Judging as judging;

    ghost Value = { judging.Peer };

    ghost view = { λ p. record { party = p.party; life = p.life; nonce = p.nonce } };

    ghost inverse = { λ p. record { party = p.party; life = p.life; nonce = p.nonce } };
}

impl Peer {
    pub(crate) fn new(party: PartyId, life: Life, nonce: Nonce) -> Peer
        ensures { result ≡ record { party = party; life = life; nonce = nonce } }
    {
        Peer { party, life, nonce }
    }

    /// The party that it is.
    pub fn party(&self) -> PartyId
        ensures { result ≡ self.now.party }
    {
        self.party
    }

    /// Its life. Who is met in a second life came back without its memory, or is there twice.
    pub fn life(&self) -> Life
        ensures { result ≡ self.now.life }
    {
        self.life
    }

    /// The nonce that it made for this handshake.
    pub fn nonce(&self) -> Nonce
        ensures { result ≡ self.now.nonce }
    {
        self.nonce
    }
}
