ghost use Rattle.std.specs.Prelude.{◌≡◌, Option, if◌then◌else◌};
ghost use Rattle.handshake.specs.Judging.{admitted, admitted_by, dialled, link_key};
ghost use Rattle.handshake.specs.Texts.{ask_in};

use crate::ask::Ask;
use crate::dialling::Dialling;
use crate::parts::are_equal;
use crate::peer::Peer;
use crate::refusal::Refusal;
use crate::texts::{
    AnswerBytes, AskBytes, GreetingBytes, answer_bytes, ask_tag, read_ask, read_greeting,
    sizes_digest,
};
use crate::words::{Life, Nonce};
use ids::{Config, PartyId};
use key_file::{PairKey, find_key};
use std::marker::Model;

/// A party at its handshakes, with the keys that it shares with others.
#[derive(Drop)]
pub struct Endpoint {
    config: Config,
    party: PartyId,
    life: Life,
    keys: Vec<PairKey>,
}

impl Model for Endpoint {
    ghost use Rattle.handshake.specs.Judging as judging;

    ghost Value = { judging.Endpoint };

    ghost view = { λ e. record { sizes = e.config; party = e.party; life = e.life; keys = e.keys.items } };
}

impl Endpoint {
    /// A party, in its life, with the keys that it holds, as a key file has them.
    pub fn new(config: Config, party: PartyId, life: Life, keys: Vec<PairKey>) -> Endpoint
        ensures { result ≡ record { sizes = config; party = party; life = life; keys = keys.items } }
    {
        Endpoint {
            config,
            party,
            life,
            keys,
        }
    }

    /// The sizes of its deployment.
    pub fn config(&self) -> &Config
        ensures { result.now ≡ self.now.sizes }
    {
        &self.config
    }

    /// Its number.
    pub fn party(&self) -> PartyId
        ensures { result ≡ self.now.party }
    {
        self.party
    }

    /// The key of a dialler and an acceptor, where they have one.
    fn link_key(&self, dialler: PartyId, acceptor: PartyId) -> Option<[u8; 32]>
        ensures { result ≡ link_key self.now.keys dialler acceptor }
    {
        if dialler.0 <= acceptor.0 {
            return None;
        }
        find_key(&self.keys, dialler, acceptor)
    }

    /// Begins a handshake with an acceptor that greeted so, with a nonce that is made for it.
    ///
    /// `NotAGreeting` where the greeting has other words; `NotAParty` where no key is held with that party, or this
    /// one's number isn't the higher.
    pub fn dial(
        &self,
        acceptor: PartyId,
        greeting: &GreetingBytes,
        nonce: Nonce,
    ) -> Result<Dialling, Refusal>
        ensures { result ≡ dialled self.now acceptor greeting.now nonce }
    {
        let greeted = read_greeting(greeting).ok_or(Refusal::NotAGreeting)?;
        let key = self
            .link_key(self.party, acceptor)
            .ok_or(Refusal::NotAParty)?;
        let ask = Ask {
            dialler: self.party,
            acceptor,
            sizes: sizes_digest(&self.config),
            life: self.life,
            nonce,
        };
        Ok(Dialling::new(ask, greeted, key))
    }

    /// Who asks, and the answer to it, where this party greeted with this nonce.
    ///
    /// `NotMine` where another party is asked; `NotAParty` where no key is held with the dialler, or its number isn't
    /// the higher; `BadTag` where the tag isn't right for what is said; `OtherSizes` only behind that: so a warning of
    /// other sizes comes from who holds the key.
    pub fn admit(&self, greeted: Nonce, bytes: &AskBytes) -> Result<(Peer, AnswerBytes), Refusal>
        ensures { result ≡ admitted self.now greeted bytes.now }
    {
        let (ask, tag) = read_ask(bytes);
        if ask.acceptor != self.party {
            return Err(Refusal::NotMine);
        }
        let key = self
            .link_key(ask.dialler, self.party)
            .ok_or(Refusal::NotAParty)?;
        if !are_equal(&tag, &ask_tag(&key, greeted, &ask)) {
            return Err(Refusal::BadTag);
        }
        if ask.sizes != sizes_digest(&self.config) {
            return Err(Refusal::OtherSizes(ask.dialler));
        }
        let peer = Peer::new(ask.dialler, ask.life, ask.nonce);
        let answer = answer_bytes(&key, greeted, &ask, self.life);
        Ok((peer, answer))
    }
}
