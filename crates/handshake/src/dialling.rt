ghost use Rattle.std.specs.Prelude.{◌≡◌};
ghost use Rattle.handshake.specs.Texts.{ask_bytes};
ghost use Rattle.handshake.specs.Judging.{heard};

use crate::ask::Ask;
use crate::parts::are_equal;
use crate::peer::Peer;
use crate::refusal::Refusal;
use crate::texts::{AnswerBytes, AskBytes, answer_tag, ask_bytes, read_answer};
use crate::words::Nonce;
use std::marker::Model;

/// A handshake that a dialler began.
#[derive(Drop)]
pub struct Dialling {
    ask: Ask,
    /// The acceptor's nonce.
    greeted: Nonce,
    key: [u8; 32],
}

impl Model for Dialling {
    ghost use Rattle.handshake.specs.Judging as judging;

    ghost Value = { judging.Dialling };

    ghost view = { λ d. record { ask = d.ask; greeted = d.greeted; key = d.key } };
}

impl Dialling {
    pub(crate) fn new(ask: Ask, greeted: Nonce, key: [u8; 32]) -> Dialling
        ensures { result ≡ record { ask = ask; greeted = greeted; key = key } }
    {
        Dialling { ask, greeted, key }
    }

    /// What the dialler sends.
    pub fn ask(&self) -> AskBytes
        ensures { result ≡ ask_bytes self.now.key self.now.greeted self.now.ask }
    {
        ask_bytes(&self.key, self.greeted, &self.ask)
    }

    /// The acceptor, where these bytes are its answer; else `BadTag`. An acceptor with other sizes gives none.
    pub fn hear(&self, answer: &AnswerBytes) -> Result<Peer, Refusal>
        ensures { result ≡ heard self.now answer.now }
    {
        let (life, tag) = read_answer(answer);
        let right = answer_tag(&self.key, self.greeted, &self.ask, life);
        if are_equal(&tag, &right) {
            Ok(Peer::new(self.ask.acceptor, life, self.greeted))
        } else {
            Err(Refusal::BadTag)
        }
    }
}
