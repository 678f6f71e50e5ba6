//! The reply to one executed command.

ghost use Rattle.std.specs.Prelude.{◌≡◌};

use crate::entry::Entry;
use ids::{ClientId, Place, Seq};
use std::marker::Model;

/// The reply to a fresh command, and the command's place in the one history.
#[derive(Debug, Drop)]
pub struct Answer {
    client: ClientId,
    seq: Seq,
    place: Place,
    text: Vec<u8>,
}

impl Model for Answer {
    ghost use Rattle.definitions.specs.Histories as histories;

    ghost Value = { histories.Answer };

    ghost view = { λ a. record { client = a.client; seq = a.seq; place = a.place; text = a.text.items } };
}

impl Answer {
    /// The answer of this text to an entry.
    pub(crate) fn to(entry: &Entry<'_>, place: Place, text: Vec<u8>) -> Answer
        ensures { result
            ≡ record { client = entry.now.client; seq = entry.now.seq; place = place; text = text.items } }
    {
        Answer {
            client: entry.client(),
            seq: entry.seq(),
            place,
            text,
        }
    }

    /// Whose command is answered.
    pub fn client(&self) -> ClientId
        ensures { result ≡ self.now.client }
    {
        self.client
    }

    /// The command's number among the client's requests.
    pub fn seq(&self) -> Seq
        ensures { result ≡ self.now.seq }
    {
        self.seq
    }

    /// The command's place in the history, counted from 1.
    pub fn place(&self) -> Place
        ensures { result ≡ self.now.place }
    {
        self.place
    }

    /// The reply's text, as a connection is written it.
    pub fn text(&self) -> &[u8]
        ensures { result.now ≡ self.now.text }
    {
        &self.text
    }
}
