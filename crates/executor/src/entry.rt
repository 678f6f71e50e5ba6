//! One executed command.

ghost use Rattle.std.specs.Prelude.{◌≡◌};
ghost use Rattle.definitions.specs.Histories.{entry_of};
ghost use Rattle.frames_view.specs.Views.{command_of};

use frames_view::CommandView;
use ids::{ClientId, Seq};
use std::marker::Model;

/// A command without its tags, as it is entered and as the history lends it.
#[derive(Debug, Drop)]
pub struct Entry<'a> {
    pub(crate) client: ClientId,
    pub(crate) seq: Seq,
    pub(crate) payload: &'a [u8],
}

impl<'a> Model for Entry<'a> {
    ghost use Rattle.definitions.specs.Histories as histories;

    ghost Value = { histories.Entry };

    ghost view = { λ e. record { client = e.client; seq = e.seq; payload = e.payload.now } };
}

impl<'a> Entry<'a> {
    /// The entry of a command.
    pub(crate) fn of(command: &CommandView<'a>) -> Entry<'a>
        ensures { result ≡ entry_of (command_of command.now) }
    {
        Entry {
            client: command.client(),
            seq: command.seq(),
            payload: command.payload(),
        }
    }

    /// Whose command it is.
    pub fn client(&self) -> ClientId
        ensures { result ≡ self.now.client }
    {
        self.client
    }

    /// Its number among the client's requests.
    pub fn seq(&self) -> Seq
        ensures { result ≡ self.now.seq }
    {
        self.seq
    }

    /// What was asked, as it came: any bytes.
    pub fn payload(&self) -> &'a [u8]
        ensures { result.now ≡ self.now.payload }
    {
        self.payload
    }
}
