//! Commands.

ghost use Rattle.std.specs.Prelude.{◌≡◌, ◌+◌, ◌*◌, ◌≤◌, length, IfSome};
ghost use Rattle.definitions.specs.Frames.{command_content};
ghost use Rattle.definitions.specs.Slices.{LentAt, LeftAt};
ghost use Rattle.definitions.specs.Tags.{tag_of};
ghost use Rattle.frames_view.specs.Parts.{content_in, command_in};
ghost use Rattle.frames_view.specs.Views.{Gives, command_of};
ghost use Rattle.frames_view.specs.Places.{IsCommandAt, command_len};

use crate::cursor::{before, block_at, take_party, take_payload, take_positive, take_vector};
use crate::views::CommandView;
use ids::{ClientId, ReplicaId, Seq};

impl<'a> CommandView<'a> {
    /// Whose command it is.
    pub fn client(&self) -> ClientId
        ensures { result ≡ (command_of self.now).client }
    {
        ClientId(self.client)
    }

    /// Its number among the client's requests.
    pub fn seq(&self) -> Seq
        ensures { result ≡ (command_of self.now).seq }
    {
        Seq(self.seq)
    }

    /// What is asked.
    pub fn payload(&self) -> &'a [u8]
        ensures value { result.now ≡ (command_of self.now).payload }
        ensures lent { result ≡ self.now.payload }
    {
        self.payload
    }

    /// What the client's tags speak of.
    pub fn content(&self) -> &'a [u8]
        ensures value { let c = command_of self.now in result.now ≡ command_content c.client c.seq c.payload }
        ensures lent { result ≡ self.now.content }
    {
        self.content
    }

    /// Its tags, one for each replica.
    pub fn vector(&self) -> &'a [u8]
        ensures value { result.now ≡ (command_of self.now).vector }
        ensures lent { result ≡ self.now.vector }
    {
        self.vector
    }

    /// Its tag for a replica.
    pub fn tag(&self, replica: ReplicaId) -> &'a [u8; 32]
        requires { 32 * replica + 32 ≤ length (command_of self.now).vector }
        ensures { result.now ≡ tag_of (command_of self.now).vector replica }
    {
        block_at(self.vector, 32 * usize::from(replica.0))
    }
}

/// The client, the number and the payload of a command.
#[tactic(auto, unfolding(crate::specs::Parts::content_in))]
fn take_content(bytes: &[u8], clients: u8) -> Option<((u8, u64, &[u8]), &[u8])>
    ensures taken { Gives (λ p. ((p.0.0, (p.0.1, p.0.2.now)), p.1.now)) result
        (content_in clients bytes.now) }
    ensures lent { IfSome result
        (λ p. LentAt bytes.entry 12 p.0.2 × LeftAt bytes.entry (12 + length p.0.2.now) p.1) }
{
    let (client, rest) = take_party(bytes, clients)?;
    let (seq, rest) = take_positive(rest)?;
    let (payload, rest) = take_payload(rest)?;
    Some(((client, seq, payload), rest))
}

/// A command of one of so many clients, to so many replicas.
#[tactic(auto, unfolding(crate::specs::Parts::command_in))]
pub(crate) fn take_command(
    bytes: &[u8],
    replicas: u8,
    clients: u8,
) -> Option<(CommandView<'_>, &[u8])>
    ensures taken { Gives (λ p. (command_of p.0, p.1.now)) result (command_in replicas clients bytes.now) }
    ensures lent { IfSome result
        (λ p. IsCommandAt bytes.entry 0 p.0 × LeftAt bytes.entry (command_len p.0) p.1) }
{
    let ((client, seq, payload), rest) = take_content(bytes, clients)?;
    let content = before(bytes, rest);
    let (vector, rest) = take_vector(rest, replicas)?;
    let command = CommandView {
        content,
        client,
        seq,
        payload,
        vector,
    };
    Some((command, rest))
}
