//! One pending request.

ghost use Rattle.std.specs.Prelude.{◌≡◌, length, IfOk, OnErr};
ghost use Rattle.definitions.specs.Frames.{command_bytes};
ghost use Rattle.frames_view.specs.Views.{command_of, commands_left};
ghost use Rattle.mempool.specs.Pool.{is_overtaken, is_up_to, stands_among};

use crate::request_id::RequestId;
use appending::append;
use frames_view::{CommandView, Commands};
use ids::{ClientId, Fault, Seq};
use std::alloc::Global;
use std::marker::Model;

/// A pending request. It keeps the bytes of its command once, as a frame spells them, so that a
/// proposal copies them from here.
#[derive(Debug, Drop)]
pub struct Pending {
    client: ClientId,
    seq: Seq,
    payload_len: usize,
    bytes: Vec<u8>,
}

impl Model for Pending {
    ghost use Rattle.std.specs.Prelude.{◌≡◌};
    ghost use Rattle.definitions.specs.Frames.{Command, command_bytes};
    ghost use Rattle.mempool.specs.Pool.{command_at};

    ghost Value = { Command };

    ghost view = { λ p. command_at p.client p.seq p.payload_len p.bytes.items };

    ghost invariant = { λ p. p.bytes.items
        ≡ command_bytes (command_at p.client p.seq p.payload_len p.bytes.items) };
}

impl Pending {
    /// Keeps a copy of a request's bytes.
    pub fn new(alloc: Global, request: &CommandView<'_>) -> Result<Pending, Fault>
        ensures kept { IfOk result (λ p. p ≡ command_of request.now) }
        ensures memory { OnErr result (result ≡ Err Fault.Memory) }
    {
        let mut bytes = Vec::new(alloc);
        append(&mut bytes, &[request.content(), request.vector()])?;
        Ok(Pending {
            client: request.client(),
            seq: request.seq(),
            payload_len: request.payload().len(),
            bytes,
        })
    }

    /// Whose request it is.
    pub fn client(&self) -> ClientId
        ensures { result ≡ self.now.client }
    {
        self.client
    }

    /// Its number among the client's requests.
    pub fn seq(&self) -> Seq
        ensures { result ≡ self.now.seq }
    {
        self.seq
    }

    /// The bytes of its command: the client, the number, the payload with its length, and the client's tags.
    pub fn bytes(&self) -> &[u8]
        ensures { result.now ≡ command_bytes self.now }
    {
        &self.bytes
    }

    /// Whether it is this client's, and its number is at most this one.
    pub(crate) fn is_up_to(&self, client: ClientId, seq: Seq) -> bool
        ensures { result ≡ is_up_to client seq self.now }
    {
        client == self.client && self.seq <= seq
    }

    /// Whether one of these commands is its client's, and has its number or a greater one.
    pub(crate) fn is_overtaken(&self, executed: Commands<'_>) -> bool
        ensures { result ≡ is_overtaken (commands_left executed.entry) self.now }
    {
        for command in executed {
            if self.is_up_to(command.client(), command.seq()) {
                return true;
            }
        }
        false
    }

    /// Whether its client and number are among these.
    pub(crate) fn stands_among(&self, on: &[RequestId]) -> bool
        ensures { result ≡ stands_among on.now self.now }
    {
        on.iter()
            .any(|id| id.client == self.client && id.seq == self.seq)
    }
}
