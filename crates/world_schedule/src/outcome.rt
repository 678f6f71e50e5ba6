//! What a run comes to.

ghost use Rattle.std.specs.Prelude.{◌≡◌, length, reverse, IfSome};
ghost use Rattle.definitions.specs.Replicas.{held_history};

use client_accept::Receipt;
use executor::Entries;
use ids::{ClientId, Fault, Kind, ReplicaId};
use replica::{Archived, To};
use std::marker::Model;

/// A frame of the record: in which event it was sent, counted from 1, where it goes, of what kind it
/// is, and its bytes.
#[derive(Drop)]
pub struct SentFrame {
    pub event: u64,
    pub to: To,
    pub kind: Kind,
    pub frame: Vec<u8>,
}

/// A receipt: in which event, counted from 1, which client accepted what.
#[derive(Drop)]
pub struct Accepted {
    pub event: u64,
    pub client: ClientId,
    pub receipt: Receipt,
}

/// What one replica executed.
#[derive(Drop)]
pub struct History {
    replica: Archived,
}

impl Model for History {
    ghost use Rattle.world_schedule.specs.Told.{Told};
    ghost use Rattle.definitions.specs.Replicas.{held_history};

    ghost Value = { Told };

    ghost view = { λ h. record { replica = h.replica.keys.party; history = held_history h.replica.replica } };
}

impl History {
    /// What this replica executed.
    pub(crate) fn of(replica: Archived) -> History
        ensures { result ≡ record { replica = replica.keys.party; history = held_history replica.replica } }
    {
        History { replica }
    }

    /// Whose history it is.
    pub fn replica(&self) -> ReplicaId
        ensures { result ≡ self.now.replica }
    {
        self.replica.replica().number()
    }

    /// How many commands were executed.
    pub fn len(&self) -> usize
        ensures { result ≡ length self.now.history }
    {
        self.replica.replica().executed()
    }

    /// The executed commands, oldest first. None of a replica that was given leave to prune.
    pub fn entries(&self) -> Option<&Entries>
        ensures { IfSome result (λ all. reverse all.now ≡ self.now.history) }
    {
        match self.replica.whole() {
            Some(whole) => Some(whole.history()),
            None => None,
        }
    }
}

/// What a run comes to.
#[derive(Drop)]
pub struct Outcome {
    /// What correct parties sent, in its order. A frame's number is its place here, from 0.
    pub frames: Vec<SentFrame>,
    /// What each event was answered: a refusal, or none.
    pub answers: Vec<Option<Fault>>,
    /// What correct clients accepted, in its order.
    pub receipts: Vec<Accepted>,
    /// What the correct replicas executed, by their numbers.
    pub histories: Vec<History>,
}
