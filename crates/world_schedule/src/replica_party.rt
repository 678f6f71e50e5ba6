//! A replica as a party of a world.

ghost use Rattle.std.specs.Prelude.{◌≡◌, ◌<◌, List, length, IsTrue, IfOk, OnErr};
ghost use Rattle.ids.specs.Sizes.{replicas};
ghost use Rattle.definitions.specs.Checks.{identity_of};
ghost use Rattle.admission.specs.Inputs.{input_of, is_addressed};
ghost use Rattle.definitions.specs.Admission.{passes};
ghost use Rattle.std.specs.Borrow.{Bor};
ghost use Rattle.std.specs.List.{list_all};
ghost use Rattle.definitions.specs.Bytes.{Bytes};
ghost use Rattle.world_schedule.specs.Asking.{AnswersTo, Answers, checks_of};
ghost use Rattle.world_schedule.specs.Schedules.{has_source};
ghost use Rattle.world_schedule.specs.Sources.{AreBytesOf};
ghost use Rattle.world_schedule.specs.Turns.{TakesCopies};
ghost use Rattle.world_schedule.specs.Seats.{IsNewReplica};

use crate::effect::Effect;
use crate::event::Source;
use crate::outcome::SentFrame;
use crate::sources::frames_of;
use crate::way::{Way, admit_by};
use crate::world::World;
use admission::admit_copies;
use authenticators::ReplicaKeyring;
use ids::{Fault, ReplicaId};
use replica::{Archived, Input, Out, Replica};
use std::alloc::Global;
use std::marker::Model;

/// A replica, and its keys once more, with which what comes to it is checked.
#[derive(Drop)]
pub(crate) struct ReplicaParty {
    replica: Archived,
    keyring: ReplicaKeyring,
}

impl Model for ReplicaParty {
    ghost use Rattle.std.specs.Prelude.{◌≡◌};
    ghost use Rattle.replica.specs.Steps.{Held};

    ghost Value = { Held };

    ghost view = { λ p. p.replica };

    ghost invariant = { λ p. p.keyring ≡ p.replica.keys };
}

impl ReplicaParty {
    /// A replica that has made no step.
    pub(crate) fn new(world: &World, number: ReplicaId) -> Result<ReplicaParty, Fault>
        requires { number < replicas world.now.sizes }
        ensures made { IfOk result (IsNewReplica world.now number) }
        ensures memory { OnErr result (result ≡ Err Fault.Memory) }
    {
        let (alloc, config) = (world.alloc(), world.config());
        let keyring = ReplicaKeyring::new(world.keyring(number.into()).duplicate(alloc)?).unwrap();
        let own = keyring.duplicate(alloc)?;
        let replica = Archived::new(alloc, config, number, own, world.hasher())?;
        Ok(ReplicaParty { replica, keyring })
    }

    /// The replica.
    pub(crate) fn replica(&self) -> &Replica
        ensures { result.now ≡ self.now }
    {
        self.replica.replica()
    }

    /// The replica with its archive.
    pub(crate) fn archived(&self) -> &Archived
        ensures { result.now ≡ self.now }
    {
        &self.replica
    }

    /// The replica itself.
    pub(crate) fn into_replica(self) -> Archived
        ensures { result ≡ self }
    {
        self.replica
    }

    /// Takes an input that was checked for it: one step of the replica.
    pub(crate) fn step(&mut self, input: Input<'_>) -> Result<Out, Fault>
        requires { IsTrue (is_addressed self.old.keys input) }
        ensures keys { self.new.keys ≡ self.old.keys }
        ensures answers { AnswersTo (identity_of self.old.keys) (passes (input_of input.entry))
            self.old.replica self.new.replica result }
    {
        self.replica.step(input)
    }

    /// Takes bytes that come this way, checked with the replica's keys.
    pub(crate) fn take(&mut self, way: Way, bytes: &[u8]) -> Result<Out, Fault>
        ensures keys { self.new.keys ≡ self.old.keys }
        ensures taken { Answers (checks_of way) (identity_of self.old.keys) bytes.now self.old.replica
            self.new.replica result }
    {
        match admit_by(self.keyring.verifying(), way, bytes) {
            Ok(input) => self.replica.step(input),
            Err(fault) => Err(fault),
        }
    }

    /// Takes the frames of these sources together. For want of a block below it asks nobody.
    ///
    /// `Memory` where the row of their bytes is refused; the replica then takes nothing.
    pub(crate) fn take_copies(
        &mut self,
        alloc: Global,
        sent: &[SentFrame],
        sources: &[Source],
    ) -> Result<Effect, Fault>
        requires there { IsTrue (list_all (has_source (length sent.now)) sources.now) }
        ensures keys { self.new.keys ≡ self.old.keys }
        ensures taken { IfOk result (λ e. (frames : List (Bor Bytes))
            × AreBytesOf sent.now sources.now frames
            × TakesCopies (identity_of self.old.keys) frames self.old.replica self.new.replica e) }
        ensures memory { OnErr result (result ≡ Err Fault.Memory) }
    {
        let frames = frames_of(alloc, sent, sources)?;
        match admit_copies(self.keyring.verifying(), frames.as_slice()) {
            Ok(input) => {
                let answer = self.replica.step(input);
                Ok(Effect::answers(alloc, answer))
            }
            Err(fault) => Ok(Effect::only(alloc, Some(fault))),
        }
    }
}
