//! A replica with its archive.

ghost use Rattle.std.specs.Prelude.{◌≡◌, ◌<◌, ◌⊎◌, [], length, reverse, suc, true, false, IsTrue, IfOk, OnErr};
ghost use Rattle.std.specs.Prelude.{MatchOption};
ghost use Rattle.ids.specs.Sizes.{replicas};
ghost use Rattle.audit_ground.specs.Law.{IsLawfullyKept};
ghost use Rattle.admission.specs.Inputs.{input_of, is_addressed};
ghost use Rattle.definitions.specs.Checks.{identity_of};
ghost use Rattle.definitions.specs.Chronicles.{was_pruned};
ghost use Rattle.definitions.specs.Replicas.{running, held_history};
ghost use Rattle.replica.specs.Inputs.{prunes};
ghost use Rattle.replica.specs.Steps.{Stepped};

use crate::chronicle::ChronicleView;
use crate::replica::Replica;
use crate::step_log::Steps;
use admission::Input;
use authenticators::ReplicaKeyring;
use executor::Entries;
use ids::{Config, Fault, ReplicaId};
use signed_frames::Out;
use std::alloc::Global;
use std::hash::RandomState;
use std::marker::Model;

/// What a replica did: each step that stands, and each command that it executed.
#[derive(Drop)]
pub(crate) struct Archive {
    steps: Steps,
    entries: Entries,
}

/// A replica that keeps its past, until it is given leave to prune: each step that stands, and each
/// command that it executed.
///
/// To its callers it is a replica, and its step is the replica's. What it keeps takes memory, which is
/// taken before a step stands or a command is executed; where that is refused, it is the replica that
/// is refused memory.
pub struct Archived {
    replica: Replica,
    archive: Option<Archive>,
}

/// Written out, as that of a replica is.
impl Drop for Archived {
    fn drop(self) {
        let Archived {
            replica: _replica,
            archive: _archive,
        } = self;
    }
}

impl Model for Archived {
    ghost use Rattle.std.specs.Prelude.{◌≡◌, true, MatchOption};
    ghost use Rattle.definitions.specs.Chronicles.{was_pruned};
    ghost use Rattle.replica.specs.Steps.{Held};
    ghost use Rattle.replica.specs.Logs.{IsArchiveOf};

    ghost Value = { Held };

    ghost view = { λ a. a.replica };

    ghost invariant = { λ a. MatchOption a.archive
        (was_pruned a.replica.replica.chronicle ≡ true)
        (λ x. IsArchiveOf a.replica.replica x.steps.items.items x.entries) };
}

impl Archived {
    /// A replica that has made no step, with an empty archive.
    pub fn new(
        alloc: Global,
        config: Config,
        number: ReplicaId,
        keyring: ReplicaKeyring,
        hasher: RandomState,
    ) -> Result<Archived, Fault>
        requires sizes { config ≡ keyring.sizes }
        requires number { number ≡ keyring.party }
        ensures made { IfOk result
            (λ r. r ≡ record { keys = keyring; replica = record { chronicle = []; standing = running } }) }
        ensures memory { OnErr result (result ≡ Err Fault.Memory) }
    {
        let replica = Replica::new(alloc, config, number, keyring, hasher)?;
        let archive = Archive {
            steps: Steps::new(alloc),
            entries: Entries::new(alloc),
        };
        Ok(Archived {
            replica,
            archive: Some(archive),
        })
    }

    /// The replica, without its archive.
    pub fn replica(&self) -> &Replica
        ensures { result.now ≡ self.now }
    {
        &self.replica
    }

    /// The replica with its archive. None once it was given leave to prune.
    pub fn whole(&self) -> Option<Whole<'_>>
        ensures { MatchOption result (was_pruned self.now.replica.chronicle ≡ true)
            (λ w. (w ≡ self.now) × (was_pruned w.replica.chronicle ≡ false)) }
    {
        match &self.archive {
            Some(archive) => Some(Whole {
                replica: &self.replica,
                archive,
            }),
            None => None,
        }
    }

    /// Leave to prune ends the archive. Where it is refused, the archive stays.
    fn prune(&mut self, input: Input<'_>) -> Result<Out, Fault>
        requires own { IsTrue (is_addressed self.old.keys input) }
        requires prunes { IsTrue (prunes input) }
        ensures stepped { Stepped (identity_of self.old.keys) (input_of input.entry) self.old.replica result
            self.new.replica }
        ensures keys { self.new.keys ≡ self.old.keys }
        ensures grows { (length self.new.replica.chronicle ≡ length self.old.replica.chronicle)
            ⊎ (length self.new.replica.chronicle ≡ suc (length self.old.replica.chronicle)) }
    {
        match self.replica.step(input) {
            Ok(out) => {
                self.archive = None;
                Ok(out)
            }
            Err(fault) => Err(fault),
        }
    }

    /// Takes an input: one step of the replica, which is kept. Leave to prune ends its archive.
    ///
    /// Its refusals are those of `Replica::step`.
    pub fn step(&mut self, input: Input<'_>) -> Result<Out, Fault>
        requires { IsTrue (is_addressed self.old.keys input) }
        ensures stepped { Stepped (identity_of self.old.keys) (input_of input.entry) self.old.replica result
            self.new.replica }
        ensures keys { self.new.keys ≡ self.old.keys }
        ensures grows { (length self.new.replica.chronicle ≡ length self.old.replica.chronicle)
            ⊎ (length self.new.replica.chronicle ≡ suc (length self.old.replica.chronicle)) }
    {
        if let Input::Prune(_) = input {
            return self.prune(input);
        }
        match &mut self.archive {
            Some(archive) => {
                self.replica
                    .step_into(input, &mut archive.steps, &mut archive.entries)
            }
            None => self.replica.step(input),
        }
    }
}

/// A replica with all its past, lent.
#[derive(Drop)]
pub struct Whole<'a> {
    replica: &'a Replica,
    archive: &'a Archive,
}

impl<'a> Model for Whole<'a> {
    ghost use Rattle.replica.specs.Steps.{Held};
    ghost use Rattle.replica.specs.Logs.{IsArchiveOf};

    ghost Value = { Held };

    ghost view = { λ w. w.replica.now };

    ghost invariant = { λ w. IsArchiveOf w.replica.now.replica w.archive.now.steps.items.items
        w.archive.now.entries };
}

impl<'a> Whole<'a> {
    /// The replica, without its archive.
    pub fn replica(&self) -> &'a Replica
        ensures { result.now ≡ self.now }
    {
        self.replica
    }

    /// Which replica it is.
    pub fn number(&self) -> ReplicaId
        ensures { result ≡ self.now.keys.party }
    {
        self.replica.number()
    }

    /// The sizes that it was made with.
    pub fn config(&self) -> Config
        ensures { result ≡ self.now.keys.sizes }
    {
        self.replica.config()
    }

    /// Says that it is one of the replicas of its sizes, and that its chronicle is kept as an audit
    /// wants it, and does nothing else.
    pub fn holds(&self)
        ensures number { self.now.keys.party < replicas self.now.keys.sizes }
        ensures kept { IsLawfullyKept self.now.keys.sizes self.now.replica.chronicle }
    {
        // For the proof: the replica's chronicle is lawful.
        self.replica.holds();
    }

    /// The steps that stand.
    pub fn chronicle(&self) -> ChronicleView<'a>
        ensures { result ≡ self.now.replica.chronicle }
    {
        self.replica.chronicle(&self.archive.steps.items)
    }

    /// What it executed, oldest first.
    pub fn history(&self) -> &'a Entries
        ensures { reverse result.now ≡ held_history self.now.replica }
    {
        &self.archive.entries
    }
}
