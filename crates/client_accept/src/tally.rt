//! What replicas told of the outstanding request.

ghost use Rattle.std.specs.Prelude.{◌≡◌, ◌==◌, ◌<◌, ◌∷◌, [], length, OnOk, OnErr};
ghost use Rattle.std.specs.List.{list_any};
ghost use Rattle.definitions.specs.Tally.{is_counted, agrees, agreeing};
ghost use Rattle.client_accept.specs.Tallies.{told_in, tally_of, AreAmong};

use crate::answers::{Answer, keep};
use ids::{Fault, Place, ReplicaId};
use std::alloc::Global;
use std::marker::Model;

/// A replica, and the number of the answer that it gave.
#[derive(Clone, Copy)]
pub(crate) struct Counted {
    pub(crate) replica: ReplicaId,
    pub(crate) answer: usize,
}

/// What each replica told first. Answers that are equal are kept once.
#[derive(Drop)]
pub(crate) struct Tally {
    alloc: Global,
    answers: Vec<Answer>,
    /// The last one first.
    counted: Vec<Counted>,
}

impl Model for Tally {
    ghost use Rattle.std.specs.Prelude.{List};
    ghost use Rattle.definitions.specs.Tally.{Told};
    ghost use Rattle.client_accept.specs.Tallies.{tally_of, AreAmong};

    ghost Value = { List Told };

    ghost view = { λ t. tally_of t.answers.items t.counted.items };

    ghost invariant = { λ t. AreAmong t.answers.items t.counted.items };
}

/// Whether a replica is among these.
fn has(counted: &[Counted], replica: ReplicaId) -> bool
    ensures { result ≡ list_any (λ c. c.replica == replica) counted.now }
{
    counted.iter().any(|counted| counted.replica == replica)
}

/// How many of these gave the answer that is this place and text.
fn agreeing_of(answers: &[Answer], counted: &[Counted], place: Place, text: &[u8]) -> usize
    requires { AreAmong answers.now counted.now }
    ensures { result ≡ agreeing (tally_of answers.now counted.now) place text.now }
{
    counted
        .iter()
        .filter(
            |told| -> bool
                requires { told.now.now.answer < length answers.now }
                ensures { result ≡ agrees place text.entry.now (told_in answers.entry.now told.now.now) }
            { answers[told.answer].is(place, text) },
        )
        .count()
}

impl Tally {
    /// Nobody told anything. It takes no memory yet.
    pub(crate) fn new(alloc: Global) -> Tally
        ensures { result ≡ [] }
    {
        Tally {
            alloc,
            answers: Vec::new(alloc),
            counted: Vec::new(alloc),
        }
    }

    /// Whether a replica was counted.
    pub(crate) fn is_counted(&self, replica: ReplicaId) -> bool
        ensures { result ≡ is_counted self.now replica }
    {
        has(self.counted.as_slice(), replica)
    }

    /// How many replicas told this place and text.
    pub(crate) fn agreeing(&self, place: Place, text: &[u8]) -> usize
        ensures { result ≡ agreeing self.now place text.now }
    {
        agreeing_of(
            self.answers.as_slice(),
            self.counted.as_slice(),
            place,
            text,
        )
    }

    /// Counts what a replica told. At `Memory` nothing is counted.
    pub(crate) fn count(
        &mut self,
        replica: ReplicaId,
        place: Place,
        text: &[u8],
    ) -> Result<(), Fault>
        ensures counted { OnOk result
            (self.new ≡ record { replica = replica; place = place; text = text.now } ∷ self.old) }
        ensures unchanged { OnErr result (self.new ≡ self.old) }
        ensures memory { OnErr result (result ≡ Err Fault.Memory) }
    {
        self.counted.reserve(1)?;
        let answer = keep(self.alloc, &mut self.answers, place, text)?;
        self.counted.insert(0, Counted { replica, answer })?;
        Ok(())
    }
}
