//! A kept replica that is stepped.

ghost use Rattle.std.specs.Prelude.{◌≡◌, ◌<◌};
ghost use Rattle.marks.specs.Eyes.{first_eyes};
ghost use Rattle.ids.specs.Sizes.{replicas};

use crate::carried::beside;
use crate::step::shares::{close, joined, kept_with, strange_share};
use crate::step::told::tell_answer;
use admission::admit;
use ids::{Config, Fault, ReplicaId};
use locked_replica::{Kept, Share};
use marks::{Eye, Marks};
use replica::{Input, Out};
use simulated_keys::replica_keyring_of;
use std::alloc::Global;
use std::hash::RandomState;

/// A number of a line.
pub(crate) fn number(digits: &str) -> Result<u8, Fault> {
    digits.parse().ok().ok_or(Fault::BadFields)
}

/// A kept replica and shares of it; the last one is a share of another kept replica.
#[derive(Drop)]
pub(crate) struct Stepped<'a> {
    config: Config,
    kept: Kept<'a>,
    shares: Vec<Share>,
}

impl<'a> Stepped<'a> {
    /// A replica that has made no step.
    pub(crate) fn new(
        alloc: Global,
        hasher: RandomState,
        config: Config,
        number: ReplicaId,
        count: u8,
        marks: &'a Marks,
        eyes: Vec<Eye>,
    ) -> Result<Stepped<'a>, Fault>
        requires number { number < replicas config }
        requires eyes { eyes.items ≡ first_eyes marks.now }
        requires words { marks.now.words ≡ replicas config }
    {
        let strange = strange_share(alloc, hasher, config, number, count)?;
        let (kept, shares) = kept_with(alloc, hasher, config, number, count, marks, eyes)?;
        let (kept, shares) = beside(kept, joined(shares, strange))?;
        Ok(Stepped {
            config,
            kept,
            shares,
        })
    }

    /// What a share is answered.
    fn bring(&mut self, share: u8, input: Input) -> Result<Result<Out, Fault>, Fault> {
        match self.shares.get_mut(usize::from(share)) {
            Some(share) => Ok(self.kept.step(share, input)),
            None => Err(Fault::BadFields),
        }
    }

    /// What a share is answered that brings bytes, checked with the keys of this replica.
    fn receive(
        &mut self,
        alloc: Global,
        share: u8,
        checker: u8,
        bytes: &[u8],
    ) -> Result<Result<Out, Fault>, Fault> {
        let ring = replica_keyring_of(alloc, self.config, ReplicaId(checker))?;
        match admit(ring.verifying(), bytes) {
            Ok(input) => self.bring(share, input),
            Err(fault) => Ok(Err(fault)),
        }
    }

    /// What an input is answered.
    fn take(&mut self, alloc: Global, input: &str) -> Result<Result<Out, Fault>, Fault> {
        let (share, brought) = input.split_once(':').unwrap_or(("", ""));
        let share = number(share)?;
        match brought {
            "beat" => self.bring(share, Input::Beat),
            "timeout" => self.bring(share, Input::Timeout),
            _ => {
                let (checker, digits) = brought.split_once(':').unwrap_or(("", ""));
                let bytes = hex::decode(alloc, digits).ok().ok_or(Fault::BadFields)?;
                self.receive(alloc, share, number(checker)?, &bytes)
            }
        }
    }

    /// Tells what an input is answered.
    fn tell(&mut self, alloc: Global, input: &str, text: &mut String) -> Result<(), Fault> {
        let answer = self.take(alloc, input)?;
        tell_answer(alloc, &answer, text)?;
        text.push_str(", ")?;
        Ok(())
    }

    /// Tells the shares' counts.
    fn tell_counts(&self, text: &mut String) -> Result<(), Fault> {
        text.push_str("[")?;
        for share in &self.shares {
            write!(text, " {}", share.count())?;
        }
        text.push_str(" ]")?;
        Ok(())
    }

    /// Tells what the inputs are answered, and then the shares' counts.
    fn tell_all(&mut self, alloc: Global, inputs: &str, text: &mut String) -> Result<(), Fault> {
        for input in inputs.split(' ') {
            self.tell(alloc, input, text)?;
        }
        self.tell_counts(text)
    }

    /// Brings all inputs, and closes.
    pub(crate) fn run(
        mut self,
        alloc: Global,
        inputs: &str,
        text: &mut String,
    ) -> Result<(), Fault> {
        let told = self.tell_all(alloc, inputs, text);
        let (stepped, ()) = beside(self, told)?;
        let Stepped { kept, shares, .. } = stepped;
        close(alloc, kept, shares, text)
    }
}
