//! A stand-in for what steps a replica.

ghost use Rattle.std.specs.Prelude.{⊤};

use crate::workers::seen::Seen;
use ids::{Fault, ReplicaId};
use replica::{Input, Out};
use std::sync::Wait;
use turns::{Prompt, Share, Steps};

/// Notes what comes, and lets `below` make the steps.
#[derive(Drop)]
pub(crate) struct Fake<'l, S> {
    pub(crate) number: ReplicaId,
    pub(crate) below: S,
    pub(crate) seen: &'l Seen,
}

impl<'l, S: Steps> Steps for Fake<'l, S> {
    ghost moved = { λ _ _ _ _ _ _. ⊤ };

    ghost prompted = { λ _ _ _ _ _ _. ⊤ };

    ghost passed = { λ _ _. ⊤ };

    fn step<R: Wait>(&mut self, rt: &R, share: &mut Share, input: Input<'_>) -> Result<Out, Fault> {
        let question = self.seen.note(self.number, &input);
        self.seen.meet(question);
        let answer = self.below.step(rt, share, input);
        self.seen.done();
        match answer {
            Ok(out) => Ok(self.seen.out_of(rt, question, out)),
            Err(fault) => Err(fault),
        }
    }

    fn prompt<R: Wait>(
        &mut self,
        rt: &R,
        share: &mut Share,
        prompt: Prompt,
    ) -> Option<Result<Out, Fault>> {
        self.below.prompt(rt, share, prompt)
    }
}
