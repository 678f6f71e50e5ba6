//! What a kept replica does under its lock.

ghost use Rattle.locked_replica.specs.Heeding as heeding;
ghost use Rattle.locked_replica.specs.Stepping.{WholeStep};

use crate::kept::Kept;
use ids::Fault;
use replica::{Input, Out};
use turns::{Prompt, Share, UnderLock};

/// A step is one of the replica.
impl<'a> UnderLock for Kept<'a> {
    ghost made = { WholeStep };

    ghost heeds = { heeding.heeds };

    fn step(&mut self, share: &mut Share, input: Input<'_>) -> Result<Out, Fault> {
        // For the proof: what holds before the step.
        self.holds();
        let answer = Kept::step(self, share, input);
        // For the proof: what holds after it.
        self.holds();
        answer
    }

    fn heeds(&self, prompt: Prompt) -> bool {
        let replica = self.replica().replica();
        match prompt {
            Prompt::Beat => replica.wants_beat_now(),
            Prompt::Timeout(view) => replica.view().0 == view.0,
        }
    }
}
