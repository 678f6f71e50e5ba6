//! What steps a replica.

ghost use Rattle.std.specs.Prelude.{◌≡◌, Bool, true, false, List, Result, IfSome, IfNone};
ghost use Rattle.ids.specs.declared.fault.Fault.{Fault};
ghost use Rattle.admission.specs.declared.input.Input.{Input};
ghost use Rattle.signed_frames.specs.Outs.{SentBytes};
ghost use Rattle.turns.specs.declared.prompt.Prompt.{Prompt};
ghost use Rattle.turns.specs.Prompts.{input_of};
ghost use Rattle.turns.specs.Shares.{ShareState, Counts};

use crate::prompt::Prompt;
use crate::share::Share;
use admission::Input;
use ids::Fault;
use signed_frames::Out;
use std::sync::{Mutex, Wait};

/// Steps a replica with a share that counts it.
pub trait Steps {
    /// What a step does: the value and the share before, the input, the answer, and the value and
    /// the share after.
    ghost moved: { Self → ShareState → Input → Result (List SentBytes) Fault → Self → ShareState → Type 0 };

    /// What a prompt's step does, in the same way.
    ghost prompted: { Self → ShareState → Prompt → Result (List SentBytes) Fault → Self → ShareState → Type 0 };

    /// What was seen of the replica where a prompt's step isn't made.
    ghost passed: { Self → Prompt → Type 0 };

    /// One step. It may wait for the replica.
    fn step<R: Wait>(&mut self, rt: &R, share: &mut Share, input: Input<'_>) -> Result<Out, Fault>
        ensures moved { moved self.old share.old input.entry result self.new share.new }
        ensures counts { Counts share.old result share.new };

    /// A step that the replica makes by itself, where what it is for isn't over; else none, and no step. The question
    /// and the step are one: no other step comes between. It may wait for the replica.
    fn prompt<R: Wait>(
        &mut self,
        rt: &R,
        share: &mut Share,
        prompt: Prompt,
    ) -> Option<Result<Out, Fault>>
        ensures prompted { IfSome result
            (λ answer. prompted self.old share.old prompt answer self.new share.new) }
        ensures counts { IfSome result (λ answer. Counts share.old answer share.new) }
        ensures passed { IfNone result (passed self.old prompt) }
        ensures same { IfNone result ((self.new ≡ self.old) × (share.new ≡ share.old)) };
}

/// What lies under a lock, where any thread may step it.
pub trait UnderLock {
    /// What a step does: the value and the share before, the input, the answer, and the value and
    /// the share after.
    ghost made: { Self → ShareState → Input → Result (List SentBytes) Fault → Self → ShareState → Type 0 };

    /// Whether what a prompt is for isn't over.
    ghost heeds: { Self → Prompt → Bool };

    /// One step.
    fn step(&mut self, share: &mut Share, input: Input<'_>) -> Result<Out, Fault>
        ensures made { made self.old share.old input.entry result self.new share.new }
        ensures counts { Counts share.old result share.new };

    /// Whether what a prompt is for isn't over.
    fn heeds(&self, prompt: Prompt) -> bool
        ensures { result ≡ heeds self.now prompt };
}

/// By any thread: what lies under the lock just then makes the step.
impl<'l, K: UnderLock + Drop> Steps for &'l Mutex<K> {
    ghost moved = { λ _ share input answer _ share'. (under : K) × (after : K)
        × K.made under share input answer after share' };

    /// It heeds the prompt, too.
    ghost prompted = { λ _ share prompt answer _ share'. (under : K) × (after : K)
        × (K.heeds under prompt ≡ true) × K.made under share (input_of prompt) answer after share' };

    /// What lay under the lock just then doesn't heed it.
    ghost passed = { λ _ prompt. (under : K) × (K.heeds under prompt ≡ false) };

    fn step<R: Wait>(&mut self, rt: &R, share: &mut Share, input: Input<'_>) -> Result<Out, Fault> {
        self.lock(rt).step(share, input)
    }

    fn prompt<R: Wait>(
        &mut self,
        rt: &R,
        share: &mut Share,
        prompt: Prompt,
    ) -> Option<Result<Out, Fault>> {
        let mut locked = self.lock(rt);
        if !locked.heeds(prompt) {
            return None;
        }
        Some(match prompt {
            Prompt::Beat => locked.step(share, Input::Beat),
            Prompt::Timeout(_) => locked.step(share, Input::Timeout),
        })
    }
}
