//! The turn of copies of one block.

ghost use Rattle.std.specs.Prelude.{◌≡◌, Err, Result, MatchResult};
ghost use Rattle.ids.specs.declared.fault.Fault as faults;
ghost use Rattle.admission.specs.declared.input.Input as inputs;
ghost use Rattle.admission.specs.Gathering.{Gathers};
ghost use Rattle.turns.specs.Shares.{Counts};

use crate::share::Share;
use crate::steps::Steps;
use admission::admit_copies;
use authenticators::VerifyingKeyring;
use ids::Fault;
use signed_frames::Out;
use std::sync::Wait;

/// Takes the bytes of Block frames to a replica together: `admit_copies`, and one step.
///
/// Where `admit_copies` refuses, that is the answer, and steps and share are as before. A gate isn't told of it.
pub fn gather<R: Wait, S: Steps>(
    rt: &R,
    steps: &mut S,
    share: &mut Share,
    keyring: &VerifyingKeyring,
    frames: &[&[u8]],
) -> Result<Out, Fault>
    ensures gathered { (admitted : Result inputs.Input faults.Fault) × Gathers keyring.now frames.now admitted
        × MatchResult admitted
        (λ input. S.moved steps.old share.old input result steps.new share.new)
        (λ n. (result ≡ Err n) × (steps.new ≡ steps.old) × (share.new ≡ share.old)) }
    ensures counts { Counts share.old result share.new }
{
    let input = admit_copies(keyring, frames)?;
    steps.step(rt, share, input)
}
