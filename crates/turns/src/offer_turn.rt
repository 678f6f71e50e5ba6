//! The turn of a frame whose certificate isn't good for the replica.

ghost use Rattle.std.specs.Prelude.{◌≡◌, None, Result, MatchResult, MatchOption, IfSome};
ghost use Rattle.ids.specs.declared.fault.Fault as faults;
ghost use Rattle.admission.specs.declared.input.Input as inputs;
ghost use Rattle.admission.specs.Admitted.{AdmitsBy};
ghost use Rattle.definitions.specs.Admission.{check_offer};
ghost use Rattle.turns.specs.Shares.{Counts};

use crate::share::Share;
use crate::steps::Steps;
use admission::admit_offer_read;
use authenticators::VerifyingKeyring;
use frames_view::ReadFrame;
use ids::Fault;
use signed_frames::Out;
use std::sync::Wait;

/// Offers a frame that was read to a replica that refused it with `BadTag`: `admit_offer_read`, and one step.
///
/// None where it brings nothing that can be offered, or its own tag isn't right: then steps and share are as before.
/// A gate isn't told of it.
pub fn offer<R: Wait, S: Steps>(
    rt: &R,
    steps: &mut S,
    share: &mut Share,
    keyring: &VerifyingKeyring,
    frame: &ReadFrame<'_>,
) -> Option<Result<Out, Fault>>
    ensures offered { (admitted : Result inputs.Input faults.Fault)
        × AdmitsBy check_offer keyring.now frame.now.bytes admitted
        × MatchResult admitted
        (λ input. MatchOption result ⊥
        (λ answer. S.moved steps.old share.old input answer steps.new share.new))
        (λ n. (result ≡ None) × (steps.new ≡ steps.old) × (share.new ≡ share.old)) }
    ensures counts { IfSome result (λ answer. Counts share.old answer share.new) }
{
    let Ok(input) = admit_offer_read(keyring, frame) else {
        return None;
    };
    Some(steps.step(rt, share, input))
}
