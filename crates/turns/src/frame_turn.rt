//! One frame's turn.

ghost use Rattle.std.specs.Prelude.{◌≡◌, Result, MatchResult};
ghost use Rattle.ids.specs.declared.fault.Fault as faults;
ghost use Rattle.admission.specs.declared.input.Input as inputs;
ghost use Rattle.admission.specs.Admitted.{Admits};
ghost use Rattle.turns.specs.Shares.{Counts};

use crate::gate::Gate;
use crate::share::Share;
use crate::steps::Steps;
use admission::admit_read;
use authenticators::VerifyingKeyring;
use frames_view::ReadFrame;
use ids::Fault;
use signed_frames::Out;
use std::sync::Wait;

/// A frame on a replica's link, read.
#[derive(Drop)]
pub struct LinkFrame<'a> {
    /// Its number on the link.
    pub number: u64,
    pub read: ReadFrame<'a>,
}

/// Takes a frame to a replica: `admit_read`, the gate's `enter`, one step, the gate's `stepped`.
///
/// Where `admit_read` refuses, that is the answer, the gate isn't told, and steps and share are as before.
pub fn turn<R: Wait, S: Steps, G: Gate>(
    rt: &R,
    steps: &mut S,
    share: &mut Share,
    gate: &G,
    keyring: &VerifyingKeyring,
    frame: &LinkFrame<'_>,
) -> Result<Out, Fault>
    ensures turned { (admitted : Result inputs.Input faults.Fault) × Admits keyring.now frame.now.read.bytes admitted
        × MatchResult admitted
        (λ input. S.moved steps.old share.old input result steps.new share.new)
        (λ n. (result ≡ Err n) × (steps.new ≡ steps.old) × (share.new ≡ share.old)) }
    ensures counts { Counts share.old result share.new }
{
    let input = admit_read(keyring, &frame.read)?;
    gate.enter(frame.number);
    let answer = steps.step(rt, share, input);
    gate.stepped(frame.number);
    answer
}
