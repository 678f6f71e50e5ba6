//! From bytes to a checked input.

ghost use Rattle.std.specs.Prelude.{IsTrue, IfOk};
ghost use Rattle.definitions.specs.FrameLimits.{IsFrame};
ghost use Rattle.definitions.specs.Frames.{head_len};
ghost use Rattle.definitions.specs.Checks.{identity_of};
ghost use Rattle.frames_view.specs.Places.{IsFrameAt};
ghost use Rattle.frames_view.specs.Views.{frame_of};
ghost use Rattle.admission.specs.Inputs.{is_addressed};
ghost use Rattle.admission.specs.Admitted.{Admits, Answers};
ghost use Rattle.definitions.specs.Admission.{check as checks};

use crate::input::Input;
use authenticators::VerifyingKeyring;
use certificates::{
    check_block, check_fetch, check_new_view, check_proposal, check_request, check_vote,
};
use frames_view::{Frame, ReadFrame, read};
use ids::Fault;

/// The input that a frame brings, which was read from these bytes.
fn check<'a>(
    keyring: &'a VerifyingKeyring,
    frame: Frame<'a>,
    _bytes: &'a [u8],
) -> Result<Input<'a>, Fault>
    requires fits { IsFrame keyring.now.sizes (frame_of frame) }
    requires lent { IsFrameAt _bytes (head_len _bytes.now) frame }
    ensures { Answers keyring.now _bytes.entry (checks (identity_of keyring.now) (frame_of frame.entry))
        result }
{
    let config = &keyring.config();
    match frame {
        Frame::Reply(_) => Err(Fault::NotMine),
        Frame::Request(view) => Ok(Input::Request(check_request(keyring, config, &view)?)),
        Frame::Proposal(view) => Ok(Input::Proposal(check_proposal(keyring, config, &view)?)),
        Frame::Block(view) => Ok(Input::Block(check_block(keyring, config, &view)?)),
        Frame::Vote(view) => Ok(Input::Vote(check_vote(keyring, config, &view)?)),
        Frame::NewView(view) => Ok(Input::NewView(check_new_view(keyring, config, &view)?)),
        Frame::Fetch(view) => Ok(Input::Fetch(check_fetch(keyring, config, &view)?)),
    }
}

/// The input that the bytes of a frame bring to the keyring's replica. It takes no memory.
///
/// `NotAFrame` comes first; then `NotMine`, for a reply, which no replica takes; then `BadTag`,
/// where the frame's own tag or its certificate isn't right.
#[tactic(auto, using(crate::proofs::Checks::addressed))]
pub fn admit<'a>(keyring: &'a VerifyingKeyring, bytes: &'a [u8]) -> Result<Input<'a>, Fault>
    ensures admitted { Admits keyring.now bytes.entry result }
    ensures addressed { IfOk result (λ input. IsTrue (is_addressed keyring.now input)) }
{
    let frame = read(&keyring.config(), bytes)?;
    check(keyring, frame, bytes)
}

/// The input that a frame which was read brings to the keyring's replica: as `admit` of its bytes.
#[tactic(auto, using(crate::proofs::Checks::addressed))]
pub fn admit_read<'a>(
    keyring: &'a VerifyingKeyring,
    read: &ReadFrame<'a>,
) -> Result<Input<'a>, Fault>
    ensures admitted { Admits keyring.now read.now.bytes result }
    ensures addressed { IfOk result (λ input. IsTrue (is_addressed keyring.now input)) }
{
    let frame = read.at(&keyring.config())?;
    check(keyring, frame, read.bytes())
}
