//! From bytes that are offered to a checked input.

ghost use Rattle.std.specs.Prelude.{IsTrue, IfOk};
ghost use Rattle.definitions.specs.FrameLimits.{IsFrame};
ghost use Rattle.definitions.specs.Frames.{head_len};
ghost use Rattle.definitions.specs.Checks.{identity_of};
ghost use Rattle.definitions.specs.Admission.{check_offer};
ghost use Rattle.frames_view.specs.Places.{IsFrameAt};
ghost use Rattle.frames_view.specs.Views.{frame_of};
ghost use Rattle.admission.specs.Inputs.{is_addressed};
ghost use Rattle.admission.specs.Admitted.{AdmitsBy, Answers};

use crate::input::Input;
use authenticators::VerifyingKeyring;
use certificates::check_tag;
use frames_view::{Frame, ReadFrame, read};
use ids::Fault;

/// The input that an offered frame brings, which was read from these bytes.
fn check_read<'a>(
    keyring: &'a VerifyingKeyring,
    frame: Frame<'a>,
    _bytes: &'a [u8],
) -> Result<Input<'a>, Fault>
    requires fits { IsFrame keyring.now.sizes (frame_of frame) }
    requires lent { IsFrameAt _bytes (head_len _bytes.now) frame }
    ensures { Answers keyring.now _bytes.entry (check_offer (identity_of keyring.now) (frame_of frame.entry))
        result }
{
    match frame {
        Frame::Proposal(view) => Ok(Input::OfferedProposal(check_tag(keyring, &view)?)),
        Frame::Block(view) => Ok(Input::OfferedBlock(check_tag(keyring, &view)?)),
        Frame::NewView(view) => Ok(Input::SeenView(check_tag(keyring, &view)?)),
        Frame::Request(_) | Frame::Vote(_) | Frame::Reply(_) | Frame::Fetch(_) => Err(
            Fault::NotMine,
        ),
    }
}

/// The input that the bytes of a frame bring to the keyring's replica where they are offered to it: the
/// frame's certificate needn't be good for it. It takes no memory.
///
/// `NotAFrame` comes first; then `NotMine`, for what is no proposal, block or announcement; then
/// `BadTag`, where the frame's own tag isn't right.
#[tactic(auto, using(crate::proofs::Checks::addressed))]
pub fn admit_offer<'a>(keyring: &'a VerifyingKeyring, bytes: &'a [u8]) -> Result<Input<'a>, Fault>
    ensures admitted { AdmitsBy check_offer keyring.now bytes.entry result }
    ensures addressed { IfOk result (λ input. IsTrue (is_addressed keyring.now input)) }
{
    let frame = read(&keyring.config(), bytes)?;
    check_read(keyring, frame, bytes)
}

/// The input that a frame which was read brings where it is offered: as `admit_offer` of its bytes.
#[tactic(auto, using(crate::proofs::Checks::addressed))]
pub fn admit_offer_read<'a>(
    keyring: &'a VerifyingKeyring,
    read: &ReadFrame<'a>,
) -> Result<Input<'a>, Fault>
    ensures admitted { AdmitsBy check_offer keyring.now read.now.bytes result }
    ensures addressed { IfOk result (λ input. IsTrue (is_addressed keyring.now input)) }
{
    let frame = read.at(&keyring.config())?;
    check_read(keyring, frame, read.bytes())
}
