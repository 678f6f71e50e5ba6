//! From the bytes of frames that come together to a checked input.

ghost use Rattle.std.specs.Prelude.{◌≡◌, ◌++◌, ◌∷◌, [], IsTrue, IfOk, List};
ghost use Rattle.definitions.specs.Frames as frames;
ghost use Rattle.definitions.specs.FrameLimits.{IsFrame};
ghost use Rattle.frames_view.specs.Views.{frame_of};
ghost use Rattle.admission.specs.Inputs.{is_addressed};
ghost use Rattle.admission.specs.Gathering.{Gathers, IsSoFar, AreCopies, IsKeyed};

use crate::input::Input;
use authenticators::VerifyingKeyring;
use certificates::{Copies, check_tag};
use frames_view::{Frame, read};
use ids::Fault;

/// What the frames so far come to.
#[derive(Drop)]
enum Gathering<'a> {
    Nothing,
    Together(Copies<'a>),
    Refused(Fault),
}

/// What a first frame comes to.
fn begin<'a>(keyring: &'a VerifyingKeyring, frame: Frame<'a>) -> Gathering<'a>
    requires fits { IsFrame keyring.now.sizes (frame_of frame) }
    ensures { IsSoFar keyring.now (frame_of frame.entry ∷ []) result }
{
    match frame {
        Frame::Block(view) => match check_tag(keyring, &view) {
            Ok(first) => Gathering::Together(Copies::new(first)),
            Err(fault) => Gathering::Refused(fault),
        },
        _ => Gathering::Refused(Fault::NotMine),
    }
}

/// What one more frame comes to, behind these copies.
fn go_on<'a>(keyring: &VerifyingKeyring, copies: Copies<'a>, frame: &Frame<'_>) -> Gathering<'a>
    requires fits { IsFrame keyring.now.sizes (frame_of frame.now) }
    requires keyed { copies.first.keys ≡ keyring.now }
    ensures { (fs : List frames.Frame) → AreCopies keyring.now fs copies.entry
        → IsSoFar keyring.now (fs ++ frame_of frame.now ∷ []) result }
{
    let Frame::Block(view) = frame else {
        return Gathering::Refused(Fault::BadTag);
    };
    let mut copies = copies;
    match copies.add(view) {
        Ok(()) => Gathering::Together(copies),
        Err(fault) => Gathering::Refused(fault),
    }
}

/// What one more frame comes to, behind what there is.
fn add<'a>(
    keyring: &'a VerifyingKeyring,
    gathering: Gathering<'a>,
    frame: Frame<'a>,
) -> Gathering<'a>
    requires fits { IsFrame keyring.now.sizes (frame_of frame) }
    requires keyed { IsKeyed keyring.now gathering }
    ensures { (fs : List frames.Frame) → IsSoFar keyring.now fs gathering.entry
        → IsSoFar keyring.now (fs ++ frame_of frame.entry ∷ []) result }
{
    match gathering {
        Gathering::Nothing => begin(keyring, frame),
        Gathering::Together(copies) => go_on(keyring, copies, &frame),
        Gathering::Refused(fault) => Gathering::Refused(fault),
    }
}

/// The input that frames bring to the keyring's replica that come to it together, from their bytes: they
/// are copies of one block, no more than there are replicas. Bytes that are no frame are left out. It takes
/// no memory.
///
/// `NotAFrame`: none of them is a frame. `NotMine`: the first frame brings no block. `BadTag`: some
/// frame's own tag isn't right, or it is no copy of the first one's block, or there are too many.
pub fn admit_copies<'a>(
    keyring: &'a VerifyingKeyring,
    frames: &[&'a [u8]],
) -> Result<Input<'a>, Fault>
    ensures admitted { Gathers keyring.now frames.now result }
    ensures addressed { IfOk result (λ input. IsTrue (is_addressed keyring.now input)) }
{
    let config = keyring.config();
    let mut gathering = Gathering::Nothing;
    for &bytes in frames {
        if let Ok(frame) = read(&config, bytes) {
            gathering = add(keyring, gathering, frame);
        }
    }
    match gathering {
        Gathering::Nothing => Err(Fault::NotAFrame),
        Gathering::Together(copies) => Ok(Input::Relayed(copies)),
        Gathering::Refused(fault) => Err(fault),
    }
}
