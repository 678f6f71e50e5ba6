//! Timeouts, and views that are announced.

ghost use Rattle.std.specs.Prelude.{◌≡◌, ◌<◌, [], ◌∷◌, if◌then◌else◌, IfOk, OnErr};
ghost use Rattle.std.specs.Option.{unwrap_or};
ghost use Rattle.ids.specs.Sizes.{replicas};
ghost use Rattle.replica.specs.Announcements.{new_view_sent, IsTimeout, IsAnnounced, IsNewView, IsSeen};
ghost use Rattle.replica.specs.Inputs.{announced_by, seen_in};
ghost use Rattle.definitions.specs.FrameLimits.{IsCertificate};
ghost use Rattle.replica.specs.Kept.{AreCertified};

use crate::blocks::{leaf_after, raised};
use crate::change::Change;
use crate::state::{High, State};
use crate::stored::{GotNewView, SeenView, StoredStep};
use authenticators::ReplicaKeyring;
use certificates::cut_bytes;
use frames_view::{CertificateBuf, NewViewView};
use ids::{Digest, Fault, Kind, View};
use replica_rules::BlockRef;
use signed_frames::{Out, Sending, To, new_view_frame};
use std::alloc::Global;

/// The view goes to all, with the highest certificate as it is passed on.
fn announcement(
    alloc: Global,
    keyring: &ReplicaKeyring,
    view: View,
    high: &High,
) -> Result<Out, Fault>
    requires certificate { IsCertificate keyring.now.sizes high.now.certificate }
    ensures made { IfOk result (λ out. out ≡ new_view_sent keyring.now view high.now.certificate ∷ []) }
    ensures memory { OnErr result (result ≡ Err Fault.Memory) }
{
    let certificate = cut_bytes(alloc, keyring.verifying(), &high.certificate.view())?;
    let frame = new_view_frame(alloc, keyring, view, &certificate)?;
    let sending = Sending {
        to: To::All,
        kind: Kind::NewView,
        frame,
    };
    Ok(Out::one(alloc, sending)?)
}

/// What a timeout comes to: the replica goes on to the next view, and announces it.
pub(crate) fn decide_timeout(state: &State, keyring: &ReplicaKeyring) -> Result<Change, Fault>
    requires certified { AreCertified keyring.now.sizes state.now.variables }
    ensures made { IfOk result (IsTimeout keyring.now state.now) }
    ensures memory { OnErr result (result ≡ Err Fault.Memory) }
{
    let mut pace = state.pace;
    pace.timeout();
    let out = announcement(state.alloc, keyring, pace.view(), &state.high)?;
    Ok(Change {
        pace: Some(pace),
        ..Change::noting(state, StoredStep::TimedOut, out)
    })
}

/// The highest certificate after a raise.
fn high_after<'a>(raised: &'a Option<High>, high: &'a High) -> &'a High
    ensures { result.now ≡ unwrap_or raised.entry.now high.entry.now }
{
    match raised {
        Some(raised) => raised,
        None => high,
    }
}

/// The same, where the replica moved on.
fn announcement_if(
    alloc: Global,
    keyring: &ReplicaKeyring,
    moved: bool,
    view: View,
    high: &High,
) -> Result<Out, Fault>
    requires certificate { IsCertificate keyring.now.sizes high.now.certificate }
    ensures made { IfOk result
        (λ out. out ≡ (if moved then new_view_sent keyring.now view high.now.certificate ∷ [] else [])) }
    ensures memory { OnErr result (result ≡ Err Fault.Memory) }
{
    if !moved {
        return Ok(Out::none(alloc));
    }
    announcement(alloc, keyring, view, high)
}

/// What an announced view comes to, whose certificate is for this block: the certificate is raised,
/// and where the replica moves on to a greater view, it announces that.
fn take_new_view(
    state: &State,
    keyring: &ReplicaKeyring,
    announced: &NewViewView,
    block: BlockRef,
) -> Result<Change, Fault>
    requires sender { (announced_by announced.now).sender < replicas state.now.pace.sizes }
    requires certificate { IsCertificate keyring.now.sizes (announced_by announced.now).certificate }
    requires certified { AreCertified keyring.now.sizes state.now.variables }
    ensures made { IfOk result (IsAnnounced keyring.now state.now block (announced_by announced.now)) }
    ensures memory { OnErr result (result ≡ Err Fault.Memory) }
{
    let alloc = state.alloc;
    let (view, sender) = (announced.view(), announced.sender());
    let high = raised(alloc, block, &announced.certificate(), &state.high)?;
    let mut pace = state.pace;
    let moved = pace.on_new_view(sender, view);
    let highest = high_after(&high, &state.high);
    let out = announcement_if(alloc, keyring, moved, pace.view(), highest)?;
    let certificate = CertificateBuf::copy(alloc, &announced.certificate())?;
    let step = StoredStep::GotNewView(GotNewView {
        view,
        sender,
        certificate,
    });
    let leaf = leaf_after(&high, &state.high, state.leaf);
    Ok(Change {
        high,
        leaf,
        pace: Some(pace),
        ..Change::noting(state, step, out)
    })
}

/// What the view of an announcement comes to whose certificate isn't good for this replica: it counts, and where the
/// replica moves on to a greater view, it announces that.
pub(crate) fn decide_seen_view(
    state: &State,
    keyring: &ReplicaKeyring,
    announced: &NewViewView,
) -> Result<Change, Fault>
    requires sender { (seen_in announced.now).sender < replicas state.now.pace.sizes }
    requires certified { AreCertified keyring.now.sizes state.now.variables }
    ensures made { IfOk result (IsSeen keyring.now state.now (seen_in announced.now)) }
    ensures memory { OnErr result (result ≡ Err Fault.Memory) }
{
    let (view, sender) = (announced.view(), announced.sender());
    let mut pace = state.pace;
    let moved = pace.on_new_view(sender, view);
    let out = announcement_if(state.alloc, keyring, moved, pace.view(), &state.high)?;
    let step = StoredStep::SeenView(SeenView { view, sender });
    Ok(Change {
        pace: Some(pace),
        ..Change::noting(state, step, out)
    })
}

/// What an announced view comes to: `UnknownParent` where the block of its certificate isn't in the tree.
pub(crate) fn decide_new_view(
    state: &State,
    keyring: &ReplicaKeyring,
    announced: &NewViewView,
) -> Result<Change, Fault>
    requires sender { (announced_by announced.now).sender < replicas state.now.pace.sizes }
    requires certificate { IsCertificate keyring.now.sizes (announced_by announced.now).certificate }
    requires certified { AreCertified keyring.now.sizes state.now.variables }
    ensures { IsNewView keyring.now state.now (announced_by announced.now) result }
{
    let digest = Digest(*announced.certificate().digest());
    let Some(height) = state.tree.height(&digest) else {
        return Err(Fault::UnknownParent);
    };
    take_new_view(state, keyring, announced, BlockRef { digest, height })
}
