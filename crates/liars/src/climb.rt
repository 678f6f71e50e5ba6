//! A chain of empty blocks, that all justify the same one.

ghost use Rattle.std.specs.Prelude.{◌≡◌, ◌==◌, ◌+◌, ◌∷◌, [], map, IfOk, OnErr};
ghost use Rattle.std.specs.List.{range_with_len};
ghost use Rattle.definitions.specs.Frames.{Core, core_bytes};
ghost use Rattle.definitions.specs.Digests.{digest};
ghost use Rattle.frames_view.specs.Views.{core_of, certificate_of};
ghost use Rattle.signed_frames.specs.Outs.{sent_of};
ghost use Rattle.liars.specs.Lies.{climb_to_all, climbed, climbing, IsTold};

use authenticators::ReplicaKeyring;
use frame_writers::write_core;
use frames_view::{Frame, ProposalView, read};
use ids::{Digest, Fault, Height, Kind};
use sha2::Sha256;
use signed_frames::{Sending, To, proposal_frame};
use std::alloc::Global;

/// How many blocks a climber proposes in place of one.
const CLIMB: u64 = 8192;

/// The core of an empty block.
pub(crate) fn empty_core(
    alloc: Global,
    parent: &Digest,
    height: Height,
    justify_height: Height,
) -> Result<Vec<u8>, Fault>
    ensures made { IfOk result (λ core. core.items ≡ core_bytes (record {
      parent = parent.now;
      height = height;
      justify_height = justify_height;
      commands = [];
    })) }
    ensures memory { OnErr result (result ≡ Err Fault.Memory) }
{
    let mut core = Vec::new(alloc);
    write_core(parent, height, justify_height, 0, b"", &mut core)?;
    Ok(core)
}

/// The digest of a block, of the bytes of its core.
#[tactic(auto, unfolding(definitions::specs::Digests::digest))]
pub(crate) fn digest_of(core: &[u8]) -> Digest
    ensures { (k : Core) → core.now ≡ core_bytes k → result ≡ digest k }
{
    Digest(<Sha256 as sha2::Digest>::digest(core))
}

/// The proposals of a chain in place of a block.
fn climb(
    alloc: Global,
    keyring: &ReplicaKeyring,
    view: &ProposalView<'_>,
) -> Result<Vec<Sending>, Fault>
    ensures made { IfOk result (λ out. map sent_of out.items
        ≡ map (climb_to_all keyring.now view.now.view (core_of view.now.core)
        (certificate_of view.now.certificate)) (range_with_len 0 CLIMB)) }
    ensures memory { OnErr result (result ≡ Err Fault.Memory) }
{
    let core = view.core();
    let (mut height, justified) = (core.height(), core.justify_height());
    let mut certificate = Vec::new(alloc);
    view.certificate().write(&mut certificate)?;
    let mut own = empty_core(alloc, &Digest(*core.parent()), height, justified)?;
    let mut out = Vec::new(alloc);
    for _ in 0..CLIMB {
        let frame = proposal_frame(alloc, keyring, view.view(), &own, &certificate)?;
        out.push(Sending {
            to: To::All,
            kind: Kind::Proposal,
            frame,
        })?;
        height = Height(height.0.saturating_add(1));
        own = empty_core(alloc, &digest_of(&own), height, justified)?;
    }
    Ok(out)
}

/// Whether a proposal's block stands on the one that it justifies.
fn stands_on_justified(view: &ProposalView<'_>) -> bool
    ensures { result ≡ ((core_of view.now.core).height == (core_of view.now.core).justify_height + 1) }
{
    let core = view.core();
    core.justify_height().0.checked_add(1) == Some(core.height().0)
}

/// What a climber sends.
pub(crate) fn with_climb(
    alloc: Global,
    keyring: &ReplicaKeyring,
    sending: Sending,
) -> Result<Vec<Sending>, Fault>
    ensures lies { IfOk result (λ out. IsTold (climbed keyring.now) keyring.now.sizes (sent_of sending)
        (map sent_of out.items)) }
    ensures memory { OnErr result (result ≡ Err Fault.Memory) }
{
    match read(&keyring.config(), &sending.frame) {
        Ok(Frame::Proposal(view)) if stands_on_justified(&view) => {
            let chain = climb(alloc, keyring, &view)?;
            Ok(chain)
        }
        _ => Ok(Vec::new(alloc)),
    }
}
