//! A crowd: as many blocks of the next height as a tree takes.

ghost use Rattle.std.specs.Prelude.{◌≡◌, ◌<◌, ◌*◌, ◌∷◌, map, IfOk, OnErr};
ghost use Rattle.std.specs.List.{range_with_len};
ghost use Rattle.ids.specs.Sizes.{replicas};
ghost use Rattle.ids.specs.declared.limits.TheConstants.{MOST_OF_HEIGHT};
ghost use Rattle.definitions.specs.Frames.{command_bytes, core_bytes, spelling};
ghost use Rattle.frames_view.specs.Views.{core_of, certificate_of};
ghost use Rattle.signed_frames.specs.Outs.{sent_of};
ghost use Rattle.liars.specs.Lies.{untagged, crowding, crowding_frame, crowd_to};

use authenticators::ReplicaKeyring;
use frame_writers::{Payload, write_command, write_core};
use frames_view::{CoreView, ProposalView};
use ids::{ClientId, Config, Fault, Height, Kind, MOST_OF_HEIGHT, ReplicaId, Seq};
use signed_frames::{Sending, To, block_frame};
use std::alloc::Global;

/// The command of this number of client 0, with tags that verify for nobody.
fn untagged(alloc: Global, config: Config, number: u8) -> Result<Vec<u8>, Fault>
    ensures made { IfOk result (λ bytes. bytes.items ≡ command_bytes (untagged config number)) }
    ensures memory { OnErr result (result ≡ Err Fault.Memory) }
{
    let vector = vec![in alloc; 0u8; 32 * usize::from(config.n())]?;
    let payload = Payload::new(b"").unwrap();
    let seq = Seq(u64::from(number) + 1);
    let mut bytes = Vec::new(alloc);
    write_command(ClientId(0), seq, &payload, &vector, &mut bytes)?;
    Ok(bytes)
}

/// The block of this number on a block, which justifies the same one.
fn crowding(
    alloc: Global,
    config: Config,
    core: &CoreView<'_>,
    number: u8,
) -> Result<Vec<u8>, Fault>
    ensures made { IfOk result
        (λ bytes. bytes.items ≡ core_bytes (crowding config (core_of core.now) number)) }
    ensures memory { OnErr result (result ≡ Err Fault.Memory) }
{
    let command = untagged(alloc, config, number)?;
    let height = Height(core.height().0.saturating_add(1));
    let mut bytes = Vec::new(alloc);
    write_core(
        &core.digest(),
        height,
        core.justify_height(),
        1,
        &command,
        &mut bytes,
    )?;
    Ok(bytes)
}

/// The frame that brings the block of this number on a proposal's to a replica.
fn crowding_frame(
    alloc: Global,
    keyring: &ReplicaKeyring,
    view: &ProposalView<'_>,
    to: ReplicaId,
    number: u8,
) -> Result<Vec<u8>, Fault>
    requires other { to < replicas keyring.now.sizes }
    ensures made { IfOk result (λ frame. frame.items ≡ spelling (crowding_frame keyring.now
        (core_of view.now.core) (certificate_of view.now.certificate) to number)) }
    ensures memory { OnErr result (result ≡ Err Fault.Memory) }
{
    let core = crowding(alloc, keyring.config(), &view.core(), number)?;
    let mut certificate = Vec::new(alloc);
    view.certificate().write(&mut certificate)?;
    block_frame(alloc, keyring, to, &core, &certificate)
}

/// All blocks on a proposal's, each to all replicas.
pub(crate) fn crowd(
    alloc: Global,
    keyring: &ReplicaKeyring,
    view: &ProposalView<'_>,
) -> Result<Vec<Sending>, Fault>
    ensures made { IfOk result (λ out. map sent_of out.items
        ≡ map (crowd_to keyring.now (core_of view.now.core) (certificate_of view.now.certificate))
        (range_with_len 0 (MOST_OF_HEIGHT * replicas keyring.now.sizes))) }
    ensures memory { OnErr result (result ≡ Err Fault.Memory) }
{
    let n = usize::from(keyring.config().n());
    let mut out = Vec::new(alloc);
    for place in 0..MOST_OF_HEIGHT * n {
        let (number, to) = ((place / n) as u8, ReplicaId((place % n) as u8));
        let frame = crowding_frame(alloc, keyring, view, to, number)?;
        out.push(Sending {
            to: To::Replica(to),
            kind: Kind::Block,
            frame,
        })?;
    }
    Ok(out)
}
