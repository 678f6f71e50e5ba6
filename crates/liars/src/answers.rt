//! Wrong answers: another block than was asked for, and a block with another certificate.

ghost use Rattle.std.specs.Prelude.{◌≡◌, ◌<◌, [], map, IfOk, OnErr};
ghost use Rattle.ids.specs.Sizes.{replicas};
ghost use Rattle.definitions.specs.Frames.{Certificate, Core, certificate_bytes, core_bytes};
ghost use Rattle.frames_view.specs.Views.{certificate_of, core_of};
ghost use Rattle.signed_frames.specs.Outs.{sent_of};
ghost use Rattle.liars.specs.Lies.{IsTold, answer_to, other_core, own_certificate, wrongly_answered};

use crate::climb::empty_core;
use crate::half::replica_of;
use crate::plain::one;
use authenticators::ReplicaKeyring;
use frame_writers::write_certificate;
use frames_view::{BlockView, CertificateView, CoreView, Frame, read};
use ids::{Digest, Fault, Kind, ReplicaId};
use signed_frames::{Sending, To, block_frame};
use std::alloc::Global;

/// A certificate without votes, for the block of this digest.
pub(crate) fn bare_certificate(alloc: Global, block: &Digest) -> Result<Vec<u8>, Fault>
    ensures made { IfOk result
        (λ bytes. bytes.items ≡ certificate_bytes (record { digest = block.now; votes = [] })) }
    ensures memory { OnErr result (result ≡ Err Fault.Memory) }
{
    let mut bytes = Vec::new(alloc);
    write_certificate(block, 0, b"", &mut bytes)?;
    Ok(bytes)
}

/// The bytes of a certificate.
fn bytes_of(alloc: Global, certificate: &CertificateView<'_>) -> Result<Vec<u8>, Fault>
    ensures made { IfOk result
        (λ bytes. bytes.items ≡ certificate_bytes (certificate_of certificate.now)) }
    ensures memory { OnErr result (result ≡ Err Fault.Memory) }
{
    let mut bytes = Vec::new(alloc);
    certificate.write(&mut bytes)?;
    Ok(bytes)
}

/// A Block frame for a replica, of these bytes of its core and its certificate.
fn answer(
    alloc: Global,
    keyring: &ReplicaKeyring,
    to: ReplicaId,
    core: &[u8],
    certificate: &[u8],
) -> Result<Sending, Fault>
    requires other { to < replicas keyring.now.sizes }
    ensures made { (k : Core) (q : Certificate) → core.now ≡ core_bytes k → certificate.now ≡ certificate_bytes q
        → IfOk result (λ sending. sent_of sending ≡ answer_to keyring.now to k q) }
    ensures memory { OnErr result (result ≡ Err Fault.Memory) }
{
    let frame = block_frame(alloc, keyring, to, core, certificate)?;
    let (to, kind) = (To::Replica(to), Kind::Block);
    Ok(Sending { to, kind, frame })
}

/// The answer with another block.
fn with_other_core(
    alloc: Global,
    keyring: &ReplicaKeyring,
    to: ReplicaId,
    view: &BlockView<'_>,
) -> Result<Sending, Fault>
    requires other { to < replicas keyring.now.sizes }
    ensures made { IfOk result (λ sending. sent_of sending ≡ answer_to keyring.now to
        (other_core (core_of view.now.core)) (certificate_of view.now.certificate)) }
    ensures memory { OnErr result (result ≡ Err Fault.Memory) }
{
    let core = view.core();
    let other = empty_core(alloc, &core.digest(), core.height(), core.justify_height())?;
    let certificate = bytes_of(alloc, &view.certificate())?;
    answer(alloc, keyring, to, &other, &certificate)
}

/// The answer with a certificate for its own block.
fn with_own_certificate(
    alloc: Global,
    keyring: &ReplicaKeyring,
    to: ReplicaId,
    core: &CoreView<'_>,
) -> Result<Sending, Fault>
    requires other { to < replicas keyring.now.sizes }
    ensures made { IfOk result (λ sending. sent_of sending ≡ answer_to keyring.now to (core_of core.now)
        (own_certificate (core_of core.now))) }
    ensures memory { OnErr result (result ≡ Err Fault.Memory) }
{
    let certificate = bare_certificate(alloc, &core.digest())?;
    answer(alloc, keyring, to, core.raw(), &certificate)
}

/// What a replica of wrong answers sends.
pub(crate) fn with_wrong_answers(
    alloc: Global,
    keyring: &ReplicaKeyring,
    sending: Sending,
) -> Result<Vec<Sending>, Fault>
    ensures lies { IfOk result (λ out. IsTold (wrongly_answered keyring.now) keyring.now.sizes (sent_of sending)
        (map sent_of out.items)) }
    ensures memory { OnErr result (result ≡ Err Fault.Memory) }
{
    let config = keyring.config();
    match read(&config, &sending.frame) {
        Ok(Frame::Block(view)) => match replica_of(config, sending.to) {
            Some(to) => {
                let other = with_other_core(alloc, keyring, to, &view)?;
                let own = with_own_certificate(alloc, keyring, to, &view.core())?;
                let mut out = one(alloc, other)?;
                out.push(own)?;
                Ok(out)
            }
            None => Ok(one(alloc, sending)?),
        },
        _ => Ok(one(alloc, sending)?),
    }
}
