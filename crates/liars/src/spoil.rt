//! Requests of which one replica's tag alone is right.

ghost use Rattle.std.specs.Prelude.{◌≡◌, ◌<◌, ◌++◌, map, IfOk, OnErr};
ghost use Rattle.std.specs.List.{flat_map, range_with_len};
ghost use Rattle.ids.specs.Sizes.{replicas};
ghost use Rattle.definitions.specs.Frames.{request, spelling};
ghost use Rattle.frames_view.specs.Views.{command_of, core_of};
ghost use Rattle.signed_frames.specs.Outs.{sent_of};
ghost use Rattle.liars.specs.Lies.{lone_request, spoilt_request_to, spoilt_requests, spoilt, IsTold};

use crate::lone::{lone, tag_of};
use crate::plain::one;
use authenticators::ReplicaKeyring;
use frame_writers::write_request_frame;
use frames_view::{CommandView, CoreView, Frame, read};
use ids::{Config, Fault, Kind, ReplicaId};
use signed_frames::{Sending, To};
use std::alloc::Global;

/// The request of a command, of whose tags one replica's alone is left.
fn lone_request(
    alloc: Global,
    config: Config,
    command: &CommandView<'_>,
    to: ReplicaId,
) -> Result<Vec<u8>, Fault>
    requires other { to < replicas config }
    ensures made { IfOk result
        (λ frame. frame.items ≡ spelling (request (lone_request config (command_of command.now) to))) }
    ensures memory { OnErr result (result ≡ Err Fault.Memory) }
{
    let vector = lone(alloc, config, to, tag_of(command.vector(), to))?;
    let mut bytes = Vec::from_slice(alloc, command.content())?;
    bytes.extend_from_slice(&vector)?;
    let mut frame = Vec::new(alloc);
    write_request_frame(&bytes, &mut frame)?;
    Ok(frame)
}

/// Such a request of a command to each replica, behind those that are there.
fn push_requests(
    alloc: Global,
    config: Config,
    command: &CommandView<'_>,
    out: &mut Vec<Sending>,
) -> Result<(), Fault>
    ensures pushed { IfOk result (λ _. map sent_of out.new.items ≡ map sent_of out.old.items
        ++ map (spoilt_request_to config (command_of command.now)) (range_with_len 0 (replicas config))) }
    ensures memory { OnErr result (result ≡ Err Fault.Memory) }
{
    for number in 0..config.n() {
        let to = ReplicaId(number);
        let frame = lone_request(alloc, config, command, to)?;
        out.push(Sending {
            to: To::Replica(to),
            kind: Kind::Request,
            frame,
        })?;
    }
    Ok(())
}

/// Such requests of all commands of a block.
fn spoilt_requests(
    alloc: Global,
    config: Config,
    core: &CoreView<'_>,
) -> Result<Vec<Sending>, Fault>
    ensures made { IfOk result (λ out. map sent_of out.items ≡ spoilt_requests config (core_of core.now)) }
    ensures memory { OnErr result (result ≡ Err Fault.Memory) }
{
    let mut out = Vec::new(alloc);
    for command in core.commands() {
        push_requests(alloc, config, &command, &mut out)?;
    }
    Ok(out)
}

/// What a spoiler sends.
pub(crate) fn with_spoilt_requests(
    alloc: Global,
    keyring: &ReplicaKeyring,
    sending: Sending,
) -> Result<Vec<Sending>, Fault>
    ensures lies { IfOk result (λ out. IsTold (spoilt keyring.now) keyring.now.sizes (sent_of sending)
        (map sent_of out.items)) }
    ensures memory { OnErr result (result ≡ Err Fault.Memory) }
{
    let config = keyring.config();
    match read(&config, &sending.frame) {
        Ok(Frame::Proposal(view)) => {
            let mut out = spoilt_requests(alloc, config, &view.core())?;
            out.push(sending)?;
            Ok(out)
        }
        _ => Ok(one(alloc, sending)?),
    }
}
