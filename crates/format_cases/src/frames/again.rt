//! Frames, written of what was read of them.

use frames_view::{
    CertificateBuf, CertificateView, CommandView, CoreBuf, CoreView, Frame, Payload, ReplyText,
    ReplyView, version, write_block, write_certificate, write_certified_vote, write_command,
    write_core, write_fetch, write_new_view, write_proposal, write_reply_frame,
    write_request_frame, write_vote,
};
use ids::{Digest, Fault, VERSION_TWO};
use std::alloc::Global;

/// These bytes as they are written: before those of version 1 stands the mark.
fn as_written(alloc: Global, bytes: &[u8]) -> Result<Vec<u8>, Fault> {
    let mut written = Vec::new(alloc);
    if version(bytes) == Some(1) {
        written.push(VERSION_TWO)?;
    }
    written.extend_from_slice(bytes)?;
    Ok(written)
}

/// Whether the frame is written as these bytes, in version 2, and the core and the certificate in it
/// also from copies that were kept.
pub(crate) fn is_written_again(alloc: Global, frame: &Frame, bytes: &[u8]) -> Result<bool, Fault> {
    let mut again = Vec::new(alloc);
    write_again(alloc, frame, &mut again)?;
    if again.as_slice() != as_written(alloc, bytes)?.as_slice() {
        return Ok(false);
    }
    match frame {
        Frame::Proposal(view) => {
            Ok(is_kept(alloc, &view.core())? && is_kept_certificate(alloc, &view.certificate())?)
        }
        Frame::Block(view) => {
            Ok(is_kept(alloc, &view.core())? && is_kept_certificate(alloc, &view.certificate())?)
        }
        Frame::NewView(view) => is_kept_certificate(alloc, &view.certificate()),
        _ => Ok(true),
    }
}

/// Whether a copy of the core has its bytes, and is written so again.
fn is_kept(alloc: Global, core: &CoreView) -> Result<bool, Fault> {
    let kept = CoreBuf::copy(alloc, core)?;
    let again = core_again(alloc, &kept.view())?;
    Ok(kept.view().raw() == core.raw() && again.as_slice() == core.raw())
}

/// Whether a copy of the certificate is written as it is itself.
fn is_kept_certificate(alloc: Global, certificate: &CertificateView) -> Result<bool, Fault> {
    let kept = CertificateBuf::copy(alloc, certificate)?;
    let mut again = Vec::new(alloc);
    kept.view().write(&mut again)?;
    Ok(again.as_slice() == certificate_again(alloc, certificate)?.as_slice())
}

fn write_command_again(command: &CommandView, out: &mut Vec<u8>) -> Result<(), Fault> {
    let payload = Payload::new(command.payload()).ok_or(Fault::TooLarge)?;
    write_command(
        command.client(),
        command.seq(),
        &payload,
        command.vector(),
        out,
    )
}

fn core_again(alloc: Global, core: &CoreView) -> Result<Vec<u8>, Fault> {
    let mut commands = Vec::new(alloc);
    let mut count: u8 = 0;
    for command in core.commands() {
        write_command_again(&command, &mut commands)?;
        count = count.wrapping_add(1);
    }
    let mut bytes = Vec::new(alloc);
    let parent = Digest(*core.parent());
    write_core(
        &parent,
        core.height(),
        core.justify_height(),
        count,
        &commands,
        &mut bytes,
    )?;
    Ok(bytes)
}

fn certificate_again(alloc: Global, certificate: &CertificateView) -> Result<Vec<u8>, Fault> {
    let mut votes = Vec::new(alloc);
    let mut count: u8 = 0;
    for vote in certificate.votes() {
        write_certified_vote(vote.voter(), vote.vector(), &mut votes)?;
        count = count.wrapping_add(1);
    }
    let mut bytes = Vec::new(alloc);
    write_certificate(&Digest(*certificate.digest()), count, &votes, &mut bytes)?;
    Ok(bytes)
}

fn write_reply_again(reply: &ReplyView, out: &mut Vec<u8>) -> Result<(), Fault> {
    let text = ReplyText::new(reply.text()).ok_or(Fault::TooLarge)?;
    let (replica, client) = (reply.replica(), reply.client());
    write_reply_frame(
        replica,
        client,
        reply.seq(),
        reply.place(),
        &text,
        reply.tag(),
        out,
    )
}

fn write_again(alloc: Global, frame: &Frame, out: &mut Vec<u8>) -> Result<(), Fault> {
    match frame {
        Frame::Request(view) => {
            let mut command = Vec::new(alloc);
            write_command_again(view, &mut command)?;
            write_request_frame(&command, out)
        }
        Frame::Proposal(proposal) => {
            let core = core_again(alloc, &proposal.core())?;
            let certificate = certificate_again(alloc, &proposal.certificate())?;
            write_proposal(proposal.view(), &core, &certificate, proposal.vector(), out)
        }
        Frame::Vote(view) => {
            let vote = view.vote();
            write_vote(&Digest(*view.digest()), vote.voter(), vote.vector(), out)
        }
        Frame::NewView(new_view) => {
            let certificate = certificate_again(alloc, &new_view.certificate())?;
            write_new_view(
                new_view.view(),
                new_view.sender(),
                &certificate,
                new_view.vector(),
                out,
            )
        }
        Frame::Reply(view) => write_reply_again(view, out),
        Frame::Fetch(view) => {
            write_fetch(view.sender(), &Digest(*view.digest()), view.tag(), out)
        }
        Frame::Block(view) => {
            let core = core_again(alloc, &view.core())?;
            let certificate = certificate_again(alloc, &view.certificate())?;
            write_block(view.sender(), &core, &certificate, view.tag(), out)
        }
    }
}
