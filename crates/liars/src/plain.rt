ghost use Rattle.std.specs.Prelude.{◌≡◌, ◌∷◌, [], map, IfOk, OnErr};
ghost use Rattle.std.specs.List.{range_with_len};
ghost use Rattle.definitions.specs.Frames.{spelling};
ghost use Rattle.definitions.specs.FrameLimits.{IsFrame};
ghost use Rattle.definitions.specs.Replies.{reply_text, exists};
ghost use Rattle.definitions.specs.Checks.{identity_of};
ghost use Rattle.definitions.specs.Sendings.{reply_to};
ghost use Rattle.frames_view.specs.Views.{reply_of, proposal_of, core_of, certificate_of};
ghost use Rattle.signed_frames.specs.Outs.{sent_of};
ghost use Rattle.liars.specs.Lies.{IsLie, IsTold, bad_reply, crowded, empty_proposal, faces, flooded, two_faced};

use crate::answers::with_wrong_answers;
use crate::climb::with_climb;
use crate::crowd::crowd;
use crate::half::{LATE, SOON, with_half_certificates, with_half_votes};
use crate::left_out::with_one_left_out;
use crate::spoil::with_spoilt_requests;
use authenticators::ReplicaKeyring;
use frame_writers::{ReplyText, write_core};
use frames_view::{Frame, ProposalView, ReplyView, read};
use ids::{Digest, Fault, Kind, ReplicaId};
use signed_frames::{Sending, To, proposal_frame, reply_frame};
use std::alloc::{AllocError, Global};

/// The text that a bad reply has.
const BAD_REPLY: &[u8] = b"EXISTS\r\n";

/// How a replica lies that remembers nothing.
#[derive(Clone, Copy, Debug, PartialEq, Eq)]
pub enum Lie {
    /// It sends nothing.
    Mute,
    /// As a leader it sends replicas of odd number, in place of each proposal, one with the same
    /// parent and certificate and no commands.
    TwoFaced,
    /// It tells each client `EXISTS`.
    BadReply,
    /// As a leader it sends all replicas, behind each proposal, 64 different blocks of the next height, on
    /// the proposed one: as many as a tree takes. Each has one command that nobody sent.
    Crowder,
    /// It sends each frame 64 times more, to all replicas.
    Flooder,
    /// As a leader it sends each replica a certificate in which its own vote is right for that one alone, up to height
    /// 2. It sends replies, and nothing else.
    HalfVoter,
    /// The same, up to height 50,000.
    LateHalfVoter,
    /// It proposes nothing, and its votes are right for their receiver alone.
    HalfVotes,
    /// In place of a proposal on the block that it justifies it sends 8,192 empty ones, each on the one before, that
    /// justify that block. It sends nothing else.
    Climber,
    /// Before each proposal it sends each replica the requests in it once more, each with the client's tag for that
    /// replica alone.
    Spoiler,
    /// In place of each answer to a question it sends another block, and then the block with a certificate for that
    /// one itself.
    WrongAnswers,
    /// It proposes nothing, and its votes are right for all but the replica of the greatest number.
    OneLeftOut,
    /// It sends all as it is. What others ask of its record, outside of frames, it answers wrongly.
    WrongRecords,
    /// It sends all as it is. Outside of frames it tells leaders that others' votes weren't right for it.
    FalseDoubts,
}

/// How many times more a flooder sends each frame.
const REPEATS: usize = 64;

/// What goes out where a replica of this keyring wants to send a frame. A frame that the lie isn't about goes out as
/// it is.
pub(crate) fn plain_lie(
    alloc: Global,
    keyring: &ReplicaKeyring,
    lie: Lie,
    sending: Sending,
) -> Result<Vec<Sending>, Fault>
    ensures lies { IfOk result (λ out. IsLie keyring.now lie (sent_of sending) (map sent_of out.items)) }
    ensures memory { OnErr result (result ≡ Err Fault.Memory) }
{
    match lie {
        Lie::Mute => Ok(Vec::new(alloc)),
        Lie::TwoFaced => with_two_faces(alloc, keyring, sending),
        Lie::BadReply => with_bad_reply(alloc, keyring, sending),
        Lie::Crowder => with_crowd(alloc, keyring, sending),
        Lie::Flooder => Ok(with_flood(alloc, sending)?),
        Lie::HalfVoter => with_half_certificates(alloc, keyring, SOON, sending),
        Lie::LateHalfVoter => with_half_certificates(alloc, keyring, LATE, sending),
        Lie::HalfVotes => with_half_votes(alloc, keyring, sending),
        Lie::Climber => with_climb(alloc, keyring, sending),
        Lie::Spoiler => with_spoilt_requests(alloc, keyring, sending),
        Lie::WrongAnswers => with_wrong_answers(alloc, keyring, sending),
        Lie::OneLeftOut => with_one_left_out(alloc, keyring, sending),
        Lie::WrongRecords | Lie::FalseDoubts => Ok(one(alloc, sending)?),
    }
}

/// One frame.
pub(crate) fn one(alloc: Global, sending: Sending) -> Result<Vec<Sending>, AllocError>
    ensures { IfOk result (λ out. out.items ≡ sending ∷ []) }
{
    let mut out = Vec::new(alloc);
    out.push(sending)?;
    Ok(out)
}

/// What a two-faced replica sends.
fn with_two_faces(
    alloc: Global,
    keyring: &ReplicaKeyring,
    sending: Sending,
) -> Result<Vec<Sending>, Fault>
    ensures lies { IfOk result (λ out. IsTold (two_faced keyring.now) keyring.now.sizes (sent_of sending)
        (map sent_of out.items)) }
    ensures memory { OnErr result (result ≡ Err Fault.Memory) }
{
    let config = keyring.config();
    match read(&config, &sending.frame) {
        Ok(Frame::Proposal(view)) => {
            let empty = empty_proposal(alloc, keyring, &view)?;
            Ok(to_each(alloc, config.n(), &sending.frame, &empty)?)
        }
        _ => Ok(one(alloc, sending)?),
    }
}

/// What a replica of bad replies sends.
fn with_bad_reply(
    alloc: Global,
    keyring: &ReplicaKeyring,
    sending: Sending,
) -> Result<Vec<Sending>, Fault>
    ensures lies { IfOk result (λ out. IsTold (bad_reply keyring.now) keyring.now.sizes (sent_of sending)
        (map sent_of out.items)) }
    ensures memory { OnErr result (result ≡ Err Fault.Memory) }
{
    let config = keyring.config();
    match read(&config, &sending.frame) {
        Ok(Frame::Reply(view)) => {
            let frame = bad_reply(alloc, keyring, &view)?;
            let (to, kind) = (sending.to, Kind::Reply);
            Ok(one(alloc, Sending { to, kind, frame })?)
        }
        _ => Ok(one(alloc, sending)?),
    }
}

/// What a crowder sends.
fn with_crowd(
    alloc: Global,
    keyring: &ReplicaKeyring,
    sending: Sending,
) -> Result<Vec<Sending>, Fault>
    ensures lies { IfOk result (λ out. IsTold (crowded keyring.now) keyring.now.sizes (sent_of sending)
        (map sent_of out.items)) }
    ensures memory { OnErr result (result ≡ Err Fault.Memory) }
{
    match read(&keyring.config(), &sending.frame) {
        Ok(Frame::Proposal(view)) => {
            let mut out = crowd(alloc, keyring, &view)?;
            out.insert(0, sending)?;
            Ok(out)
        }
        _ => Ok(one(alloc, sending)?),
    }
}

/// What a flooder sends.
fn with_flood(alloc: Global, sending: Sending) -> Result<Vec<Sending>, AllocError>
    ensures { IfOk result (λ out. map sent_of out.items ≡ flooded (sent_of sending)) }
{
    let kind = sending.kind;
    let mut out = Vec::new(alloc);
    for _ in 0..REPEATS {
        let frame = Vec::from_slice(alloc, &sending.frame)?;
        out.push(Sending {
            to: To::All,
            kind,
            frame,
        })?;
    }
    out.insert(0, sending)?;
    Ok(out)
}

/// The proposal of a block without commands in place of this one's.
fn empty_proposal(
    alloc: Global,
    keyring: &ReplicaKeyring,
    proposal: &ProposalView<'_>,
) -> Result<Vec<u8>, Fault>
    ensures made { IfOk result (λ frame. frame.items ≡ spelling (empty_proposal keyring.now proposal.now.view
        (core_of proposal.now.core) (certificate_of proposal.now.certificate))) }
    ensures memory { OnErr result (result ≡ Err Fault.Memory) }
{
    let core = proposal.core();
    let parent = Digest(*core.parent());
    let mut bytes = Vec::new(alloc);
    write_core(
        &parent,
        core.height(),
        core.justify_height(),
        0,
        b"",
        &mut bytes,
    )?;
    let mut certificate = Vec::new(alloc);
    proposal.certificate().write(&mut certificate)?;
    proposal_frame(alloc, keyring, proposal.view(), &bytes, &certificate)
}

/// This frame to the replicas of even number, and that to the others.
fn to_each(alloc: Global, n: u8, even: &[u8], odd: &[u8]) -> Result<Vec<Sending>, AllocError>
    ensures { IfOk result (λ out. map sent_of out.items
        ≡ map (faces even.now odd.now) (range_with_len 0 n)) }
{
    let mut out = Vec::new(alloc);
    for number in 0..n {
        let frame = Vec::from_slice(alloc, if number % 2 == 0 { even } else { odd })?;
        out.push(Sending {
            to: To::Replica(ReplicaId(number)),
            kind: Kind::Proposal,
            frame,
        })?;
    }
    Ok(out)
}

/// The reply to the same command with another text.
fn bad_reply(
    alloc: Global,
    keyring: &ReplicaKeyring,
    view: &ReplyView<'_>,
) -> Result<Vec<u8>, Fault>
    requires fits { IsFrame keyring.now.sizes (reply_of view.now) }
    ensures made { IfOk result (λ frame. frame.items ≡ spelling (reply_to (identity_of keyring.now)
        (record {
          client = view.now.client;
          seq = view.now.seq;
          place = view.now.place;
          text = reply_text exists;
        })).1) }
    ensures memory { OnErr result (result ≡ Err Fault.Memory) }
{
    let text = ReplyText::new(BAD_REPLY).unwrap();
    reply_frame(
        alloc,
        keyring,
        view.client(),
        view.seq(),
        view.place(),
        &text,
    )
}
