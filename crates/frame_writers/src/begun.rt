//! Frames of version 2 up to their tags, of parts that are spelled already.

ghost use Rattle.std.specs.Prelude.{◌++◌};
ghost use Rattle.ids.specs.Numbers.{kind_number};
ghost use Rattle.ids.specs.declared.kind.Kind.TheVariants as kind;
ghost use Rattle.std.specs.Int.{w16, to_be_bytes};
ghost use Rattle.definitions.specs.Frames.{proposal_text, new_view_text, block_text, command_content};
ghost use Rattle.definitions.specs.Frames.{reply_content, fetch_content};
ghost use Rattle.appending.specs.Joined.{joined};
ghost use Rattle.frame_writers.specs.Begun.{IsBegun, untagged};

use crate::big_endian::{in_eight, in_four, in_two};
use crate::bounded::{Payload, ReplyText};
use crate::parts::begin_command;
use appending::{add_len, add_parts_len, put, put_parts};
use ids::{ClientId, Digest, Fault, HEAD_LEN, Kind, Place, ReplicaId, Seq, VERSION_TWO, View};

/// Appends the mark, the kind and these parts, with room for so many bytes of tags after them.
pub(crate) fn begin(
    kind: Kind,
    parts: &[&[u8]],
    tags: usize,
    out: &mut Vec<u8>,
) -> Result<(), Fault>
    ensures { IsBegun out.old out.new (untagged (kind_number kind) (joined parts.now)) tags result }
{
    out.reserve(add_parts_len(add_len(HEAD_LEN, tags)?, parts)?)?;
    put(out, &[VERSION_TWO, kind.number()]);
    put_parts(out, parts);
    Ok(())
}

/// Appends a Request frame up to its tags.
pub fn begin_request(
    client: ClientId,
    seq: Seq,
    payload: &Payload<'_>,
    tags: usize,
    out: &mut Vec<u8>,
) -> Result<(), Fault>
    ensures { IsBegun out.old out.new
        (untagged (kind_number kind.Request) (command_content client seq payload.now)) tags result }
{
    let head = [VERSION_TWO, Kind::Request.number()];
    begin_command(&head, client, seq, payload, tags, out)
}

/// Appends a Proposal frame up to its tags, of the bytes of a core and of a certificate.
pub fn begin_proposal<'a>(
    view: View,
    core: &'a [u8],
    certificate: &'a [u8],
    tags: usize,
    out: &mut Vec<u8>,
) -> Result<(), Fault>
    ensures { IsBegun out.old out.new
        (untagged (kind_number kind.Proposal) (proposal_text view core.now certificate.now)) tags result }
{
    begin(
        Kind::Proposal,
        &[&in_eight(view.0), core, certificate],
        tags,
        out,
    )
}

/// Appends a Vote frame up to its tags.
pub fn begin_vote(
    digest: &Digest,
    voter: ReplicaId,
    tags: usize,
    out: &mut Vec<u8>,
) -> Result<(), Fault>
    ensures { IsBegun out.old out.new
        (untagged (kind_number kind.Vote) (digest.now ++ to_be_bytes w16 voter)) tags result }
{
    begin(
        Kind::Vote,
        &[&digest.0, &in_two(u16::from(voter.0))],
        tags,
        out,
    )
}

/// Appends a NewView frame up to its tags, of the bytes of a certificate.
pub fn begin_new_view(
    view: View,
    sender: ReplicaId,
    certificate: &[u8],
    tags: usize,
    out: &mut Vec<u8>,
) -> Result<(), Fault>
    ensures { IsBegun out.old out.new
        (untagged (kind_number kind.NewView) (new_view_text view sender certificate.now)) tags result }
{
    begin(
        Kind::NewView,
        &[&in_eight(view.0), &in_two(u16::from(sender.0)), certificate],
        tags,
        out,
    )
}

/// Appends a Reply frame up to its tag.
pub fn begin_reply(
    replica: ReplicaId,
    client: ClientId,
    seq: Seq,
    place: Place,
    text: &ReplyText<'_>,
    tags: usize,
    out: &mut Vec<u8>,
) -> Result<(), Fault>
    ensures { IsBegun out.old out.new
        (untagged (kind_number kind.Reply) (reply_content replica client seq place text.now)) tags result }
{
    let text = text.as_slice();
    begin(
        Kind::Reply,
        &[
            &in_two(u16::from(replica.0)),
            &in_two(u16::from(client.0)),
            &in_eight(seq.0),
            &in_eight(place.0),
            &in_four(text.len() as u32),
            text,
        ],
        tags,
        out,
    )
}

/// Appends a Fetch frame up to its tag.
pub fn begin_fetch(
    sender: ReplicaId,
    digest: &Digest,
    tags: usize,
    out: &mut Vec<u8>,
) -> Result<(), Fault>
    ensures { IsBegun out.old out.new
        (untagged (kind_number kind.Fetch) (fetch_content sender digest.now)) tags result }
{
    begin(
        Kind::Fetch,
        &[&in_two(u16::from(sender.0)), &digest.0],
        tags,
        out,
    )
}

/// Appends a Block frame up to its tag, of the bytes of a core and of a certificate.
pub fn begin_block<'a>(
    sender: ReplicaId,
    core: &'a [u8],
    certificate: &'a [u8],
    tags: usize,
    out: &mut Vec<u8>,
) -> Result<(), Fault>
    ensures { IsBegun out.old out.new
        (untagged (kind_number kind.Block) (block_text sender core.now certificate.now)) tags result }
{
    begin(
        Kind::Block,
        &[&in_two(u16::from(sender.0)), core, certificate],
        tags,
        out,
    )
}
