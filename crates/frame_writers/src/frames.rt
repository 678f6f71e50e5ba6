//! Whole frames of version 2, of parts that are spelled already.

ghost use Rattle.std.specs.Prelude.{◌∷◌};
ghost use Rattle.ids.specs.declared.limits.TheConstants.{VERSION_TWO};
ghost use Rattle.ids.specs.Numbers.{kind_number};
ghost use Rattle.ids.specs.declared.kind.Kind.TheVariants as kind;
ghost use Rattle.definitions.specs.Writing.{IsAppended};
ghost use Rattle.definitions.specs.Frames.{frame_text, proposal_text, new_view_text, block_text, spelling};
ghost use Rattle.definitions.specs.Frames.{vote, reply, fetch};

use crate::begun::{
    begin_block, begin_fetch, begin_new_view, begin_proposal, begin_reply, begin_vote,
};
use crate::bounded::ReplyText;
use appending::{append, put};
use ids::{ClientId, Digest, Fault, Kind, Place, ReplicaId, Seq, VERSION_TWO, View};

/// Appends a Request frame, of the bytes of a command.
pub fn write_request_frame(command: &[u8], out: &mut Vec<u8>) -> Result<(), Fault>
    ensures { IsAppended out.old out.new (VERSION_TWO ∷ kind_number kind.Request ∷ command.now) result }
{
    append(out, &[&[VERSION_TWO, Kind::Request.number()], command])
}

/// Appends a Proposal frame, of the bytes of a core and of a certificate.
pub fn write_proposal<'a>(
    view: View,
    core: &'a [u8],
    certificate: &'a [u8],
    vector: &'a [u8],
    out: &mut Vec<u8>,
) -> Result<(), Fault>
    ensures { IsAppended out.old out.new
        (frame_text (kind_number kind.Proposal) (proposal_text view core.now certificate.now) vector.now)
        result }
{
    begin_proposal(view, core, certificate, vector.len(), out)?;
    put(out, vector);
    Ok(())
}

/// Appends a Vote frame.
pub fn write_vote(
    digest: &Digest,
    voter: ReplicaId,
    vector: &[u8],
    out: &mut Vec<u8>,
) -> Result<(), Fault>
    ensures { IsAppended out.old out.new
        (spelling (vote digest.now (record { voter = voter; vector = vector.now }))) result }
{
    begin_vote(digest, voter, vector.len(), out)?;
    put(out, vector);
    Ok(())
}

/// Appends a NewView frame, of the bytes of a certificate.
pub fn write_new_view<'a>(
    view: View,
    sender: ReplicaId,
    certificate: &'a [u8],
    vector: &'a [u8],
    out: &mut Vec<u8>,
) -> Result<(), Fault>
    ensures { IsAppended out.old out.new
        (frame_text (kind_number kind.NewView) (new_view_text view sender certificate.now) vector.now)
        result }
{
    begin_new_view(view, sender, certificate, vector.len(), out)?;
    put(out, vector);
    Ok(())
}

/// Appends a Reply frame.
pub fn write_reply_frame(
    replica: ReplicaId,
    client: ClientId,
    seq: Seq,
    place: Place,
    text: &ReplyText<'_>,
    tag: &[u8; 32],
    out: &mut Vec<u8>,
) -> Result<(), Fault>
    ensures { IsAppended out.old out.new (spelling (reply replica client seq place text.now tag.now)) result }
{
    begin_reply(replica, client, seq, place, text, tag.len(), out)?;
    put(out, tag);
    Ok(())
}

/// Appends a Fetch frame.
pub fn write_fetch(
    sender: ReplicaId,
    digest: &Digest,
    tag: &[u8; 32],
    out: &mut Vec<u8>,
) -> Result<(), Fault>
    ensures { IsAppended out.old out.new (spelling (fetch sender digest.now tag.now)) result }
{
    begin_fetch(sender, digest, tag.len(), out)?;
    put(out, tag);
    Ok(())
}

/// Appends a Block frame, of the bytes of a core and of a certificate.
pub fn write_block<'a>(
    sender: ReplicaId,
    core: &'a [u8],
    certificate: &'a [u8],
    tag: &'a [u8; 32],
    out: &mut Vec<u8>,
) -> Result<(), Fault>
    ensures { IsAppended out.old out.new
        (frame_text (kind_number kind.Block) (block_text sender core.now certificate.now) tag.now) result }
{
    begin_block(sender, core, certificate, tag.len(), out)?;
    put(out, tag);
    Ok(())
}
