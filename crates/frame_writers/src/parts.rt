//! The parts of frames: commands, cores, votes and certificates.

ghost use Rattle.std.specs.Prelude.{◌++◌};
ghost use Rattle.definitions.specs.Writing.{IsAppended};
ghost use Rattle.definitions.specs.Frames.{command_bytes, command_content, core_text, vote_bytes};
ghost use Rattle.definitions.specs.Frames.{certificate_text};
ghost use Rattle.appending.specs.Joined.{joined};
ghost use Rattle.frame_writers.specs.Begun.{IsBegun};

use crate::big_endian::{in_eight, in_two};
use crate::bounded::Payload;
use appending::{add_parts_len, append, put, put_parts};
use ids::{ClientId, Digest, Fault, Height, ReplicaId, Seq};

/// Appends these parts, with room for so many bytes after them.
fn append_before(parts: &[&[u8]], more: usize, out: &mut Vec<u8>) -> Result<(), Fault>
    ensures { IsBegun out.old out.new (joined parts.now) more result }
{
    out.reserve(add_parts_len(more, parts)?)?;
    put_parts(out, parts);
    Ok(())
}

/// Appends what a command's tags speak of, after a head, with room for so many bytes of tags after it.
pub(crate) fn begin_command(
    head: &[u8],
    client: ClientId,
    seq: Seq,
    payload: &Payload<'_>,
    tags: usize,
    out: &mut Vec<u8>,
) -> Result<(), Fault>
    ensures { IsBegun out.old out.new (head.now ++ command_content client seq payload.now) tags result }
{
    let payload = payload.as_slice();
    append_before(
        &[
            head,
            &in_two(u16::from(client.0)),
            &in_eight(seq.0),
            &in_two(payload.len() as u16),
            payload,
        ],
        tags,
        out,
    )
}

/// Appends a command: its content and its client's tags.
pub fn write_command(
    client: ClientId,
    seq: Seq,
    payload: &Payload<'_>,
    vector: &[u8],
    out: &mut Vec<u8>,
) -> Result<(), Fault>
    ensures { IsAppended out.old out.new
        (command_bytes (record { client = client; seq = seq; payload = payload.now; vector = vector.now }))
        result }
{
    begin_command(&[], client, seq, payload, vector.len(), out)?;
    put(out, vector);
    Ok(())
}

/// Appends a core, of the bytes of `count` commands.
pub fn write_core(
    parent: &Digest,
    height: Height,
    justify_height: Height,
    count: u8,
    commands: &[u8],
    out: &mut Vec<u8>,
) -> Result<(), Fault>
    ensures { IsAppended out.old out.new (core_text parent.now height justify_height count commands.now)
        result }
{
    append(
        out,
        &[
            &parent.0,
            &in_eight(height.0),
            &in_eight(justify_height.0),
            &[count],
            commands,
        ],
    )
}

/// Appends a vote, as it stands in a certificate.
pub fn write_certified_vote(voter: ReplicaId, vector: &[u8], out: &mut Vec<u8>) -> Result<(), Fault>
    ensures { IsAppended out.old out.new (vote_bytes (record { voter = voter; vector = vector.now })) result }
{
    append(out, &[&in_two(u16::from(voter.0)), vector])
}

/// Appends a certificate, of the bytes of `count` votes.
pub fn write_certificate(
    digest: &Digest,
    count: u8,
    votes: &[u8],
    out: &mut Vec<u8>,
) -> Result<(), Fault>
    ensures { IsAppended out.old out.new (certificate_text digest.now count votes.now) result }
{
    append(out, &[&digest.0, &[count], votes])
}
