//! The parts of frames, as they lie in the bytes that they were read from.

ghost use Rattle.std.specs.Prelude.{◌≡◌, length};
ghost use Rattle.std.specs.List.{flat_map};
ghost use Rattle.definitions.specs.Frames.{command_content, core_bytes, vote_bytes};
ghost use Rattle.frames_view.specs.Readings.{elements};
ghost use Rattle.frames_view.specs.Parts.{vote_in};
ghost use Rattle.frames_view.specs.Cores.{core_of_fields};

use crate::core_fields::CoreFields;

/// A replica's vote, with its tag for each replica.
#[derive(Clone, Copy)]
pub struct VoteView<'a> {
    pub(crate) voter: u8,
    pub(crate) vector: &'a [u8],
}

/// Votes for the block of a digest, of voters that rise: none, or a quorum to all.
#[derive(Clone, Copy)]
pub struct CertificateView<'a> {
    pub(crate) digest: &'a [u8; 32],
    pub(crate) replicas: u8,
    pub(crate) count: u8,
    pub(crate) votes: &'a [u8],
    ghost whole: { length digest.now ≡ 32 },
    ghost counted: { length (elements (vote_in replicas) count votes.now) ≡ count },
    ghost trimmed: { votes.now ≡ flat_map vote_bytes (elements (vote_in replicas) count votes.now) },
}

/// A client's numbered request, with its tag for each replica.
#[derive(Clone, Copy)]
pub struct CommandView<'a> {
    pub(crate) content: &'a [u8],
    pub(crate) client: u8,
    pub(crate) seq: u64,
    pub(crate) payload: &'a [u8],
    pub(crate) vector: &'a [u8],
    ghost spelled: { content.now ≡ command_content client seq payload.now },
}

/// What the digest of a block is made of.
#[derive(Clone, Copy)]
pub struct CoreView<'a> {
    pub(crate) raw: &'a [u8],
    pub(crate) fields: CoreFields<'a>,
    ghost spelled: { raw.now ≡ core_bytes (core_of_fields fields) },
}

/// The votes of a certificate, in order.
#[derive(Clone, Copy)]
pub struct Votes<'a> {
    pub(crate) replicas: u8,
    pub(crate) count: u8,
    pub(crate) rest: &'a [u8],
}

/// The commands of a core, in order.
#[derive(Clone, Copy)]
pub struct Commands<'a> {
    pub(crate) replicas: u8,
    pub(crate) clients: u8,
    pub(crate) count: u8,
    pub(crate) rest: &'a [u8],
}
