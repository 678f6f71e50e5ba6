//! The votes that are kept for all blocks.

ghost use Rattle.std.specs.Prelude.{◌≡◌, nat_lt, OnOk, OnErr};
ghost use Rattle.vote_collector.specs.Collecting.{with_vote, kept_above};

use crate::kept_vote::KeptVote;
use crate::kept_votes::KeptVotes;
use ids::{Digest, Height};
use std::alloc::{AllocError, Global};
use std::collections::BTreeMap;

/// Adds a vote to those for the block of this digest and height.
pub(crate) fn add_to(
    alloc: Global,
    blocks: &mut BTreeMap<Digest, KeptVotes>,
    digest: Digest,
    height: Height,
    vote: KeptVote,
) -> Result<(), AllocError>
    ensures kept { OnOk result (blocks.new.entries ≡ with_vote digest height vote blocks.old.entries) }
    ensures unchanged { OnErr result (blocks.new.entries ≡ blocks.old.entries) }
{
    match blocks.get_mut(&digest) {
        Some(votes) => votes.insert(vote),
        None => {
            let votes = KeptVotes::new(alloc, height, vote)?;
            blocks.insert(digest, votes)?;
            Ok(())
        }
    }
}

/// Forgets all votes for blocks of at most this height.
pub(crate) fn drop_from(blocks: &mut BTreeMap<Digest, KeptVotes>, height: Height)
    ensures { blocks.new.entries ≡ kept_above height blocks.old.entries }
{
    blocks.retain(
        |_digest: &Digest, votes: &mut KeptVotes| -> bool
            ensures { (result ≡ nat_lt height votes.old.height) × (votes.new ≡ votes.old) }
        { votes.is_above(height) },
    );
}
