//! The window of a replica, as it is now.

ghost use Rattle.std.specs.Prelude.{◌≡◌, IfOk};
ghost use Rattle.hex.specs.Hex.{IsBytes};
ghost use Rattle.audit.specs.Judged.{member_of};
ghost use Rattle.window_files.specs.Files.{IsHead, count_of};
ghost use Rattle.window_files.specs.Windows.{head_of, AreShown};

use crate::head::{Head, number_of};
use ids::{Digest, Height};
use replica::Replica;
use std::alloc::{AllocError, Global};

/// Whose window it is, and which heights it shows.
pub(crate) fn head_of(replica: &Replica) -> Head
    ensures fits { IsHead result }
    ensures own { result ≡ head_of replica.now.keys.sizes (member_of replica.now) }
{
    // For the proof: it is one of the replicas of its sizes, and these are within their limits.
    replica.holds();
    let config = replica.config();
    config.holds();
    let last = number_of(replica.height());
    let kept = number_of(replica.horizon().lowest_kept());
    Head {
        config,
        number: replica.number(),
        height: Height(last),
        lowest: Height(kept.max(1)),
    }
}

/// Says what bytes are, and does nothing else.
fn hold_bytes(bytes: &[u8])
    ensures { IsBytes bytes.now }
{
    let _bytes = bytes;
}

/// Says what a digest's bytes are, and does nothing else.
fn hold(digest: &Digest)
    ensures { IsBytes digest.now }
{
    hold_bytes(digest.0.as_slice());
}

/// The digests that a replica's window shows, from the lowest height on.
pub(crate) fn digests_of(
    alloc: Global,
    replica: &Replica,
    head: &Head,
) -> Result<Vec<Digest>, AllocError>
    requires fits { IsHead head.now }
    requires own { head.now ≡ head_of replica.now.keys.sizes (member_of replica.now) }
    ensures { IfOk result (λ digests.
        AreShown replica.now.replica.chronicle head.now.lowest (count_of head.now) digests.items) }
{
    let lowest = number_of(head.lowest);
    let mut digests = Vec::new(alloc);
    for place in 0..head.count() {
        let digest = replica.executed_block_at(Height(lowest + place)).unwrap();
        // For the proof: its bytes are bytes.
        hold(&digest);
        digests.push(digest)?;
    }
    Ok(digests)
}
