//! How many frames are taken at once.

ghost use Rattle.std.specs.Prelude.{◌≡◌, ◌+◌, ◌≤◌, SomeIff};
ghost use Rattle.outbox.specs.Waiting.{IsBatch};

use bytes::Bytes;
use std::collections::VecDeque;

/// The sum of two sizes, where it is at most so much.
fn sum_within(one: usize, other: usize, most: usize) -> Option<usize>
    ensures { SomeIff result (one + other ≤ most) (one + other) }
{
    let sum = one.checked_add(other)?;
    if sum <= most { Some(sum) } else { None }
}

/// How many frames from the front are taken at once, where they may have so many bytes.
pub(crate) fn batch_len(frames: &VecDeque<Bytes>, most: usize) -> usize
    ensures { IsBatch most frames.now.items result }
{
    let Some(first) = frames.front() else {
        return 0;
    };
    let mut size = first.len();
    for i in 1..frames.len() {
        match sum_within(size, frames[i].len(), most) {
            Some(sum) => size = sum,
            None => return i,
        }
    }
    frames.len()
}
