//! Frames in order of height.

ghost use Rattle.std.specs.Prelude.{◌≡◌, ◌==◌, ◌+◌, ◌≤◌, IfOk, IfErr, OnOk, OnErr, length, take, drop};
ghost use Rattle.std.specs.Bool.{OnTrue};
ghost use Rattle.std.specs.List.{AllWithin, list_any};
ghost use Rattle.frame_record.specs.Costs.{cost, fitting, is_of};
ghost use Rattle.frame_record.specs.Recording.{AreInOrder, above, batch, frames_of, from_height, inserted};
ghost use Rattle.frame_record.specs.Recording.{room_for, up_to, within};

use crate::batch::Batch;
use crate::recorded::Recorded;
use ids::{Digest, Height};
use std::alloc::{AllocError, Global};
use std::collections::VecDeque;

/// Whether none is of a greater height.
fn is_highest(frames: &VecDeque<Recorded>, height: Height) -> bool
    requires { AreInOrder frames.now.items }
    ensures { OnTrue result
        (AllWithin (λ r. r.height ≤ height) frames.now.items 0 (length frames.now.items)) }
{
    match frames.back() {
        Some(last) => last.is_up_to(height),
        None => true,
    }
}

/// The place behind those of this height. Mostly it is the end.
fn place_behind(frames: &VecDeque<Recorded>, height: Height) -> usize
    requires { AreInOrder frames.now.items }
    ensures within { result ≤ length frames.now.items }
    ensures before { up_to height frames.now.items ≡ take result frames.now.items }
    ensures behind { above height frames.now.items ≡ drop result frames.now.items }
{
    if is_highest(frames, height) {
        return frames.len();
    }
    frames.partition_point(|recorded| recorded.is_up_to(height))
}

/// The place of the first of this height, or above.
fn place_from(frames: &VecDeque<Recorded>, height: Height) -> usize
    requires { AreInOrder frames.now.items }
    ensures within { result ≤ length frames.now.items }
    ensures from { from_height height frames.now.items ≡ drop result frames.now.items }
{
    frames.partition_point(|recorded| recorded.is_below(height))
}

/// Whether a frame of this height that brought this block stands there. It looks from the end down to that height.
pub(crate) fn has(frames: &VecDeque<Recorded>, height: Height, block: &Digest) -> bool
    requires { AreInOrder frames.now.items }
    ensures { result ≡ list_any (is_of height block.now) frames.now.items }
{
    let len = frames.len();
    for k in 0..len {
        let recorded = &frames[len - 1 - k];
        if recorded.is_below(height) {
            return false;
        }
        if recorded.is_of(height, block) {
            return true;
        }
    }
    false
}

/// One frame more stands behind those of its height. Where memory is refused, nothing changes.
pub(crate) fn insert(frames: &mut VecDeque<Recorded>, recorded: Recorded) -> Result<(), AllocError>
    requires { AreInOrder frames.old.items }
    ensures ok { OnOk result (frames.new.items ≡ inserted recorded frames.old.items) }
    ensures unchanged { OnErr result (frames.new.items ≡ frames.old.items) }
{
    let place = place_behind(frames, recorded.height);
    frames.insert(place, recorded)?;
    Ok(())
}

/// The first frames go, which cost so much, until the others cost at most so much. What these cost.
pub(crate) fn drop_oldest(frames: &mut VecDeque<Recorded>, all: usize, most: usize) -> usize
    requires { all ≡ cost frames.old.items }
    ensures fits { frames.new.items ≡ fitting most frames.old.items }
    ensures counted { result ≡ cost frames.new.items }
    ensures bounded { result ≤ most }
{
    let mut left = all;
    while left > most {
        match frames.pop_front() {
            Some(oldest) => left -= oldest.cost(),
            None => break,
        }
    }
    left
}

/// Copies, which share their bytes, of the frames from a place on, as long as the next one has at most so many bytes as
/// are left.
fn copies(
    alloc: Global,
    frames: &VecDeque<Recorded>,
    place: usize,
    most: usize,
) -> Result<Batch, AllocError>
    requires { place ≤ length frames.now.items }
    ensures frames { IfOk result
        (λ batch. batch.frames.items ≡ within most (frames_of (drop place frames.now.items))) }
    ensures last { IfOk result (λ batch. batch.is_last
        ≡ (length batch.frames.items + place == length frames.now.items)) }
{
    let mut copies = Vec::new(alloc);
    let mut left = most;
    for i in place..frames.len() {
        let frame = &frames[i].frame;
        if frame.len() > left {
            return Ok(Batch {
                frames: copies,
                is_last: false,
            });
        }
        left -= frame.len();
        copies.push(frame.clone()?)?;
    }
    Ok(Batch {
        frames: copies,
        is_last: true,
    })
}

/// How many bytes a batch from a place on may have, which is to have so many: the first frame goes in any case.
fn room_from(frames: &VecDeque<Recorded>, place: usize, most: usize) -> usize
    ensures { result ≡ room_for most (frames_of (drop place frames.now.items)) }
{
    match frames.get(place) {
        Some(first) => most.max(first.frame.len()),
        None => most,
    }
}

/// Copies, which share their bytes, of the frames from a height on: as many as have at most so many bytes, and one in any
/// case.
pub(crate) fn batch_from(
    alloc: Global,
    frames: &VecDeque<Recorded>,
    height: Height,
    most: usize,
) -> Result<Batch, AllocError>
    requires { AreInOrder frames.now.items }
    ensures frames { IfOk result
        (λ given. given.frames.items ≡ batch most (frames_of (from_height height frames.now.items))) }
    ensures last { IfOk result (λ given. given.is_last
        ≡ (length given.frames.items == length (from_height height frames.now.items))) }
{
    let place = place_from(frames, height);
    let room = room_from(frames, place, most);
    copies(alloc, frames, place, room)
}
