//! What a replica records for others, and how it catches up by what they recorded.

use bytes::Bytes;
use catching_up::Question;
use frames_view::Frame;
use ids::{Digest, Height, ReplicaId};
use std::alloc::Global;
use std::sync::Wait;
use std::time::Clock;

/// Where it is kept what a replica took and gave, and what it asks others for where it fell behind. Who keeps nothing answers
/// nobody, and never asks.
pub trait Recording {
    /// A frame of these bytes was taken. The replica voted for the block that it brings, where this is one.
    fn record<R: Wait>(
        &self,
        _rt: &R,
        _frame: &Frame<'_>,
        _bytes: &Bytes,
        _voted: Option<Digest>,
    ) {}

    /// Where the replica is far behind: up to which height frames are of use to it. None where it isn't.
    fn reach(&self) -> Option<Height> {
        None
    }

    /// Whether votes weren't right for the replica of late, and it is a little behind: others' copies bring it on, and what it tries
    /// alone holds it up.
    fn trails(&self) -> bool {
        false
    }

    /// Another replica asks for what this one recorded.
    fn answer<R: Wait + Clock>(
        &self,
        _rt: &R,
        _alloc: Global,
        _from: ReplicaId,
        _question: Question,
    ) {}

    /// Whether another replica that asks for a block is given it: it hasn't just got it, and wasn't given too many of late.
    fn may_supply<R: Wait + Clock>(&self, _rt: &R, _to: ReplicaId, _block: &Digest) -> bool {
        true
    }

    /// A question of another replica for a block was taken.
    fn supplied<R: Wait + Clock>(&self, _rt: &R, _to: ReplicaId, _block: &Digest) {}

    /// Whether the answer to this question is awaited.
    fn awaits<R: Wait>(&self, _rt: &R, _question: &Question) -> bool {
        false
    }

    /// All of the answer to this question was taken. The next question goes out, if one is due.
    fn answered<R: Wait + Clock>(&self, _rt: &R, _question: &Question) {}

    /// The question that is due, if one is, goes out.
    fn catch_up<R: Wait + Clock>(&self, _rt: &R) {}
}
