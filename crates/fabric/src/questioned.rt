//! Which blocks a replica asks others for.

use asking::Ask;
use bytes::Bytes;
use ids::{Digest, ReplicaId};
use std::alloc::Global;
use std::sync::Wait;
use std::time::Clock;

/// What the copy of a block is for that was asked for.
#[derive(Clone, Copy, Debug, PartialEq, Eq)]
pub enum CopyUse {
    /// It is taken as any frame.
    Alone,
    /// It is kept: others' come, too, or the block below it has to.
    Together,
    /// Nothing: the block came, or there are copies enough.
    Nothing,
}

/// The copies of one block.
#[derive(Drop)]
pub struct Copies {
    pub block: Digest,
    pub frames: Vec<Bytes>,
}

/// Where it is kept which blocks a replica asked for since a frame had no grounds, and the copies that came. Who keeps none
/// asks nobody.
pub trait Questioned {
    /// Whether a block was asked for, and hasn't come.
    fn wants<R: Wait>(&self, _rt: &R, _block: &Digest) -> bool {
        false
    }

    /// A block lacks, by a frame of this payer, on whose account all are to be asked: behind a pause, in which votes may come that
    /// give it grounds.
    fn need<R: Wait + Clock>(&self, _rt: &R, _block: Digest, _payer: ReplicaId) {}

    /// The same at once. Whether the account has room for it.
    fn need_now<R: Wait + Clock>(&self, _rt: &R, _block: Digest, _payer: ReplicaId) -> bool {
        false
    }

    /// The same for a block that comes next of those that another replica recorded.
    fn need_ahead<R: Wait + Clock>(&self, _rt: &R, _block: Digest, _payer: ReplicaId) -> bool {
        false
    }

    /// Nothing is asked for on this payer's account any more.
    fn forget<R: Wait>(&self, _rt: &R, _payer: ReplicaId) {}

    /// The parent of a block lacks, by this sender's frame, who is to be asked first: on the account that the block is on
    /// where that was asked for, else on the sender's. The block isn't asked for meanwhile.
    fn need_below<R: Wait + Clock>(
        &self,
        _rt: &R,
        _block: &Digest,
        _parent: Digest,
        _sender: ReplicaId,
    ) {}

    /// The next question, if one is due.
    fn next<R: Wait + Clock>(&self, _rt: &R) -> Option<Ask> {
        None
    }

    /// Keeps the copy that a sender sent of a block. All copies of it, once they are of more senders than may be faulty;
    /// before that all are to be asked at once.
    fn keep<R: Wait + Clock>(
        &self,
        _rt: &R,
        _alloc: Global,
        _block: &Digest,
        _sender: ReplicaId,
        _copy: Bytes,
    ) -> Option<Vec<Bytes>> {
        None
    }

    /// What the copy of a block is for, of so many bytes.
    fn use_of<R: Wait>(
        &self,
        _rt: &R,
        _block: &Digest,
        _parent: &Digest,
        _bytes: usize,
    ) -> CopyUse {
        CopyUse::Alone
    }

    /// Keeps the copy that a sender sent of a block, beside others' copies. All of them, once they are of more senders than may
    /// be faulty and the parent isn't asked for.
    fn keep_copy<R: Wait>(
        &self,
        _rt: &R,
        _alloc: Global,
        _block: &Digest,
        _parent: Digest,
        _sender: ReplicaId,
        _copy: Bytes,
    ) -> Option<Vec<Bytes>> {
        None
    }

    /// A block was taken. The copies of one that waited for it, if of one.
    fn close<R: Wait + Clock>(&self, _rt: &R, _alloc: Global, _block: &Digest) -> Option<Copies> {
        None
    }
}
