//! Which blocks are asked for next.

use ids::{Digest, ReplicaId};
use std::alloc::Global;
use std::collections::VecDeque;

/// The blocks that a replica which is far behind needs next, while the account of who gave their frames has no room for them. The
/// lowest comes first.
#[derive(Drop)]
pub(crate) struct Ahead {
    giver: ReplicaId,
    blocks: VecDeque<Digest>,
}

impl Ahead {
    /// None.
    pub(crate) fn none(alloc: Global) -> Ahead {
        Ahead {
            giver: ReplicaId(0),
            blocks: VecDeque::new(alloc),
        }
    }

    /// These, on this giver's account, and no others any more.
    pub(crate) fn begin(&mut self, giver: ReplicaId, blocks: VecDeque<Digest>) {
        self.giver = giver;
        self.blocks = blocks;
    }

    /// The next one, and on whose account it is.
    pub(crate) fn next(&mut self) -> Option<(ReplicaId, Digest)> {
        let block = self.blocks.pop_front()?;
        Some((self.giver, block))
    }

    /// That one comes next again, unless others do meanwhile. For want of memory it's left out.
    pub(crate) fn put_back(&mut self, giver: ReplicaId, block: Digest) {
        if self.giver == giver {
            let _refused = self.blocks.push_front(block);
        }
    }
}
