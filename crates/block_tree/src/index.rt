//! The numbers of blocks, by digest.

ghost use Rattle.std.specs.Prelude.{◌≡◌, Some, None, OnErr, OnOk, if◌then◌else◌};
ghost use Rattle.std.specs.Str.{bytes_eq};

use ids::Digest;
use std::alloc::{AllocError, Global};
use std::collections::HashMap;
use std::hash::RandomState;

/// The number of each block that was entered. A digest is hashed by its first eight bytes, under a key: who
/// doesn't know the key can't choose digests whose hashes collide.
#[derive(Drop)]
pub(crate) struct Index {
    numbers: HashMap<Digest, u64, RandomState>,
}

impl Index {
    ghost use Rattle.definitions.specs.Bytes.{Bytes};
    ghost use Rattle.block_tree.specs.Indexed.{number_of, other_than};

    /// No block. It takes no memory.
    pub(crate) fn new(alloc: Global, hasher: RandomState) -> Index
        ensures { (d : Bytes) → number_of result d ≡ None }
    {
        Index {
            numbers: HashMap::with_hasher(alloc, hasher),
        }
    }

    /// The number of the block of a digest.
    pub(crate) fn get(&self, digest: &Digest) -> Option<u64>
        ensures { result ≡ number_of self.now digest.now }
    {
        self.numbers.get(digest).copied()
    }

    /// Enters a block by its digest.
    pub(crate) fn insert(&mut self, digest: Digest, number: u64) -> Result<(), AllocError>
        ensures entered { OnOk result ((d : Bytes)
            → number_of self.new d ≡ (if bytes_eq digest d then Some number else number_of self.old d)) }
        ensures kept { OnErr result ((d : Bytes) → number_of self.new d ≡ number_of self.old d) }
    {
        self.numbers.insert(digest, number)?;
        Ok(())
    }

    /// Takes out the number of a digest, where it is this one.
    pub(crate) fn remove(&mut self, digest: &Digest, number: u64)
        ensures { (d : Bytes) → number_of self.new d
            ≡ (if bytes_eq digest.now d then other_than number (number_of self.old d)
            else number_of self.old d) }
    {
        if self.get(digest) == Some(number) {
            self.numbers.remove(digest);
        }
    }
}
