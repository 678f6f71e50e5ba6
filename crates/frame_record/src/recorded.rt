//! One frame.

ghost use Rattle.std.specs.Prelude.{◌≡◌, nat_le, nat_lt};
ghost use Rattle.frame_record.specs.Costs.{cost_of, is_of};

use bytes::Bytes;
use ids::{Digest, Height};
use tuning::PARCEL_SIZE;

/// A frame that was taken, the block that it brought, and the height of that.
#[derive(Drop)]
pub struct Recorded {
    pub height: Height,
    pub block: Digest,
    pub frame: Bytes,
}

impl Recorded {
    /// What it costs: its bytes and `PARCEL_SIZE`.
    pub(crate) fn cost(&self) -> usize
        ensures { result ≡ cost_of self.now }
    {
        self.frame.len() + PARCEL_SIZE
    }

    /// Whether its height is at most this.
    pub(crate) fn is_up_to(&self, height: Height) -> bool
        ensures { result ≡ nat_le self.now.height height }
    {
        self.height.0 <= height.0
    }

    /// Whether its height is less than this.
    pub(crate) fn is_below(&self, height: Height) -> bool
        ensures { result ≡ nat_lt self.now.height height }
    {
        self.height.0 < height.0
    }

    /// Whether it is of this height, and brought this block.
    pub(crate) fn is_of(&self, height: Height, block: &Digest) -> bool
        ensures { result ≡ is_of height block.now self.now }
    {
        self.height == height && self.block == *block
    }
}
