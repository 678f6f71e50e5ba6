//! SHA-256 (FIPS 180-4) of four texts at once, one in each lane of a vector.
//!
//! Each text stands behind one block that was hashed before it, as it does in an HMAC (RFC 2104), whose first block is
//! made of the key. The texts differ in their heads alone, which are as long and end within the first block. So the
//! message schedule of each block behind it is made once, for all lanes of all groups. Sections named here are those of
//! FIPS 180-4.
#![tactic(auto)]

use std::simd::prelude::*;

mod blocks;
mod compression;
mod states;
mod texts;

pub use states::{after_block, digest_of, in_lanes};
pub use texts::{after_digests, after_first, after_rests};

/// Four hash values, one in each lane: vector i has word i of each.
pub type Group = [u32x4; 8];
