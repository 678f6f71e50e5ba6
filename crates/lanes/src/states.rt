//! Hash values in lanes.

ghost use Rattle.std.specs.Prelude.{◌≡◌, ◌<◌, slice_index};
ghost use Rattle.sha2.specs.Sha256.{compress, digest_bytes, initial_hash_256};
ghost use Rattle.lanes.specs.Lanes.{state_lane};

use crate::Group;
use crate::blocks::words_of_one;
use crate::compression::{compress, make_schedule};
use std::simd::prelude::*;

/// Four hash values, one in each lane.
pub fn in_lanes(a: &[u32; 8], b: &[u32; 8], c: &[u32; 8], d: &[u32; 8]) -> Group
    ensures a { state_lane result 0 ≡ a.now }
    ensures b { state_lane result 1 ≡ b.now }
    ensures c { state_lane result 2 ≡ c.now }
    ensures d { state_lane result 3 ≡ d.now }
{
    [
        u32x4::from_array([a[0], b[0], c[0], d[0]]),
        u32x4::from_array([a[1], b[1], c[1], d[1]]),
        u32x4::from_array([a[2], b[2], c[2], d[2]]),
        u32x4::from_array([a[3], b[3], c[3], d[3]]),
        u32x4::from_array([a[4], b[4], c[4], d[4]]),
        u32x4::from_array([a[5], b[5], c[5], d[5]]),
        u32x4::from_array([a[6], b[6], c[6], d[6]]),
        u32x4::from_array([a[7], b[7], c[7], d[7]]),
    ]
}

/// The digest that the hash value of a lane is.
pub fn digest_of(state: &Group, lane: usize) -> [u8; 32]
    requires { lane < 4 }
    ensures { result ≡ digest_bytes (state_lane state.now lane) 8 }
{
    let mut out = [0u8; 32];
    for i in 0..8 {
        let word = word_of(state[i], lane);
        out[4 * i..4 * i + 4].copy_from_slice(&word.to_be_bytes());
    }
    out
}

/// A lane of a vector.
fn word_of(v: u32x4, lane: usize) -> u32
    requires { lane < 4 }
    ensures { result ≡ slice_index v lane }
{
    v.to_array()[lane]
}

/// The hash value after the first block of a text (5.3.3, 6.2.2).
pub fn after_block(block: &[u8; 64]) -> [u32; 8]
    ensures { result ≡ compress initial_hash_256 block.now }
{
    let mut state = [
        u32x4::splat(0x6a09_e667),
        u32x4::splat(0xbb67_ae85),
        u32x4::splat(0x3c6e_f372),
        u32x4::splat(0xa54f_f53a),
        u32x4::splat(0x510e_527f),
        u32x4::splat(0x9b05_688c),
        u32x4::splat(0x1f83_d9ab),
        u32x4::splat(0x5be0_cd19),
    ];
    let words = words_of_one(block);
    let mut schedule = [u32x4::splat(0); 64];
    make_schedule(&words, &mut schedule);
    compress(&mut state, &schedule);
    first_lane(&state)
}

/// The hash value in the first lane.
fn first_lane(state: &Group) -> [u32; 8]
    ensures { result ≡ state_lane state.now 0 }
{
    [
        word_of(state[0], 0),
        word_of(state[1], 0),
        word_of(state[2], 0),
        word_of(state[3], 0),
        word_of(state[4], 0),
        word_of(state[5], 0),
        word_of(state[6], 0),
        word_of(state[7], 0),
    ]
}
