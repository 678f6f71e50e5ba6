//! Four texts, hashed together.

ghost use Rattle.std.specs.Prelude.{◌≡◌, ◌<◌, ◌≤◌, ◌++◌, ℕ, List, [], ◌∷◌, length};
ghost use Rattle.sha2.specs.Sha256.{compress, digest_bytes};
ghost use Rattle.lanes.specs.Lanes.{HasKeyedSchedule, HasWords, group_lane, state_lane};
ghost use Rattle.lanes.specs.Texts.{after_first, after_text, block_at, tail};

use crate::Group;
use crate::blocks::{block_of_rest, with_head, words_behind, words_of};
use crate::compression::{compress, make_schedule};
use std::simd::prelude::*;

/// The hash values after the first blocks of four texts, from those after the block before. The texts have a head each
/// and the rest in common.
pub fn after_first(states: &Group, a: &[u8], b: &[u8], c: &[u8], d: &[u8], rest: &[u8]) -> Group
    requires short { length a.now ≤ 64 }
    requires b { length b.now ≡ length a.now }
    requires c { length c.now ≡ length a.now }
    requires d { length d.now ≡ length a.now }
    ensures a { state_lane result 0 ≡ after_first (state_lane states.now 0) (a.now ++ rest.now) }
    ensures b { state_lane result 1 ≡ after_first (state_lane states.now 1) (b.now ++ rest.now) }
    ensures c { state_lane result 2 ≡ after_first (state_lane states.now 2) (c.now ++ rest.now) }
    ensures d { state_lane result 3 ≡ after_first (state_lane states.now 3) (d.now ++ rest.now) }
{
    let block = block_of_rest(a.len(), rest, 0);
    let words = words_of(
        &with_head(&block, a),
        &with_head(&block, b),
        &with_head(&block, c),
        &with_head(&block, d),
    );
    let mut schedule = [u32x4::splat(0); 64];
    make_schedule(&words, &mut schedule);
    let mut state = *states;
    compress(&mut state, &schedule);
    state
}

/// Takes hash values after the first blocks of texts to those after the texts. The texts have a head of `at` bytes each
/// and the rest in common, so the schedule of each block is made once.
pub fn after_rests(groups: &mut [Group], at: usize, rest: &[u8])
    requires { at ≤ 64 }
    ensures length { length groups.new ≡ length groups.old }
    ensures each { (g j : ℕ) (s h : List ℕ) → g < length groups.old → j < 4 → length h ≡ at
        → group_lane groups.old g j ≡ after_first s (h ++ rest.now)
        → group_lane groups.new g j ≡ after_text s (h ++ rest.now) }
{
    let blocks = (at + rest.len() + 8) / 64 + 1;
    let mut schedule = [u32x4::splat(0); 64];
    for i in 1..blocks {
        let words = words_behind(at, rest, i);
        make_schedule(&words, &mut schedule);
        compress_each(groups, &schedule);
    }
}

/// The hash value in each lane of each group after one more block, whose schedule this is.
fn compress_each(groups: &mut [Group], keyed: &[u32x4; 64])
    ensures length { length groups.new ≡ length groups.old }
    ensures each { (g j : ℕ) (b : List ℕ) → g < length groups.old → j < 4
        → HasKeyedSchedule keyed.now j b
        → group_lane groups.new g j ≡ compress (group_lane groups.old g j) b }
{
    for group in groups.iter_mut() {
        compress(group, keyed);
    }
}

/// The hash values after the four digests that these hash values are, from those after the block before.
pub fn after_digests(states: &Group, digests: &Group) -> Group
    ensures { (j : ℕ) → j < 4 → state_lane result j
        ≡ after_text (state_lane states.now j) (digest_bytes (state_lane digests.now j) 8) }
{
    let [a, b, c, d, e, f, g, h] = *digests;
    let words = digest_words(a, b, c, d, e, f, g, h);
    let mut state = *states;
    let mut schedule = [u32x4::splat(0); 64];
    make_schedule(&words, &mut schedule);
    compress(&mut state, &schedule);
    state
}

/// The words of the block of a digest behind one block, with its padding.
fn digest_words(
    a: u32x4,
    b: u32x4,
    c: u32x4,
    d: u32x4,
    e: u32x4,
    f: u32x4,
    g: u32x4,
    h: u32x4,
) -> [u32x4; 16]
    ensures { (j : ℕ) → j < 4 → HasWords result j
        (block_at (tail (digest_bytes (state_lane (a ∷ b ∷ c ∷ d ∷ e ∷ f ∷ g ∷ h ∷ []) j) 8)) 0) }
{
    let none = u32x4::splat(0);
    let mark = u32x4::splat(0x8000_0000);
    // The bits of the two blocks: 8 times 96.
    let bits = u32x4::splat(768);
    [
        a, b, c, d, e, f, g, h, mark, none, none, none, none, none, none, bits,
    ]
}
