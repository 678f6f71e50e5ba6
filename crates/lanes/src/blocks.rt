//! The blocks of texts, with their padding, and their words in lanes.

ghost use Rattle.std.specs.Prelude.{◌≡◌, ◌<◌, ◌≤◌, ◌+◌, ◌*◌, ◌^◌, ◌++◌, ℕ, List, drop, length, replicate};
ghost use Rattle.sha2.specs.Sha256.{word_at};
ghost use Rattle.lanes.specs.Lanes.{HasWords};
ghost use Rattle.lanes.specs.Texts.{IsWindow, block_at, blocks_of, tail};

use std::simd::prelude::*;

/// The word at byte i of a block (5.2.1).
fn load_be(block: &[u8], i: usize) -> u32
    requires { i + 4 ≤ length block.now }
    ensures { result ≡ word_at block.now i }
{
    u32::from_be_bytes([block[i], block[i + 1], block[i + 2], block[i + 3]])
}

/// The words of four blocks, one in each lane.
pub(crate) fn words_of(a: &[u8; 64], b: &[u8; 64], c: &[u8; 64], d: &[u8; 64]) -> [u32x4; 16]
    ensures a { HasWords result 0 a.now }
    ensures b { HasWords result 1 b.now }
    ensures c { HasWords result 2 c.now }
    ensures d { HasWords result 3 d.now }
{
    let mut words = [u32x4::splat(0); 16];
    for i in 0..16 {
        words[i] = u32x4::from_array([
            load_be(a, 4 * i),
            load_be(b, 4 * i),
            load_be(c, 4 * i),
            load_be(d, 4 * i),
        ]);
    }
    words
}

/// The words of one block, in every lane.
pub(crate) fn words_of_one(block: &[u8]) -> [u32x4; 16]
    requires { length block.now ≡ 64 }
    ensures { (j : ℕ) → j < 4 → HasWords result j block.now }
{
    let mut words = [u32x4::splat(0); 16];
    for i in 0..16 {
        words[i] = u32x4::splat(load_be(block, 4 * i));
    }
    words
}

/// Writes what of a piece, which comes behind the first `at` bytes of a text, falls into the block at `start`.
fn put(block: &mut [u8; 64], start: usize, piece: &[u8], at: usize)
    requires start { start + 64 < 2 ^ 64 }
    requires piece { at + length piece.now < 2 ^ 64 }
    ensures { (before : List ℕ) → length before ≡ at → IsWindow block.old start before
        → IsWindow block.new start (before ++ piece.now) }
{
    let from = at.max(start);
    let to = (at + piece.len()).min(start + 64);
    if from < to {
        block[from - start..to - start].copy_from_slice(&piece[from - at..to - at]);
    }
}

/// Block i of a text that has `at` bytes before its rest: with the rest and the padding of both (5.1.1), and zeros where
/// those bytes are. One block was hashed before the text.
pub(crate) fn block_of_rest(at: usize, rest: &[u8], i: usize) -> [u8; 64]
    requires short { at ≤ 64 }
    requires within { i < blocks_of (at + length rest.now) }
    ensures { (h : List ℕ) → length h ≡ at → IsWindow (replicate 64 0) (64 * i) h
        → result ≡ block_at (tail (h ++ rest.now)) i }
{
    let len = at + rest.len();
    let start = 64 * i;
    let bits = (64 + len as u64).wrapping_mul(8);
    let mut block = [0; 64];
    put(&mut block, start, rest, at);
    put(&mut block, start, &[0x80], len);
    put(
        &mut block,
        start,
        &bits.to_be_bytes(),
        64 * ((len + 8) / 64) + 56,
    );
    block
}

/// The block with this head in place of as many bytes.
pub(crate) fn with_head(block: &[u8; 64], head: &[u8]) -> [u8; 64]
    requires { length head.now ≤ 64 }
    ensures { result ≡ head.now ++ drop (length head.now) block.now }
{
    let mut out = *block;
    out[..head.len()].copy_from_slice(head);
    out
}

/// The words, in every lane, of block i of a text that has `at` bytes before its rest, all in its first block.
pub(crate) fn words_behind(at: usize, rest: &[u8], i: usize) -> [u32x4; 16]
    requires short { at ≤ 64 }
    requires low { 1 ≤ i }
    requires within { i < blocks_of (at + length rest.now) }
    ensures { (j : ℕ) (h : List ℕ) → j < 4 → length h ≡ at
        → HasWords result j (block_at (tail (h ++ rest.now)) i) }
{
    let start = 64 * i - at;
    if start + 64 <= rest.len() {
        words_of_one(&rest[start..start + 64])
    } else {
        words_of_one(&block_of_rest(at, rest, i))
    }
}
