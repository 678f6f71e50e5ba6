//! A block tree that is asked, and the rules on it, and the words of `ids`. Each case comes after those before it.
//!
//! Blocks have no commands, and numbers in the order in which they come to stand; that of genesis
//! is 0. A number that no block has means the digest of zeros alone, and a number that is left out
//! is 0. Of a block its digest is printed, and `fault` and a number where a call refuses.
//!
//! - `tree MOST`: begins anew, with room for so many blocks.
//! - `grow PARENT HEIGHT JUSTIFY CERTIFIED`: a block on a parent, of a height, that justifies a
//!   height by a certificate for a block; or `dark ..`, one whose commands are unclear.
//! - `chain COUNT JUSTIFY CERTIFIED`: so many blocks, each on the last one that came to stand, which
//!   justify this height by a certificate for this block.
//! - `prune HORIZON`: raises the horizon; printed are the horizon and how many blocks stand.
//! - `len`: how many blocks stand.
//! - `told BLOCK`: its height, the one that it justifies, its parent, what its certificate is for,
//!   and what it justifies.
//! - `at BLOCK HEIGHT`: its ancestor of this height, and how many links lead there.
//! - `over BLOCK LOWER`: whether its branch goes through the other one.
//! - `clear BLOCK HEIGHT`: whether all blocks above this height on its branch are clear.
//! - `may BLOCK`: whether it may be voted for.
//! - `voted HEIGHT`: a vote; printed is the voted height.
//! - `take BLOCK`: a new block justifies this one; printed are the lock and the last executed block.
//! - `decided BLOCK`: the block that this one decides.
//! - `printed WORD NUMBER`: a number of this word, or the words of a refusal.

pub(crate) mod blocks;
mod printed;

use crate::tree::blocks::{Blocks, number, tree_of};
use crate::tree::printed::printed;
use ids::Fault;
use std::alloc::Global;
use std::hash::RandomState;

/// What is told of a case.
pub(crate) fn tell(
    alloc: Global,
    hasher: RandomState,
    blocks: &mut Blocks,
    input: &str,
) -> Result<String, Fault> {
    let (word, rest) = input.split_once(' ').unwrap_or((input, "0"));
    match word {
        "printed" => printed(alloc, rest),
        "tree" => {
            *blocks = tree_of(alloc, hasher, number(rest)?)?;
            Ok(String::new(alloc))
        }
        _ => blocks.answer(word, rest),
    }
}
