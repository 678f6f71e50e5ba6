//! The blocks along a branch of the tree.

ghost use Rattle.std.specs.Prelude.{◌≡◌, ◌≤◌, ◌-◌, ◌++◌, reverse, map, [], option_map, IfOk, OnOk};
ghost use Rattle.std.specs.Option.{option_and_then};
ghost use Rattle.definitions.specs.Branches.{Branch};
ghost use Rattle.definitions.specs.Digests.{digest_of, core_of as block_core};
ghost use Rattle.definitions.specs.Trees.{blocks, find_in};
ghost use Rattle.frames_view.specs.Views.{commands_left, core_of};
ghost use Rattle.replica.specs.Careful as careful;
ghost use Rattle.replica.specs.Execution.{seen_at, block_at, history_above};
ghost use Rattle.replica.specs.Locked.{HasBlock, over_by, over_in};
ghost use Rattle.replica.specs.Picks.{key_of, keys_of};

use block_tree::{Node, Tree};
use frames_view::{Commands, CoreView};
use ids::{Digest, Height};
use mempool::RequestId;
use std::alloc::{AllocError, Global};

/// The digest of the block of this height on the branch of a block of the tree, as far as it is in reach.
pub(crate) fn digest_at(tree: &Tree, tip: &Digest, height: Height) -> Option<Digest>
    ensures { result ≡ option_map digest_of
        (option_and_then (seen_at tree.now.horizon height) (find_in tip.now (blocks tree.now.stored))) }
{
    tree.ancestor_at(tip, height)
}

/// The block of this height on the branch of a block of the tree. Genesis isn't kept.
pub(crate) fn block_at<'a>(tree: &'a Tree, tip: &Digest, height: Height) -> Option<&'a Node>
    ensures { option_map (λ n. n.now.core) result
        ≡ option_map (λ s. block_core s.branch) (block_at tip.now height tree.now) }
{
    let digest = digest_at(tree, tip, height)?;
    tree.block(&digest)
}

/// Whether the block of a core, on its parent in the tree, or one between it and the block that it justifies, justifies
/// one lower than the least height. It is asked where no lower one than that can be justified in the tree.
pub(crate) fn justifies_below(tree: &Tree, core: &CoreView<'_>, least: Height) -> bool
    ensures { tree.now.horizon ≤ least
        → result ≡ careful.justifies_below least (core_of core.now) (blocks tree.now.stored) }
{
    let parent = Digest(*core.parent());
    let Some(height) = tree.height(&parent) else {
        return false;
    };
    let justified = core.justify_height();
    if justified.0 > height.0 {
        return false;
    }
    if justified.0 < least.0 {
        return true;
    }
    !tree.justifies_from(&parent, justified, least)
}

/// The block that this one of the tree justifies, with its height, where that justifies the lower one.
fn justified_over(tree: &Tree, block: &Digest, lower: &Digest) -> Option<(Digest, Height)>
    ensures { (x y : Branch) → HasBlock tree.now.stored x block.now → HasBlock tree.now.stored y lower.now
        → result ≡ over_by y x }
{
    let (first, height) = tree.justified(block)?;
    let (second, _) = tree.justified(&first)?;
    if second == *lower {
        Some((first, height))
    } else {
        None
    }
}

/// A block that justifies the one of this digest and is itself justified, with its height: by the oldest block of the
/// tree over such a one.
pub(crate) fn over_block(tree: &Tree, lower: &Digest) -> Option<(Digest, Height)>
    ensures { (y : Branch) → HasBlock tree.now.stored y lower.now → result ≡ over_in y tree.now.stored }
{
    let count = tree.len() - 1;
    for older in 0..count {
        let block = tree.nth_newest(count - 1 - older).digest();
        if let Some(over) = justified_over(tree, &block, lower) {
            return Some(over);
        }
    }
    None
}

/// Puts the client and number of each command last.
fn put_keys(commands: Commands<'_>, keys: &mut Vec<RequestId>) -> Result<(), AllocError>
    ensures { OnOk result (keys.new.items ≡ keys.old.items ++ map key_of (commands_left commands.entry)) }
{
    for command in commands {
        keys.push(RequestId {
            client: command.client(),
            seq: command.seq(),
        })?;
    }
    Ok(())
}

/// The clients and numbers of the commands of a branch above one height up to another, in their order.
pub(crate) fn keys_between(
    alloc: Global,
    tree: &Tree,
    tip: &Digest,
    from: u64,
    to: u64,
) -> Result<Vec<RequestId>, AllocError>
    ensures { IfOk result
        (λ keys. keys.items ≡ reverse (keys_of (history_above tip.now tree.now from (to - from) []))) }
{
    let mut keys = Vec::new(alloc);
    for height in from..to {
        if let Some(block) = block_at(tree, tip, Height(height + 1)) {
            put_keys(block.core().commands(), &mut keys)?;
        }
    }
    Ok(keys)
}
