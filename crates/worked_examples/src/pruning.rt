//! A replica that pruned its tree.

ghost use Rattle.std.specs.Prelude.{◌≡◌, ◌≤◌, length};
ghost use Rattle.ids.specs.Sizes.{Sizes};
ghost use Rattle.definitions.specs.Lists.{Among};
ghost use Rattle.definitions.specs.Branches.{Branch};
ghost use Rattle.definitions.specs.Chronicles.{Chronicle, tree, window, horizon, lock, executed, IsLawful};
ghost use Rattle.definitions.specs.States.{qc_high};
ghost use Rattle.worked_examples.specs.Pruning.{HorizonIsExecuted, TwoBelowStand, GoesOn, RefusesTheLow};
ghost use Rattle.worked_examples.specs.Pruning.{TookTheLow, PrunedIsUnknown};

/// A pruning goes no higher than the last executed block, and leaves two heights below it.
pub fn a_pruning_leaves_a_window()
    ensures horizon { HorizonIsExecuted }
    ensures window { TwoBelowStand }
{}

/// Higher blocks are taken as before, and those that justify one below the horizon are refused.
pub fn what_justifies_a_pruned_block_is_refused()
    ensures goes_on { GoesOn }
    ensures refuses { RefusesTheLow }
    ensures before { TookTheLow }
{}

/// A pruned block is unknown.
pub fn a_pruned_block_is_unknown()
    ensures { PrunedIsUnknown }
{}

/// Whatever a replica prunes, its lock, its last executed block and the block of its highest certificate
/// stay in its window, and so does each block that is as high as that one: no rule asks for one that is gone.
pub fn what_the_rules_ask_for_stands()
    ensures lock { (s : Sizes) (c : Chronicle) → IsLawful s c → Among (lock c) (window c) }
    ensures executed { (s : Sizes) (c : Chronicle) → IsLawful s c → Among (executed c) (window c) }
    ensures certified { (s : Sizes) (c : Chronicle) → IsLawful s c → (x : Branch) → Among x (tree c)
        → length (qc_high s c).block ≤ length x → Among x (window c) }
{}

/// The rules of a replica that was never pruned look at all that it ever knew.
pub fn what_was_never_pruned_is_whole()
    ensures { (c : Chronicle) → horizon c ≡ 0 → window c ≡ tree c }
{}
