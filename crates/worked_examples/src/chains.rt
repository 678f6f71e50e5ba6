//! The lock and the three-chain decision (HotStuff, PODC 2019, in this project's form).

ghost use Rattle.worked_examples.specs.Chains.{StraightLocks, StraightDecides, BentLocks, BentDecidesNothing};

/// Four blocks in direct succession, each justified by the next, decide the first of them.
pub fn four_blocks_in_succession_decide_the_first()
    ensures locks { StraightLocks }
    ensures decides { StraightDecides }
{}

/// A block that passes over its parent breaks the succession: the lock goes on, and nothing is decided.
pub fn a_block_passed_over_decides_nothing()
    ensures locks { BentLocks }
    ensures decides { BentDecidesNothing }
{}
