//! The links of a block.

ghost use Rattle.std.specs.Prelude.{◌≡◌, ◌<◌, [], ◌∷◌, ◌++◌, length, slice_get, IsSome};

use std::marker::Model;

/// As many links as a block may have: no tree has more than 2^20 blocks.
pub(crate) const MOST_LINKS: usize = 21;

/// The numbers of a block's ancestors at the distances 1, 2, 4 and so on, as far down as blocks are in
/// reach.
///
/// They stand within the block's entry, so that a link costs one look into memory.
#[derive(Drop)]
pub(crate) struct Links {
    row: [u64; MOST_LINKS],
    count: usize,
}

impl Model for Links {
    ghost use Rattle.std.specs.Prelude.{ℕ, List, ◌≤◌, take};
    ghost use Rattle.block_tree.specs.declared.links.TheConstants.{MOST_LINKS};

    ghost Value = { List ℕ };

    ghost view = { λ l. take l.count l.row };

    ghost invariant = { λ l. l.count ≤ MOST_LINKS };
}

impl Links {
    ghost use Rattle.block_tree.specs.declared.links.TheConstants.{MOST_LINKS};

    /// No links, as genesis has them.
    pub(crate) fn new() -> Links
        ensures { result ≡ [] }
    {
        Links {
            row: [0; MOST_LINKS],
            count: 0,
        }
    }

    /// One more link.
    pub(crate) fn push(&mut self, number: u64)
        requires { length self.old < MOST_LINKS }
        ensures { self.new ≡ self.old ++ number ∷ [] }
    {
        self.row[self.count] = number;
        self.count += 1;
    }

    /// Where the link of a level leads, over `2^level` blocks.
    pub(crate) fn get(&self, level: usize) -> Option<u64>
        ensures link { result ≡ slice_get self.now level }
        ensures low { IsSome result → level < MOST_LINKS }
    {
        let number = self.row[..self.count].get(level)?;
        Some(*number)
    }
}
