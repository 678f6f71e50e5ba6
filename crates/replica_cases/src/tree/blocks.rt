//! A tree of blocks without commands, and what the rules say of them.

use block_tree::{Tree, Turns};
use frame_writers::{write_block, write_certificate, write_core};
use frames_view::{Frame, genesis_digest, read};
use ids::{Config, Digest, Fault, Height, MOST_BLOCKS, ReplicaId};
use replica_rules::{BlockRef, Rules};
use std::alloc::Global;
use std::hash::RandomState;

/// A Block frame without commands, for four replicas.
fn block(
    alloc: Global,
    parent: &Digest,
    height: Height,
    justify_height: Height,
    certified: &Digest,
) -> Result<Vec<u8>, Fault> {
    let mut core = Vec::new(alloc);
    write_core(parent, height, justify_height, 0, &[], &mut core)?;
    let mut certificate = Vec::new(alloc);
    write_certificate(certified, 0, &[], &mut certificate)?;
    let mut frame = Vec::new(alloc);
    write_block(ReplicaId(0), &core, &certificate, &[9; 32], &mut frame)?;
    Ok(frame)
}

/// Inserts the block of a Block frame.
fn insert(tree: &mut Tree, bytes: &[u8], clear: bool) -> Result<Digest, Fault> {
    let config = Config::new(1, 1)?;
    let Frame::Block(view) = read(&config, bytes)? else {
        return Err(Fault::NotMine);
    };
    tree.insert(&view.core(), &view.certificate(), clear)
}

/// A number of a line.
pub(crate) fn number(digits: &str) -> Result<u64, Fault> {
    digits.parse().ok().ok_or(Fault::BadFields)
}

/// A number of a line, 0 where there is none.
fn number_or_0(field: Option<&str>) -> Result<u64, Fault> {
    number(field.unwrap_or("0"))
}

/// The numbers of a line.
fn numbers(fields: &str) -> Result<[u64; 4], Fault> {
    let mut fields = fields.split(' ');
    Ok([
        number_or_0(fields.next())?,
        number_or_0(fields.next())?,
        number_or_0(fields.next())?,
        number_or_0(fields.next())?,
    ])
}

/// A tree, the rules, and the digests of the blocks by number.
#[derive(Drop)]
pub(crate) struct Blocks {
    alloc: Global,
    tree: Tree,
    rules: Rules,
    digests: Vec<Digest>,
}

impl Blocks {
    /// The digest of the block of a number; all zeros where there is none.
    fn digest(&self, number: u64) -> Digest {
        let digest = self.digests.get(number as usize);
        digest.copied().unwrap_or(Digest([0; 32]))
    }

    /// Inserts a block.
    fn add(&mut self, bytes: &[u8], clear: bool) -> Result<Digest, Fault> {
        let before = self.tree.len();
        let digest = insert(&mut self.tree, bytes, clear)?;
        if self.tree.len() > before {
            self.digests.push(digest)?;
        }
        Ok(digest)
    }

    /// A block with these numbers.
    fn grow(&mut self, numbers: [u64; 4], clear: bool) -> Result<Digest, Fault> {
        let [parent, height, justify_height, certified] = numbers;
        let (parent, certified) = (self.digest(parent), self.digest(certified));
        let (height, justify_height) = (Height(height), Height(justify_height));
        let bytes = block(self.alloc, &parent, height, justify_height, &certified)?;
        self.add(&bytes, clear)
    }

    /// So many blocks in a row.
    fn chain(&mut self, numbers: [u64; 4]) -> Result<Digest, Fault> {
        let [count, justify_height, certified, _] = numbers;
        let (justify_height, certified) = (Height(justify_height), self.digest(certified));
        let mut last = self.digests.last().copied().unwrap_or(genesis_digest());
        for _ in 0..count {
            let below = self.tree.height(&last).unwrap_or(Height(0));
            let height = Height(below.0.saturating_add(1));
            let bytes = block(self.alloc, &last, height, justify_height, &certified)?;
            last = self.add(&bytes, true)?;
        }
        Ok(last)
    }

    /// A block, or why there is none.
    fn named(&self, answer: Result<Digest, Fault>) -> Result<String, Fault> {
        Ok(match answer {
            Ok(digest) => format!(in self.alloc; "{digest}")?,
            Err(fault) => format!(in self.alloc; "fault {}", fault.number())?,
        })
    }

    /// `yes` or `no`.
    fn said(&self, answer: bool) -> Result<String, Fault> {
        Ok(String::from_str(self.alloc, if answer { "yes" } else { "no" })?)
    }

    /// What the tree keeps of a block.
    fn told(&self, block: &Digest) -> Result<String, Fault> {
        let (Some(core), Some(certificate)) = (self.tree.core(block), self.tree.certificate(block))
        else {
            return Err(Fault::UnknownParent);
        };
        let (parent, certified) = (Digest(*core.parent()), Digest(*certificate.digest()));
        let justified = match self.tree.justified(block) {
            Some((justified, _)) => justified,
            None => genesis_digest(),
        };
        let (height, below) = (core.height(), core.justify_height());
        Ok(format!(in self.alloc; "{height} {below} {parent} {certified} {justified}")?)
    }

    /// An ancestor, and how many links lead to it.
    fn ancestor(&self, block: &Digest, height: Height) -> Result<String, Fault> {
        let mut turns = Turns::new();
        let found = self.tree.ancestor_in(block, height, &mut turns);
        let name = self.named(found.ok_or(Fault::UnknownParent))?;
        Ok(format!(in self.alloc; "{name} {}", turns.count())?)
    }

    /// A new block justifies this one.
    fn take(&mut self, digest: Digest) -> Result<String, Fault> {
        let height = self.tree.height(&digest).unwrap_or(Height(0));
        match self.rules.taking(&self.tree, BlockRef { digest, height }) {
            Ok(rules) => {
                self.rules = rules;
                let (lock, executed) = (rules.lock().digest, rules.executed().digest);
                Ok(format!(in self.alloc; "{lock} {executed}")?)
            }
            Err(fault) => self.named(Err(fault)),
        }
    }

    /// A question about one block.
    fn about(&self, word: &str, block: &Digest, number: u64) -> Result<String, Fault> {
        match word {
            "told" => match self.told(block) {
                Ok(told) => Ok(told),
                Err(fault) => self.named(Err(fault)),
            },
            "at" => self.ancestor(block, Height(number)),
            "over" => self.said(self.tree.extends(block, &self.digest(number))),
            "clear" => self.said(self.tree.is_clear_above(block, Height(number))),
            "may" => self.said(self.rules.may_vote(&self.tree, block)),
            "decided" => self.named(Rules::decided(&self.tree, block).ok_or(Fault::UnknownParent)),
            _ => Err(Fault::BadFields),
        }
    }

    /// A pruning.
    fn prune(&mut self, horizon: Height) -> Result<String, Fault> {
        self.tree.prune(horizon);
        Ok(format!(in self.alloc; "{} {}", self.tree.horizon(), self.tree.len())?)
    }

    /// A vote.
    fn vote(&mut self, height: Height) -> Result<String, Fault> {
        self.rules.voted(height);
        Ok(format!(in self.alloc; "{}", self.rules.vheight())?)
    }

    /// What a line is answered.
    pub(crate) fn answer(&mut self, word: &str, fields: &str) -> Result<String, Fault> {
        let numbers = numbers(fields)?;
        let [first, second, ..] = numbers;
        let grown = match word {
            "grow" => self.grow(numbers, true),
            "dark" => self.grow(numbers, false),
            "chain" => self.chain(numbers),
            "prune" => return self.prune(Height(first)),
            "len" => return Ok(format!(in self.alloc; "{}", self.tree.len())?),
            "voted" => return self.vote(Height(first)),
            "take" => return self.take(self.digest(first)),
            _ => return self.about(word, &self.digest(first), second),
        };
        self.named(grown)
    }
}

/// A tree of genesis alone, with room for so many blocks.
pub(crate) fn tree_of(alloc: Global, hasher: RandomState, most: u64) -> Result<Blocks, Fault> {
    if most == 0 || most > MOST_BLOCKS as u64 {
        return Err(Fault::BadSize);
    }
    Ok(Blocks {
        alloc,
        tree: Tree::new(alloc, most as usize, hasher),
        rules: Rules::new(),
        digests: vec![in alloc; genesis_digest()]?,
    })
}
