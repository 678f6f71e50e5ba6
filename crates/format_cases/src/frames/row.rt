//! Many cases that are told in one line.

use crate::frames::Outcome;
use anyhow::Result;
use sha2::{Digest, Sha256};
use std::alloc::Global;

/// How many cases had each outcome, and a digest of all that was told of them.
#[derive(Drop)]
pub(crate) struct Row {
    told: Sha256,
    refused: u64,
    again: u64,
    different: u64,
}

impl Row {
    pub(crate) fn new() -> Row {
        Row {
            told: Sha256::new(),
            refused: 0,
            again: 0,
            different: 0,
        }
    }

    /// One more case, and its line.
    pub(crate) fn add(&mut self, outcome: Outcome, line: &str) {
        self.told.update(line);
        self.told.update("\n");
        let count = match outcome {
            Outcome::Refused => &mut self.refused,
            Outcome::Again => &mut self.again,
            Outcome::Different => &mut self.different,
        };
        *count = count.wrapping_add(1);
    }

    pub(crate) fn told(self, alloc: Global) -> Result<String> {
        let Row {
            told,
            refused,
            again,
            different,
        } = self;
        let digest = hex::encode(alloc, &told.finalize()[..16])?;
        Ok(format!(in alloc; "{refused} refused, {again} again, {different} DIFFERENT, {digest}")?)
    }
}
