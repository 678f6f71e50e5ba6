ghost use Rattle.std.specs.Prelude.{◌≡◌, IfOk, OnOk, OnErr};
ghost use Rattle.definitions.specs.Cache.{count_it};
ghost use Rattle.mc_lines.specs.Meaning.{reply_of};
ghost use Rattle.cache.specs.Steps.{after_step};

use crate::cache::Cache;
use crate::number::numeral;
use mc_lines::{Reply, read_number};
use std::alloc::AllocError;

/// How far a number is moved.
#[derive(Clone, Copy)]
pub(crate) enum Step {
    Up(u64),
    Down(u64),
}

impl Step {
    /// The number after the step from another one. Behind the greatest one comes 0, and below 0 none.
    fn after(self, n: u64) -> u64
        ensures { result ≡ after_step self n }
    {
        match self {
            Step::Up(value) => n.wrapping_add(value),
            Step::Down(value) => n.saturating_sub(value),
        }
    }
}

impl Cache {
    /// Moves the number under a key.
    pub(crate) fn count(&mut self, key: &[u8], step: Step) -> Result<Reply, AllocError>
        ensures left { OnOk result (self.new ≡ (count_it self.old key.now (after_step step)).0) }
        ensures told { IfOk result (λ reply.
            reply_of reply ≡ (count_it self.old key.now (after_step step)).1) }
        ensures unchanged { OnErr result (self.new ≡ self.old) }
    {
        let Some(entry) = self.get(key) else {
            return Ok(Reply::NotFound);
        };
        let Some(n) = read_number(&entry.stored) else {
            return Ok(Reply::NonNumeric);
        };
        let flags = entry.flags;
        let n = step.after(n);
        let stored = numeral(self.alloc, n)?;
        self.change(key, flags, stored, Reply::Number(n))
    }
}
