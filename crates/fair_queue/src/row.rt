//! What one sender has waiting.

ghost use Rattle.std.specs.Prelude.{◌≡◌, ◌+◌, ◌-◌, ◌<◌, ◌≤◌, [], ◌∷◌, ◌++◌, nat_lt, OnOk, OnErr, IfSome, IfNone, MatchBool, List, ℕ, is_some};
ghost use Rattle.fair_queue.specs.Queues.{size_of, is_ready, after_one, charged, empty_row, refilled};
ghost use Rattle.fair_queue.specs.declared.refusal.Refusal.TheVariants.{Full, Memory};

use crate::allowance::Allowance;
use crate::refusal::Refusal;
use std::alloc::Global;
use std::collections::VecDeque;
use std::marker::Model;
use tuning::LINK_SHARE_BYTES;

/// The values of one sender that wait, oldest first.
#[derive(Drop)]
pub(crate) struct Row<T> {
    /// Each value, with its size.
    items: VecDeque<(usize, T)>,
    /// How much size waits.
    size: usize,
    count_left: usize,
    size_left: usize,
}

impl<T> Model for Row<T> {
    ghost use Rattle.std.specs.Prelude.{◌≡◌, ◌≤◌};
    ghost use Rattle.fair_queue.specs.Queues as queues;
    ghost use Rattle.tuning.specs.declared.links.TheConstants.{LINK_SHARE_BYTES};

    ghost Value = { queues.Row T };

    ghost view = { λ row. record {
      items = row.items.items;
      count_left = row.count_left;
      size_left = row.size_left;
    } };

    ghost invariant = { λ row. (row.size ≡ queues.size_of row.items.items) × (row.size ≤ LINK_SHARE_BYTES) };
}

impl<T: Drop> Row<T> {
    /// Nothing waits, and the whole allowance is left.
    pub(crate) fn new(alloc: Global, allowed: Allowance) -> Row<T>
        ensures { result ≡ empty_row allowed }
    {
        Row {
            items: VecDeque::new(alloc),
            size: 0,
            count_left: allowed.count,
            size_left: allowed.size,
        }
    }

    /// Whether something may be taken.
    pub(crate) fn is_ready(&self) -> bool
        ensures { result ≡ is_ready self.now }
    {
        !self.items.is_empty() && self.count_left > 0 && self.size_left > 0
    }

    /// How much size waits.
    pub(crate) fn waiting(&self) -> usize
        ensures { result ≡ size_of self.now.items }
    {
        self.size
    }

    /// A value more waits, at the end.
    pub(crate) fn put(&mut self, size: usize, value: T) -> Result<(), Refusal>
        ensures put { OnOk result
            (self.new ≡ record self.old { items = self.old.items ++ (size, value) ∷ [] }) }
        ensures unchanged { OnErr result (self.new ≡ self.old) }
        ensures share { MatchBool (nat_lt LINK_SHARE_BYTES (size_of self.old.items + size))
            (result ≡ Err Full) (OnErr result (result ≡ Err Memory)) }
    {
        if size > LINK_SHARE_BYTES - self.size {
            return Err(Refusal::Full);
        }
        if self.items.push_back((size, value)).is_err() {
            return Err(Refusal::Memory);
        }
        self.size += size;
        Ok(())
    }

    /// Takes the oldest value, where that may be taken, and lowers what is left of the allowance.
    pub(crate) fn take(&mut self) -> Option<T>
        ensures taken { IfSome result (λ value. (size : ℕ) × (rest : List (ℕ × T))
            × (self.old.items ≡ (size, value) ∷ rest) × (self.new ≡ after_one self.old size rest)) }
        ensures ready { is_some result ≡ is_ready self.old }
        ensures unchanged { IfNone result (self.new ≡ self.old) }
    {
        if !self.is_ready() {
            return None;
        }
        let (size, value) = self.items.pop_front()?;
        self.size -= size;
        self.count_left -= 1;
        self.size_left = self.size_left.saturating_sub(size);
        Some(value)
    }

    /// So much less is left of the allowance.
    pub(crate) fn charge(&mut self, count: usize, size: usize)
        ensures { self.new ≡ charged count size self.old }
    {
        self.count_left = self.count_left.saturating_sub(count);
        self.size_left = self.size_left.saturating_sub(size);
    }

    /// The whole allowance is left again.
    pub(crate) fn refill(&mut self, allowed: Allowance)
        ensures { self.new ≡ refilled allowed self.old }
    {
        self.count_left = allowed.count;
        self.size_left = allowed.size;
    }
}
