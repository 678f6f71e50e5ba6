//! All rows, and whose turn it is.

ghost use Rattle.std.specs.Prelude.{◌≡◌, ◌+◌, ◌<◌, ◌≤◌, ℕ, length, IfOk, OnOk, OnErr, IfSome, IfNone, MatchBool, MatchOption, map, nat_lt, replicate};
ghost use Rattle.std.specs.Prelude.{set, slice_get};
ghost use Rattle.std.specs.Bool.{OnTrue, OnFalse};
ghost use Rattle.fair_queue.specs.Queues.{IsNext, NoneReady, Puts, Takes, charged, empty_row, ready_at, refilled, row_at, row_behind, waiting_in};
ghost use Rattle.tuning.specs.declared.links.TheConstants.{LINK_SHARE_BYTES};
ghost use Rattle.fair_queue.specs.declared.refusal.Refusal.TheVariants.{Full, Memory};

use crate::allowance::Allowance;
use crate::refusal::Refusal;
use crate::row::Row;
use std::alloc::{AllocError, Global};
use std::marker::Model;

/// Values of several senders that wait, each sender's in a row of its own.
#[derive(Drop)]
pub struct FairQueue<T> {
    rows: Vec<Row<T>>,
    turn: usize,
    allowed: Allowance,
}

impl<T> Model for FairQueue<T> {
    ghost use Rattle.std.specs.Prelude.{◌<◌, length};
    ghost use Rattle.fair_queue.specs.Queues as queues;

    ghost Value = { queues.Rows T };

    ghost view = { λ queue. record { rows = queue.rows.items; turn = queue.turn; allowed = queue.allowed } };

    ghost invariant = { λ queue. queue.turn < length queue.rows.items };
}

/// The row so many places behind the turn.
fn row_at(rows: usize, turn: usize, place: usize) -> usize
    requires turn { turn < rows }
    requires place { place < rows }
    ensures at { result ≡ row_at rows turn place }
    ensures within { result < rows }
{
    if turn < rows - place {
        turn + place
    } else {
        turn - (rows - place)
    }
}

/// The row behind one.
fn row_behind(rows: usize, number: usize) -> usize
    requires { number < rows }
    ensures behind { result ≡ row_behind rows number }
    ensures within { result < rows }
{
    if number < rows - 1 { number + 1 } else { 0 }
}

impl<T: Drop> FairQueue<T> {
    /// So many rows, with nothing in them, from each of which so much is allowed.
    pub fn new(alloc: Global, rows: usize, allowed: Allowance) -> Result<FairQueue<T>, AllocError>
        requires { 0 < rows }
        ensures { IfOk result (λ queue. queue
            ≡ record { rows = replicate rows (empty_row allowed); turn = 0; allowed = allowed }) }
    {
        let mut made = Vec::with_capacity(alloc, rows)?;
        for _ in 0..rows {
            made.push_reserved(Row::new(alloc, allowed));
        }
        Ok(FairQueue {
            rows: made,
            turn: 0,
            allowed,
        })
    }

    /// A value of this size more waits in the row of this number. It is refused with `Full` where with it more
    /// than the row's share would wait; then, and where memory is refused, nothing changes.
    pub fn put(&mut self, number: usize, size: usize, value: T) -> Result<(), Refusal>
        requires { number < length self.old.rows }
        ensures put { OnOk result (Puts self.old number size value self.new) }
        ensures unchanged { OnErr result (self.new ≡ self.old) }
        ensures share { MatchBool (nat_lt LINK_SHARE_BYTES (waiting_in self.old.rows number + size))
            (result ≡ Err Full) (OnErr result (result ≡ Err Memory)) }
    {
        self.rows[number].put(size, value)
    }

    /// Takes the oldest value of the first row, from the turn on, from which something may be taken. The turn is
    /// then that of the row behind it. None where nothing may be taken from any row.
    pub fn take(&mut self) -> Option<T>
        ensures taken { IfSome result (λ value. Takes self.old value self.new) }
        ensures none { IfNone result ((self.new ≡ self.old) × NoneReady self.old) }
    {
        let number = self.next()?;
        let value = self.rows[number].take()?;
        self.turn = row_behind(self.rows.len(), number);
        Some(value)
    }

    /// Whether something may be taken.
    pub fn is_ready(&self) -> bool
        ensures ready { OnTrue result ((number : ℕ) × (place : ℕ) × IsNext self.now number place) }
        ensures none { OnFalse result (NoneReady self.now) }
    {
        self.next().is_some()
    }

    /// From each row as much may be taken again as is allowed.
    pub fn refill(&mut self)
        ensures { self.new ≡ record self.old { rows = map (refilled self.old.allowed) self.old.rows } }
    {
        let allowed = self.allowed;
        for row in self.rows.iter_mut() {
            row.refill(allowed);
        }
    }

    /// So much less may be taken from the row of this number until the next refill. Where there is none, nothing changes.
    pub fn charge(&mut self, number: usize, count: usize, size: usize)
        ensures { MatchOption (slice_get self.old.rows number) (self.new ≡ self.old)
            (λ row. self.new ≡ record self.old { rows = set self.old.rows number (charged count size row) }) }
    {
        if number < self.rows.len() {
            self.rows[number].charge(count, size);
        }
    }

    /// How many rows there are.
    pub fn rows(&self) -> usize
        ensures { result ≡ length self.now.rows }
    {
        self.rows.len()
    }

    /// How much size waits in the row of this number.
    pub fn waiting_in(&self, number: usize) -> usize
        ensures { result ≡ waiting_in self.now.rows number }
    {
        match self.rows.get(number) {
            Some(row) => row.waiting(),
            None => 0,
        }
    }

    /// Whether something may be taken from the row of this number.
    pub fn is_ready_at(&self, number: usize) -> bool
        ensures { result ≡ ready_at self.now.rows number }
    {
        match self.rows.get(number) {
            Some(row) => row.is_ready(),
            None => false,
        }
    }

    /// The first row, from the turn on, from which something may be taken.
    fn next(&self) -> Option<usize>
        ensures next { IfSome result (λ number. (place : ℕ) × IsNext self.now number place) }
        ensures none { IfNone result (NoneReady self.now) }
    {
        let (rows, turn) = (self.rows.len(), self.turn);
        for place in 0..rows {
            let number = row_at(rows, turn, place);
            if self.is_ready_at(number) {
                return Some(number);
            }
        }
        None
    }
}
