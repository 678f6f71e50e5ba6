ghost use Rattle.std.specs.Prelude.{◌≡◌, ◌<◌, Bool, false, true, length, not, IfNone, IfOk, IfSome, OnErr, Err};
ghost use Rattle.ids.specs.declared.fault.Fault.TheVariants.{Memory};

use crate::slot::Slot;
use client_service::{ClientService, Link};
use connection::Service;
use ids::Fault;
use std::alloc::Global;
use std::marker::Model;
use std::sync::Wait;
use std::sync::atomic::Ordering::SeqCst;
use std::sync::atomic::{AtomicBool, AtomicU64};

/// A service that can serve one connection after the other.
pub trait Seat: Service {
    // whether it can serve no further connection
    ghost lost: { Self → Bool };

    /// Whether it can serve no further connection.
    fn is_lost(&self) -> bool
        ensures { result ≡ lost self.now };

    /// Tries once more to be of use. Whether it is.
    fn try_again(&mut self) -> bool
        ensures { result ≡ not (lost self.new) };
}

/// It is lost while a request is outstanding that was given up: it may still be executed. It tries again by asking for
/// that request's receipt.
impl<L: Link> Seat for ClientService<L> {
    ghost lost = { λ service. service.session.session.waiting };

    fn is_lost(&self) -> bool {
        self.is_waiting()
    }

    fn try_again(&mut self) -> bool {
        if self.is_waiting() {
            let _receipt = self.ask_again();
        }
        !self.is_waiting()
    }
}

/// A seat that a connection has taken, and its number.
#[derive(Drop)]
pub(crate) struct Taken<S> {
    pub(crate) number: usize,
    pub(crate) seat: S,
}

/// The seats of a server, which its threads share by reference: contracts see them as they were made, in their
/// order.
///
/// Each is free, or a connection has it, or it is lost and tries again. Which, lies under its lock.
#[derive(Drop)]
pub struct Seats<S> {
    /// By number. A free one stands in its slot.
    slots: Vec<Slot<S>>,
    /// How many are taken now.
    taken: AtomicU64,
    is_closed: AtomicBool,
    /// Whether no further connection is accepted.
    is_over: AtomicBool,
}

impl<S> Model for Seats<S> {
    ghost use Rattle.std.specs.Prelude.{List, length, vec_len, ◌≡◌};
    ghost use Rattle.std.specs.List.{flat_map};

    ghost Value = { List S };

    ghost view = { λ seats. flat_map (λ slot. slot) seats.slots.items };

    ghost invariant = { λ seats. length (flat_map (λ slot. slot) seats.slots.items) ≡ vec_len seats.slots };
}

impl<S: Drop> Seats<S> {
    /// These seats, all free. Refused for want of memory alone.
    pub fn new(alloc: Global, seats: Vec<S>) -> Result<Seats<S>, Fault>
        ensures all { IfOk result (λ made. made ≡ seats.items) }
        ensures memory { OnErr result (result ≡ Err Memory) }
    {
        let mut slots = Vec::with_capacity(alloc, seats.len())?;
        for seat in seats {
            slots.push_reserved(Slot::new(seat));
        }
        Ok(Seats {
            slots,
            taken: AtomicU64::new(0),
            is_closed: AtomicBool::new(false),
            is_over: AtomicBool::new(false),
        })
    }

    /// How many seats there are, lost ones included.
    pub fn len(&self) -> usize
        ensures { result ≡ length self.now }
    {
        self.slots.len()
    }

    /// How many connections have a seat now.
    pub fn taken(&self) -> u64 {
        self.taken.load(SeqCst)
    }

    /// Whether they were closed.
    pub fn are_closed(&self) -> bool {
        self.is_closed.load(SeqCst)
    }

    /// Closes them: the front accepts no further connection, and each that there is ends.
    pub(crate) fn close(&self) {
        self.is_closed.store(true, SeqCst);
        self.end();
    }

    /// No further connection is accepted, and lost seats try no more.
    pub(crate) fn end(&self) {
        self.is_over.store(true, SeqCst);
    }

    /// Whether no further connection is accepted.
    pub(crate) fn are_over(&self) -> bool {
        self.is_over.load(SeqCst)
    }

    /// Takes the first free seat.
    pub(crate) fn take<R: Wait>(&self, rt: &R) -> Option<Taken<S>>
        ensures { IfSome result (λ taken. taken.number < length self.now) }
    {
        for (number, slot) in self.slots.iter().enumerate() {
            if let Some(seat) = slot.take(rt) {
                self.taken.fetch_add(1, SeqCst);
                return Some(Taken { number, seat });
            }
        }
        None
    }

    /// Frees a seat. One that is lost is handed back.
    pub(crate) fn free<R: Wait>(&self, rt: &R, taken: Taken<S>) -> Option<Taken<S>>
    where
        S: Seat,
        ensures lost { IfSome result (λ back. (back ≡ taken) × (S.lost taken.seat ≡ true)) }
        ensures freed { IfNone result (S.lost taken.seat ≡ false) }
    {
        if taken.seat.is_lost() {
            return Some(taken);
        }
        let Taken { number, seat } = taken;
        if let Some(slot) = self.slots.get(number) {
            slot.put(rt, seat);
        }
        None
    }

    /// A connection that had a seat has ended. The seat is free again before the connection is counted out; one that is
    /// lost is handed back.
    pub(crate) fn leave<R: Wait>(&self, rt: &R, taken: Taken<S>) -> Option<Taken<S>>
    where
        S: Seat,
        ensures lost { IfSome result (λ back. (back ≡ taken) × (S.lost taken.seat ≡ true)) }
        ensures freed { IfNone result (S.lost taken.seat ≡ false) }
    {
        let lost = self.free(rt, taken);
        self.taken.fetch_sub(1, SeqCst);
        lost
    }
}
