//! All links of one party.

use crate::beginning::{Beginning, millis_of};
use crate::other_sizes::OtherSizes;
use crate::pace::Pace;
use crate::slot::{PeerTerms, Slot};
use bytes::Bytes;
use handshake::{Endpoint, Nonce};
use ids::{Config, Fault, PartyId};
use std::net::{Shutdown, TcpListener, TcpStream};
use std::os::fd::OwnedFd;
use std::random::RandomSource;
use std::sync::atomic::Ordering::SeqCst;
use std::sync::atomic::{AtomicBool, AtomicU32};
use std::sync::{Mutex, Wait};
use std::time::Clock;
use wire_frames::longest_item;

/// Why a frame isn't on its way.
#[derive(Clone, Copy, Debug, PartialEq, Eq)]
pub enum NotSent {
    /// There is no such peer.
    NoSuchPeer,
    /// It is longer than any item at these sizes, or has no byte.
    BadLength,
    /// It was lost, as its outbox says.
    Lost(outbox::Refusal),
}

/// The links of one party to its peers. Threads share them by reference.
#[derive(Drop)]
pub struct Wires {
    pub(crate) endpoint: Endpoint,
    pub(crate) pace: Pace,
    pub(crate) slots: Vec<Slot>,
    /// A second handle of the listener's socket, if there is one. To shut that down wakes who waits for a connection.
    door: Option<TcpStream>,
    is_over: AtomicBool,
    began: Beginning,
    other_sizes: Mutex<OtherSizes>,
    /// One more than the party that came in a second life last; 0 where none did since that was asked for.
    other_life: AtomicU32,
}

/// A nonce that nobody can tell before.
pub(crate) fn new_nonce<R: RandomSource>(rt: &R) -> Option<Nonce> {
    let mut bytes = [0; 16];
    rt.fill_bytes(&mut bytes).ok()?;
    Some(Nonce(bytes))
}

/// What ends waiting at this listener. `AcceptFailed` where the system gives no second handle of it.
fn door_of(listener: Option<&TcpListener>) -> Result<Option<TcpStream>, Fault> {
    match listener {
        None => Ok(None),
        Some(listener) => match listener.try_clone() {
            Ok(listener) => Ok(Some(TcpStream::from(OwnedFd::from(listener)))),
            Err(_) => Err(Fault::AcceptFailed),
        },
    }
}

impl Wires {
    /// The links of a party to these peers, none of which is there yet. Where it is dialled it has a listener.
    ///
    /// `Memory` where memory was refused, `AcceptFailed` where the listener can't be had twice.
    pub fn new<R: AllocGlobal + Clock>(
        rt: &R,
        endpoint: Endpoint,
        pace: Pace,
        peers: &[PeerTerms],
        listener: Option<&TcpListener>,
    ) -> Result<Wires, Fault> {
        let door = door_of(listener)?;
        let bar = millis_of(pace.bar);
        let mut slots = Vec::new(rt.alloc());
        for terms in peers {
            slots.push(Slot::new(rt.alloc(), *terms, bar))?;
        }
        Ok(Wires {
            endpoint,
            pace,
            slots,
            door,
            is_over: AtomicBool::new(false),
            began: Beginning::new(rt),
            other_sizes: Mutex::new(OtherSizes::none()),
            other_life: AtomicU32::new(0),
        })
    }

    /// The sizes at which frames are read.
    pub(crate) fn config(&self) -> &Config {
        self.endpoint.config()
    }

    /// The place of a peer.
    pub(crate) fn slot(&self, party: PartyId) -> Option<&Slot> {
        self.slots.iter().find(|slot| slot.terms().party == party)
    }

    /// Sends a frame to a peer: it waits there for its turn, or is lost. The call waits for nobody but those that use
    /// that peer's place just then, none of whom waits for anything.
    pub fn send<R: Wait>(&self, rt: &R, to: PartyId, frame: Bytes) -> Result<(), NotSent> {
        let slot = self.slot(to).ok_or(NotSent::NoSuchPeer)?;
        if frame.is_empty() || frame.len() > longest_item(self.config()) {
            return Err(NotSent::BadLength);
        }
        slot.put(rt, frame).map_err(NotSent::Lost)
    }

    /// How many frames to a peer were lost here.
    pub fn lost<R: Wait>(&self, rt: &R, to: PartyId) -> u64 {
        self.slot(to).map_or(0, |slot| slot.lost(rt))
    }

    /// Whether there is a connection to a peer.
    pub fn is_linked<R: Wait>(&self, rt: &R, to: PartyId) -> bool {
        self.slot(to).is_some_and(|slot| slot.is_linked(rt))
    }

    /// Now, in milliseconds since the links were made.
    pub(crate) fn millis<R: Clock>(&self, rt: &R) -> u64 {
        self.began.millis(rt)
    }

    /// Which peers asked at other sizes by now ([`SizeWarning`](crate::SizeWarning) tells of it).
    pub fn other_sizes<R: Wait>(&self, rt: &R) -> OtherSizes {
        *self.other_sizes.lock(rt)
    }

    /// This one did.
    pub(crate) fn note_other_sizes<R: Wait>(&self, rt: &R, peer: PartyId) {
        self.other_sizes.lock(rt).note(peer);
    }

    /// Which replica came in a second life, since this was asked last, if one did: it is kept out. It came back without its
    /// memory, or is there twice.
    pub fn take_other_life(&self) -> Option<PartyId> {
        let party = self.other_life.swap(0, SeqCst).checked_sub(1)?;
        u16::try_from(party).ok().map(|party| PartyId(party))
    }

    /// This one did.
    pub(crate) fn note_other_life(&self, peer: PartyId) {
        self.other_life.store(u32::from(peer.0) + 1, SeqCst);
    }

    /// Whether all is told to end.
    pub(crate) fn are_over(&self) -> bool {
        self.is_over.load(SeqCst)
    }

    /// Ends all links, and all threads of `run`, which take what a dial or a handshake takes at most. What waits is
    /// lost.
    pub fn close<R: Wait>(&self, rt: &R) {
        self.is_over.store(true, SeqCst);
        if let Some(door) = &self.door {
            let _ = door.shutdown(Shutdown::Both);
        }
        for slot in self.slots.iter() {
            slot.close(rt);
        }
    }
}
