//! Who comes in: connections are accepted, and belong to a peer once a handshake named it.

ghost use Rattle.std.specs.Prelude.{◌≤◌};

use crate::wires::{Wires, new_nonce};
use handshake::{AnswerBytes, AskBytes, Nonce, Peer, Refusal, greeting};
use std::alloc::Global;
use std::collections::VecDeque;
use std::io::{ErrorKind, Read, Write};
use std::net::{IpAddr, SocketAddr, TcpListener, TcpStream};
use std::random::RandomSource;
use std::sync::Wait;
use std::thread;
use std::time::{Clock, Duration, Instant};
use tuning::ROOM_LOOK_MILLIS;

/// A connection at its handshake. Its socket never waits.
#[derive(Drop)]
struct Guest {
    stream: TcpStream,
    /// Whose places it takes: the number of a named address, or of all strangers.
    class: usize,
    nonce: Nonce,
    ask: AskBytes,
    /// How much of its ask came.
    came: usize,
    /// When it has to be done.
    until: Instant,
    ghost within: { came ≤ 100 },
}

/// What came of a look at a guest.
enum Look {
    /// Its handshake isn't done.
    Waits(Guest),
    /// It goes.
    Goes,
    /// It is this peer.
    Comes(Peer, TcpStream),
}

/// What a read brought of an ask.
#[derive(Clone, Copy, PartialEq, Eq)]
enum Heard {
    /// It isn't whole.
    Part,
    /// It is whole.
    Whole,
    /// The other end is gone.
    End,
}

/// Whether a call only has to be made again.
fn is_pause(kind: ErrorKind) -> bool {
    matches!(kind, ErrorKind::WouldBlock | ErrorKind::Interrupted)
}

/// Writes a few bytes to a socket that never waits. False where they don't go out at once.
fn write_now(stream: &TcpStream, bytes: &[u8]) -> bool {
    match (&mut &*stream).write(bytes) {
        Ok(count) => count == bytes.len(),
        Err(_) => false,
    }
}

/// Answers who was named, as whose link the connection goes on.
fn answer(named: (Peer, AnswerBytes), stream: TcpStream) -> Look {
    let (peer, answer) = named;
    if write_now(&stream, &answer) {
        Look::Comes(peer, stream)
    } else {
        Look::Goes
    }
}

impl Guest {
    /// Reads what came of its ask.
    fn hear(&mut self) -> Heard {
        match (&mut &self.stream).read(&mut self.ask[self.came..]) {
            Ok(0) => Heard::End,
            Ok(count) => {
                self.came += count;
                if self.came < self.ask.len() {
                    Heard::Part
                } else {
                    Heard::Whole
                }
            }
            Err(error) if is_pause(error.kind()) => Heard::Part,
            Err(_) => Heard::End,
        }
    }

    /// Who it is, and answers it.
    fn judge<R: Wait>(self, rt: &R, wires: &Wires) -> Look {
        match wires.endpoint.admit(self.nonce, &self.ask) {
            Ok(named) => answer(named, self.stream),
            Err(refusal) => {
                if let Refusal::OtherSizes(peer) = refusal {
                    wires.note_other_sizes(rt, peer);
                }
                Look::Goes
            }
        }
    }

    /// Looks at it once.
    fn look<R: Wait>(mut self, rt: &R, wires: &Wires, now: Instant) -> Look {
        if now >= self.until {
            return Look::Goes;
        }
        match self.hear() {
            Heard::Part => Look::Waits(self),
            Heard::Whole => self.judge(rt, wires),
            Heard::End => Look::Goes,
        }
    }
}

/// Greets a connection that was just accepted. None where that fails.
fn greet<R: Clock + RandomSource>(
    rt: &R,
    wires: &Wires,
    stream: TcpStream,
    class: usize,
) -> Option<Guest> {
    let until = Instant::now(rt).ok()?.checked_add(wires.pace.handshake)?;
    let nonce = new_nonce(rt)?;
    stream.set_nonblocking(true).ok()?;
    if !write_now(&stream, &greeting(nonce)) {
        return None;
    }
    Some(Guest {
        stream,
        class,
        nonce,
        ask: [0; 100],
        came: 0,
        until,
    })
}

/// The connections at their handshakes, oldest first.
#[derive(Drop)]
struct Guests {
    guests: VecDeque<Guest>,
    /// How many of one class there may be.
    most: usize,
}

impl Guests {
    fn new(alloc: Global, most: usize) -> Guests {
        Guests {
            guests: VecDeque::new(alloc),
            most,
        }
    }

    /// How many there are of a class.
    fn count(&self, class: usize) -> usize {
        self.guests
            .iter()
            .filter(|guest| guest.class == class)
            .count()
    }

    /// Takes in one more. Where its class has all its places taken, the oldest of that class goes: nobody makes room for
    /// another class, and who says nothing makes room for who comes.
    fn add(&mut self, guest: Guest) {
        if self.count(guest.class) >= self.most {
            let oldest = self
                .guests
                .iter()
                .position(|other| other.class == guest.class);
            if let Some(place) = oldest {
                self.guests.remove(place);
            }
        }
        let _ = self.guests.push_back(guest);
    }

    /// Looks at each once. A peer that comes is put in its place. Whether one came or went.
    fn look<R: Wait + Clock + AllocGlobal>(&mut self, rt: &R, wires: &Wires) -> bool {
        let Ok(now) = Instant::now(rt) else {
            return false;
        };
        let mut has_moved = false;
        for _ in 0..self.guests.len() {
            let Some(guest) = self.guests.pop_front() else {
                break;
            };
            match guest.look(rt, wires, now) {
                Look::Waits(guest) => {
                    let _ = self.guests.push_back(guest);
                }
                Look::Goes => has_moved = true,
                Look::Comes(peer, stream) => {
                    has_moved = true;
                    let _ = come_in(rt, wires, peer, stream);
                }
            }
        }
        has_moved
    }
}

/// Puts a peer in its place. False where it has none.
fn come_in<R: Wait + Clock + AllocGlobal>(
    rt: &R,
    wires: &Wires,
    peer: Peer,
    stream: TcpStream,
) -> bool {
    match wires.slot(peer.party()) {
        Some(slot) => slot.enter(rt, wires, peer, stream),
        None => false,
    }
}

/// Whose places a connection from there takes.
fn class_of(wires: &Wires, from: IpAddr) -> usize {
    let is_there = |address: SocketAddr| address.ip() == from;
    wires
        .slots
        .iter()
        .position(|slot| slot.terms().address.is_some_and(is_there))
        .unwrap_or(wires.slots.len())
}

/// Accepts a connection, where one is there; where nobody is at a handshake, it waits for one. Whether one came.
fn accept<R: Clock + RandomSource>(
    rt: &R,
    wires: &Wires,
    listener: &TcpListener,
    guests: &mut Guests,
) -> bool {
    let _ = listener.set_nonblocking(!guests.guests.is_empty());
    match listener.accept() {
        Ok((stream, address)) => {
            let class = class_of(wires, address.ip());
            if let Some(guest) = greet(rt, wires, stream, class) {
                guests.add(guest);
            }
            true
        }
        Err(_) => false,
    }
}

/// Lets peers in until all is told to end. It waits for no guest: between two looks at all of them it accepts one more,
/// or pauses where nothing happened.
pub(crate) fn keep_door<R: Wait + Clock + AllocGlobal + RandomSource>(
    rt: &R,
    wires: &Wires,
    listener: &TcpListener,
) {
    let mut guests = Guests::new(rt.alloc(), wires.pace.places);
    for _ in rt.forever() {
        if wires.are_over() {
            break;
        }
        let came = accept(rt, wires, listener, &mut guests);
        let moved = guests.look(rt, wires);
        if !came && !moved {
            thread::sleep(rt, Duration::from_millis(ROOM_LOOK_MILLIS));
        }
    }
}
