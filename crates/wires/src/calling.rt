//! How a peer is dialled, and how its frames come in.

use crate::arrivals::Arrivals;
use crate::backoff::Backoff;
use crate::link::Link;
use crate::meeting::meet;
use crate::receiving::receive;
use crate::slot::Slot;
use crate::timed::Timed;
use crate::wires::{Wires, new_nonce};
use connection::Counted;
use handshake::Peer;
use std::net::{Net, SocketAddr, TcpStream};
use std::random::RandomSource;
use std::sync::{Arc, Wait};
use std::time::{Clock, Duration, Instant};

/// Dials a peer, and names it by a handshake. None where that fails, or takes too long.
fn dial<R: Clock + RandomSource + Net<Stream = TcpStream>>(
    rt: &R,
    wires: &Wires,
    slot: &Slot,
    address: SocketAddr,
) -> Option<(Peer, TcpStream)> {
    let stream = TcpStream::connect_timeout(rt, &address, wires.pace.handshake).ok()?;
    let until = Instant::now(rt).ok()?.checked_add(wires.pace.handshake)?;
    let nonce = new_nonce(rt)?;
    let mut reader = Timed::new(rt, &stream, until);
    let mut writer = Timed::new(rt, &stream, until);
    let party = slot.terms().party;
    let met = meet(&wires.endpoint, party, nonce, &mut reader, &mut writer);
    let peer = met.ok()?;
    Some((peer, stream))
}

/// Dials a peer until it is there. None where all is told to end.
fn dial_until_there<R>(
    rt: &R,
    wires: &Wires,
    slot: &Slot,
    address: SocketAddr,
    backoff: &mut Backoff,
    number: u64,
) -> Option<Arc<Link>>
where
    R: Wait + Clock + AllocGlobal + RandomSource + Net<Stream = TcpStream>,
{
    for _ in rt.forever() {
        let barred = slot.barred_for(rt, wires.millis(rt));
        if !slot.pause(rt, backoff.pause().max(barred)) {
            break;
        }
        if let Some((peer, stream)) = dial(rt, wires, slot, address) {
            if slot.enter(rt, wires, peer, stream) {
                return slot.next_link(rt, number);
            }
        }
        backoff.ended(Duration::ZERO);
    }
    None
}

/// The next link of a peer: dialled by this end where it has the higher number, else as it comes.
fn next_link<R>(
    rt: &R,
    wires: &Wires,
    slot: &Slot,
    backoff: &mut Backoff,
    number: u64,
) -> Option<Arc<Link>>
where
    R: Wait + Clock + AllocGlobal + RandomSource + Net<Stream = TcpStream>,
{
    let terms = slot.terms();
    match terms.address {
        Some(address) if terms.party.0 < wires.endpoint.party().0 => {
            dial_until_there(rt, wires, slot, address, backoff, number)
        }
        _ => slot.next_link(rt, number),
    }
}

/// How long it is since a moment. As good as nothing where the clock can't be read.
fn since<R: Clock>(rt: &R, began: Option<Instant>) -> Duration {
    began
        .and_then(|began| began.elapsed(rt).ok())
        .unwrap_or(Duration::ZERO)
}

/// Reads what comes from a peer, over one link after the other, until all is told to end.
pub(crate) fn keep_reading<R, A>(rt: &R, wires: &Wires, slot: &Slot, mut rows: A)
where
    R: Wait + Clock + AllocGlobal + RandomSource + Net<Stream = TcpStream>,
    A: Arrivals + Drop,
{
    let mut backoff = Backoff::new(&wires.pace);
    let mut number = 0;
    for _ in rt.forever() {
        let Some(link) = next_link(rt, wires, slot, &mut backoff, number) else {
            break;
        };
        number = link.number;
        let began = Instant::now(rt).ok();
        let mut reader = Counted::new(&link.stream);
        let (config, is_over) = (wires.config(), &link.is_over);
        let end = receive(rt, config, &link.peer, &mut reader, &mut rows, is_over);
        slot.note_end(rt, end, wires.millis(rt));
        slot.leave(rt, &link);
        backoff.ended(since(rt, began));
    }
}
