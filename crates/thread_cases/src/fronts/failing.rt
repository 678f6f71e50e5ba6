//! Connections that end by a failing read and by a failing write, because their client has gone.

use crate::fronts::{Lengths, note, one_seat, tell_end};
use anyhow::Result;
use connection::Service;
use ids::Fault;
use log::Log;
use mc_lines::CanonicalText;
use std::io::{Read, Write};
use std::net::{Net, SocketAddr, TcpListener, TcpStream};
use std::sync::Wait;
use std::sync::atomic::AtomicBool;
use std::sync::atomic::Ordering::SeqCst;
use std::thread::{Threads, join};
use std::time::Clock;
use tcp_front::{Seat, Seats, front};

/// How many connections are made.
const CONNECTIONS: u64 = 3;

/// What two threads wait for of each other.
#[derive(Drop)]
struct Signals {
    /// A `delete` was handed to the service.
    is_asked: AtomicBool,
    /// Its client has gone.
    is_gone: AtomicBool,
}

/// Waits for a signal. It comes from another thread.
fn wait_for(signal: &AtomicBool) {
    for _ in 0..u64::MAX {
        if signal.load(SeqCst) {
            break;
        }
    }
}

/// Answers each request with its length, and a `delete` only once its client has gone.
#[derive(Drop)]
struct Patient<'a> {
    lengths: Lengths,
    signals: &'a Signals,
}

impl Service for Patient<'_> {
    ghost use Rattle.std.specs.Prelude.{◌≡◌};

    ghost answers = { λ old payload answer new. new ≡ old };

    fn call(&mut self, payload: &CanonicalText<'_>, text: &mut Vec<u8>) -> Result<(), Fault> {
        if payload.as_slice().starts_with(b"delete") {
            self.signals.is_asked.store(true, SeqCst);
            wait_for(&self.signals.is_gone);
        }
        self.lengths.call(payload, text)
    }
}

impl Seat for Patient<'_> {
    ghost use Rattle.std.specs.Prelude.{false};

    ghost lost = { λ seat. false };

    fn is_lost(&self) -> bool {
        false
    }

    fn try_again(&mut self) -> bool {
        true
    }
}

/// A client that takes the first byte of an answer. When it goes, the system resets the connection, since the
/// rest wasn't read.
fn begin<R: Net<Stream = TcpStream>>(rt: &R, at: SocketAddr) -> Result<TcpStream> {
    let stream = TcpStream::connect(rt, at)?;
    let mut byte = [0];
    (&mut &stream).write_all(b"get a\r\n")?;
    (&mut &stream).read_exact(&mut byte)?;
    Ok(stream)
}

/// A client goes while its server waits for bytes.
fn go_while_it_reads<R: Net<Stream = TcpStream>>(rt: &R, at: SocketAddr) -> Result<()> {
    let _stream = begin(rt, at)?;
    Ok(())
}

/// A client goes while its server works on its request, the answer to which can't be written then.
fn go_before_it_writes<R: Net<Stream = TcpStream>>(
    rt: &R,
    at: SocketAddr,
    signals: &Signals,
) -> Result<()> {
    let stream = begin(rt, at)?;
    (&mut &stream).write_all(b"delete a\r\n")?;
    wait_for(&signals.is_asked);
    Ok(())
}

/// Waits until no connection has a seat.
fn wait_until_free<S: Drop>(seats: &Seats<S>) {
    for _ in 0..u64::MAX {
        if seats.taken() == 0 {
            break;
        }
    }
}

/// What the last of three clients reads, when the seat is free again.
fn clients<R: Net<Stream = TcpStream> + AllocGlobal, S: Drop>(
    rt: &R,
    at: SocketAddr,
    seats: &Seats<S>,
    signals: &Signals,
) -> Result<Vec<String>> {
    go_while_it_reads(rt, at)?;
    wait_until_free(seats);
    go_before_it_writes(rt, at, signals)?;
    signals.is_gone.store(true, SeqCst);
    wait_until_free(seats);
    let alloc = rt.alloc();
    let last = TcpStream::connect(rt, at)?;
    let mut read = Vec::new(alloc);
    note(alloc, &last, "get a\r\n", &mut read)?;
    note(alloc, &last, "quit\r\n", &mut read)?;
    Ok(read)
}

/// Serves three connections with one seat. The first ends by a failing read, and the second by a failing
/// write.
pub(crate) fn failing_scene<R>(rt: &R) -> Result<()>
where
    R: Threads + Wait + Clock + Sync + AllocGlobal + Print + Log,
    R: Net<Listener = TcpListener, Stream = TcpStream>,
{
    let listener = TcpListener::bind(rt, "127.0.0.1:0")?;
    let at = listener.local_addr()?;
    let signals = Signals {
        is_asked: AtomicBool::new(false),
        is_gone: AtomicBool::new(false),
    };
    let lengths = Lengths(rt.alloc());
    let signals = &signals;
    let seats = one_seat(rt.alloc(), Patient { lengths, signals })?;
    let seats = &seats;
    let (served, read) = join(
        rt,
        || front(rt, &listener, seats, CONNECTIONS),
        || clients(rt, at, seats, signals),
    );
    tell_end(rt, served, read)
}
