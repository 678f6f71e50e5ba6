//! A front with two seats, each of which answers with its number.

use crate::fronts::{note, tell_end};
use anyhow::Result;
use connection::Service;
use ids::Fault;
use log::Log;
use mc_lines::CanonicalText;
use std::alloc::Global;
use std::net::{Net, SocketAddr, TcpListener, TcpStream};
use std::sync::Wait;
use std::thread::{Threads, join};
use std::time::Clock;
use tcp_front::{Seat, Seats, front};

/// How many connections are made.
const CONNECTIONS: u64 = 5;

/// Answers each request with a number.
#[derive(Drop)]
struct Numbered {
    alloc: Global,
    number: u8,
}

impl Service for Numbered {
    ghost use Rattle.std.specs.Prelude.{◌≡◌};

    ghost answers = { λ old payload answer new. new ≡ old };

    fn call(&mut self, _payload: &CanonicalText<'_>, text: &mut Vec<u8>) -> Result<(), Fault> {
        let number = self.number;
        let line = format!(in self.alloc; "{number}\r\n")?;
        text.extend_from_slice(line.as_bytes())?;
        Ok(())
    }
}

impl Seat for Numbered {
    ghost use Rattle.std.specs.Prelude.{false};

    ghost lost = { λ seat. false };

    fn is_lost(&self) -> bool {
        false
    }

    fn try_again(&mut self) -> bool {
        true
    }
}

/// Seats of the numbers 0 and 1.
fn two_seats(alloc: Global) -> Result<Seats<Numbered>> {
    let mut seats = Vec::new(alloc);
    for number in 0..2 {
        seats.push(Numbered { alloc, number })?;
    }
    Ok(Seats::new(alloc, seats)?)
}

/// Ends a connection, and waits until the server has: its seat is free then.
fn leave(alloc: Global, stream: &TcpStream, read: &mut Vec<String>) -> Result<()> {
    note(alloc, stream, "quit\r\n", read)
}

/// What clients read: two at once, a third, and then one in each place that was left, the second first.
fn clients<R: Net<Stream = TcpStream> + AllocGlobal>(
    rt: &R,
    at: SocketAddr,
) -> Result<Vec<String>> {
    let alloc = rt.alloc();
    let mut read = Vec::new(alloc);
    let first = TcpStream::connect(rt, at)?;
    note(alloc, &first, "get a\r\n", &mut read)?;
    let second = TcpStream::connect(rt, at)?;
    note(alloc, &second, "get a\r\n", &mut read)?;
    let third = TcpStream::connect(rt, at)?;
    note(alloc, &third, "", &mut read)?;
    leave(alloc, &second, &mut read)?;
    let fourth = TcpStream::connect(rt, at)?;
    note(alloc, &fourth, "get a\r\n", &mut read)?;
    leave(alloc, &first, &mut read)?;
    let fifth = TcpStream::connect(rt, at)?;
    note(alloc, &fifth, "get a\r\n", &mut read)?;
    Ok(read)
}

/// Serves five clients at two seats.
pub(crate) fn seated_scene<R>(rt: &R) -> Result<()>
where
    R: Threads + Wait + Clock + Sync + AllocGlobal + Print + Log,
    R: Net<Listener = TcpListener, Stream = TcpStream>,
{
    let listener = TcpListener::bind(rt, "127.0.0.1:0")?;
    let at = listener.local_addr()?;
    let seats = two_seats(rt.alloc())?;
    let seats = &seats;
    let (served, read) = join(
        rt,
        || front(rt, &listener, seats, CONNECTIONS),
        || clients(rt, at),
    );
    tell_end(rt, served, read)
}
