//! Fronts with one seat or two, and their clients, in one process. What each client reads is printed.

mod failing;
mod seated;
mod silence;

use crate::fronts::failing::failing_scene;
use crate::fronts::seated::seated_scene;
use crate::fronts::silence::silent_scene;
use anyhow::{Result, bail};
use connection::Service;
use ids::Fault;
use log::Log;
use mc_lines::CanonicalText;
use std::alloc::Global;
use std::io::{Read, Write};
use std::net::{Net, SocketAddr, TcpListener, TcpStream};
use std::sync::Wait;
use std::thread::{Threads, join};
use std::time::Clock;
use tcp_front::{Seat, Seats, front};

/// How many connections are made.
const CONNECTIONS: u64 = 3;

/// Answers each request with its length.
#[derive(Drop)]
pub(crate) struct Lengths(pub(crate) Global);

impl Service for Lengths {
    ghost use Rattle.std.specs.Prelude.{◌≡◌};

    ghost answers = { λ old payload answer new. new ≡ old };

    fn call(&mut self, payload: &CanonicalText<'_>, text: &mut Vec<u8>) -> Result<(), Fault> {
        let length = payload.as_slice().len();
        let line = format!(in self.0; "{length}\r\n")?;
        text.extend_from_slice(line.as_bytes())?;
        Ok(())
    }
}

impl Seat for Lengths {
    ghost use Rattle.std.specs.Prelude.{false};

    ghost lost = { λ seat. false };

    fn is_lost(&self) -> bool {
        false
    }

    fn try_again(&mut self) -> bool {
        true
    }
}

/// Sends these words, and gives what comes back, to the end or as long as a piece.
pub(crate) fn ask(alloc: Global, stream: &TcpStream, words: &str) -> Result<String> {
    (&mut &*stream).write_all(words.as_bytes())?;
    let mut piece = [0; 256];
    let count = (&mut &*stream).read(&mut piece)?;
    Ok(String::from_utf8_lossy(alloc, &piece[..count])?)
}

/// Sends some words, and adds what comes back to what was read.
pub(crate) fn note(
    alloc: Global,
    stream: &TcpStream,
    words: &str,
    read: &mut Vec<String>,
) -> Result<()> {
    read.push(ask(alloc, stream, words)?)?;
    Ok(())
}

/// What two clients read: the second comes while the first is served.
fn two_clients<R: Net<Stream = TcpStream> + AllocGlobal>(
    rt: &R,
    at: SocketAddr,
    read: &mut Vec<String>,
) -> Result<()> {
    let alloc = rt.alloc();
    let first = TcpStream::connect(rt, at)?;
    note(alloc, &first, "get a\r\n", read)?;
    let second = TcpStream::connect(rt, at)?;
    note(alloc, &second, "get b\r\n", read)?;
    note(alloc, &first, "set a 0 0 1\r\nx\r\n", read)?;
    note(alloc, &first, "quit\r\n", read)
}

/// What three clients read: two side by side, and one after them.
fn clients<R: Net<Stream = TcpStream> + AllocGlobal>(
    rt: &R,
    at: SocketAddr,
) -> Result<Vec<String>> {
    let mut read = Vec::new(rt.alloc());
    two_clients(rt, at, &mut read)?;
    let third = TcpStream::connect(rt, at)?;
    note(rt.alloc(), &third, "touch a\r\n", &mut read)?;
    Ok(read)
}

/// The one seat of a front.
pub(crate) fn one_seat<S: Drop>(alloc: Global, seat: S) -> Result<Seats<S>> {
    let mut all = Vec::new(alloc);
    all.push(seat)?;
    Ok(Seats::new(alloc, all)?)
}

/// Prints what clients read.
pub(crate) fn tell<R: Print>(rt: &R, read: &[String]) -> Result<()> {
    for text in read {
        println!(rt; "{:?}", text.as_str())?;
    }
    Ok(())
}

/// How many connections a front served.
pub(crate) fn count_of(served: std::result::Result<u64, Fault>) -> Result<u64> {
    match served {
        Ok(count) => Ok(count),
        Err(fault) => bail!("fault {}", fault.number()),
    }
}

/// Prints what clients read, and how many connections a front served.
pub(crate) fn tell_end<R: Print>(
    rt: &R,
    served: std::result::Result<u64, Fault>,
    read: Result<Vec<String>>,
) -> Result<()> {
    tell(rt, &read?)?;
    println!(rt; "served {}", count_of(served)?)?;
    Ok(())
}

/// Serves three clients, of whom one comes while another has the seat.
fn usual_scene<R>(rt: &R) -> Result<()>
where
    R: Threads + Wait + Clock + Sync + AllocGlobal + Print + Log,
    R: Net<Listener = TcpListener, Stream = TcpStream>,
{
    let listener = TcpListener::bind(rt, "127.0.0.1:0")?;
    let at = listener.local_addr()?;
    let seats = one_seat(rt.alloc(), Lengths(rt.alloc()))?;
    let seats = &seats;
    let (served, read) = join(
        rt,
        || front(rt, &listener, seats, CONNECTIONS),
        || clients(rt, at),
    );
    tell_end(rt, served, read)
}

/// Plays all scenes.
pub(crate) fn play_all<R>(rt: &R) -> Result<()>
where
    R: Threads + Wait + Clock + Sync + Clone + Drop + AllocGlobal + Print + Log,
    R: Net<Listener = TcpListener, Stream = TcpStream>,
{
    usual_scene(rt)?;
    seated_scene(rt)?;
    failing_scene(rt)?;
    silent_scene(rt, true)?;
    silent_scene(rt, false)
}
