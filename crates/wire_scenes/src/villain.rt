//! What bad peers do at a replica's door and on its links, by plain sockets.

ghost use Rattle.std.specs.Prelude.{◌≤◌};

use crate::counts::numbered;
use crate::stations::endpoint;
use anyhow::{Context, Result, bail};
use handshake::{AskBytes, Endpoint, GreetingBytes, Nonce};
use ids::{Config, PartyId};
use std::alloc::Global;
use std::io::{ErrorKind, Read, Write};
use std::net::{Net, Shutdown, SocketAddr, TcpStream};
use std::thread;
use std::time::{Clock, Duration};
use wire_frames::put;

/// Who is at whose door.
const VILLAIN: PartyId = PartyId(3);

const VICTIM: PartyId = PartyId(0);

/// A villain before a replica's door.
#[derive(Drop)]
pub(crate) struct Villain<'a, R> {
    pub(crate) rt: &'a R,
    pub(crate) at: SocketAddr,
}

/// A connection, and the ask that is right on it.
#[derive(Drop)]
pub(crate) struct Visit {
    pub(crate) stream: TcpStream,
    pub(crate) ask: AskBytes,
}

/// Whether the other end closes a connection before a read has to wait for ten seconds.
pub(crate) fn is_closed(stream: &TcpStream) -> Result<bool> {
    stream.set_read_timeout(Some(Duration::from_secs(10)))?;
    let mut piece = [0; 4096];
    for _ in 0..1_000_000 {
        match (&mut &*stream).read(&mut piece) {
            Ok(0) => return Ok(true),
            Ok(_) => {}
            Err(error) => return Ok(!matches!(
                error.kind(),
                ErrorKind::WouldBlock | ErrorKind::TimedOut
            )),
        }
    }
    Ok(false)
}

impl<R: AllocGlobal + Clock + Net<Stream = TcpStream>> Villain<'_, R> {
    fn alloc(&self) -> Global {
        self.rt.alloc()
    }

    /// A connection, and how the other end greets on it.
    pub(crate) fn greeted(&self) -> Result<(TcpStream, GreetingBytes)> {
        let stream = TcpStream::connect(self.rt, self.at)?;
        let mut greeting = [0; 29];
        (&mut &stream).read_exact(&mut greeting)?;
        Ok((stream, greeting))
    }

    /// A connection on which this endpoint may ask.
    fn visit(&self, endpoint: &Endpoint) -> Result<Visit> {
        let (stream, greeting) = self.greeted()?;
        let Ok(dialling) = endpoint.dial(VICTIM, &greeting, Nonce([7; 16])) else {
            bail!("no key");
        };
        let ask = dialling.ask();
        Ok(Visit { stream, ask })
    }

    /// One on which it asked.
    fn asked(&self, endpoint: &Endpoint) -> Result<Visit> {
        let visit = self.visit(endpoint)?;
        (&mut &visit.stream).write_all(&visit.ask)?;
        Ok(visit)
    }

    /// The party that it is, with its own keys, at the right sizes.
    fn itself(&self) -> Result<Endpoint> {
        endpoint(self.alloc(), VILLAIN, 2, 0)
    }

    /// A link as the party that it is.
    pub(crate) fn link(&self) -> Result<Visit> {
        let visit = self.asked(&self.itself()?)?;
        let mut answer = [0; 48];
        (&mut &visit.stream).read_exact(&mut answer)?;
        Ok(visit)
    }

    /// Its frames of these numbers as they go over a wire.
    pub(crate) fn frames(&self, first: u64, end: u64) -> Result<Vec<u8>> {
        let config = Config::new(1, 2)?;
        let mut bytes = Vec::new(self.alloc());
        for number in first..end {
            put(
                &config,
                &numbered(self.alloc(), VILLAIN, number)?,
                &mut bytes,
            )?;
        }
        Ok(bytes)
    }

    /// Asks as another party, with a key of its own making. Whether that is closed.
    pub(crate) fn takes_a_number(&self) -> Result<bool> {
        let visit = self.asked(&endpoint(self.alloc(), PartyId(1), 2, 9)?)?;
        is_closed(&visit.stream)
    }

    /// Asks at other sizes.
    pub(crate) fn has_other_sizes(&self) -> Result<bool> {
        let visit = self.asked(&endpoint(self.alloc(), VILLAIN, 3, 0)?)?;
        is_closed(&visit.stream)
    }

    /// Says an old ask again, and an old stream behind it.
    pub(crate) fn plays_again(&self, old: &Visit) -> Result<bool> {
        let (stream, _greeting) = self.greeted()?;
        (&mut &stream).write_all(&old.ask)?;
        let _ = (&mut &stream).write_all(&self.frames(0, 3)?);
        is_closed(&stream)
    }

    /// Asks in two pieces, cut at this place. Whether that is answered.
    pub(crate) fn asks_in_two(&self, cut: usize) -> Result<bool>
        requires { cut ≤ 100 }
    {
        let visit = self.visit(&self.itself()?)?;
        visit.stream.set_nodelay(true)?;
        let (first, second) = (&visit.ask[..cut], &visit.ask[cut..]);
        (&mut &visit.stream).write_all(first)?;
        thread::sleep(self.rt, Duration::from_millis(5));
        (&mut &visit.stream).write_all(second)?;
        let mut answer = [0; 48];
        Ok((&mut &visit.stream).read_exact(&mut answer).is_ok())
    }

    /// Asks only up to this place, and says no more. Whether that is closed.
    pub(crate) fn asks_in_part(&self, cut: usize) -> Result<bool>
        requires { cut ≤ 100 }
    {
        let visit = self.visit(&self.itself()?)?;
        (&mut &visit.stream).write_all(&visit.ask[..cut])?;
        visit.stream.shutdown(Shutdown::Write)?;
        is_closed(&visit.stream)
    }

    /// Says a byte of its ask now and then.
    pub(crate) fn trickles(&self) -> Result<bool> {
        let (stream, _greeting) = self.greeted()?;
        for _ in 0..20 {
            thread::sleep(self.rt, Duration::from_millis(100));
            if (&mut &stream).write_all(&[0]).is_err() {
                return Ok(true);
            }
        }
        is_closed(&stream)
    }

    /// Tells a length that no item has.
    pub(crate) fn tells_no_length(&self) -> Result<bool> {
        let visit = self.link()?;
        (&mut &visit.stream).write_all(&[255; 4])?;
        is_closed(&visit.stream)
    }

    /// Has a link, and sends its next frames.
    pub(crate) fn comes_again(&self) -> Result<Visit> {
        let visit = self.link()?;
        let _ = (&mut &visit.stream).write_all(&self.frames(3, 6)?);
        Ok(visit)
    }

    /// Has a link, and sends its next frame a byte at a time.
    pub(crate) fn sends_by_bytes(&self) -> Result<Visit> {
        let visit = self.link()?;
        visit.stream.set_nodelay(true)?;
        for byte in self.frames(6, 7)? {
            (&mut &visit.stream).write_all(&[byte])?;
            thread::sleep(self.rt, Duration::from_millis(50));
        }
        Ok(visit)
    }

    /// Sends half a frame, and falls silent.
    pub(crate) fn sends_a_half(&self) -> Result<bool> {
        let visit = self.link()?;
        (&mut &visit.stream).write_all(&[0, 0, 1, 0, 5, 5])?;
        is_closed(&visit.stream)
    }

    /// So many connections that say nothing.
    pub(crate) fn crowd(&self, count: usize) -> Result<Vec<TcpStream>> {
        let mut crowd = Vec::new(self.alloc());
        for _ in 0..count {
            crowd.push(TcpStream::connect(self.rt, self.at)?)?;
        }
        Ok(crowd)
    }

    /// Sends frames by the million, and no longer than they move. How many bytes moved.
    pub(crate) fn floods(&self, visit: &Visit) -> Result<u64> {
        visit
            .stream
            .set_write_timeout(Some(Duration::from_millis(300)))?;
        let piece = self.frames(7, 1007)?;
        let mut moved: u64 = 0;
        for _ in 0..1000 {
            match (&mut &visit.stream).write(&piece) {
                Ok(count) => moved = moved.saturating_add(count as u64),
                Err(_) => break,
            }
        }
        Ok(moved)
    }
}
