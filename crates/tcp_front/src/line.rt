//! A connection's socket, which ends with its server.

ghost use Rattle.std.specs.Prelude.{◌≡◌};
ghost use Rattle.std.specs.Io.{ReadsAtMost, WritesAtMost};

use crate::seats::Seats;
use std::io;
use std::io::{Error, ErrorKind, Read, Write};
use std::net::TcpStream;
use std::time::Duration;
use tuning::CLOSED_LOOK_MILLIS;

/// Lets no call at a connection wait for longer than until it is to be looked whether the seats were closed. Where the
/// system sets no limit, the connection ends with its peer alone.
pub(crate) fn limit_waiting(stream: &TcpStream) {
    let limit = Some(Duration::from_millis(CLOSED_LOOK_MILLIS));
    let _ = stream.set_read_timeout(limit);
    let _ = stream.set_write_timeout(limit);
}

/// One way of a connection, as long as its server's seats are open: the bytes that its device gives or takes, and no
/// others.
///
/// To read waits for bytes, and to write for room. Either fails where the seats were closed meanwhile.
#[derive(Drop)]
pub(crate) struct Line<'a, D, S> {
    device: D,
    seats: &'a Seats<S>,
}

impl<'a, D, S> Line<'a, D, S> {
    /// The line over this device.
    pub(crate) fn new(device: D, seats: &'a Seats<S>) -> Line<'a, D, S>
        ensures { result.device ≡ device }
    {
        Line { device, seats }
    }

    /// The device again.
    pub(crate) fn into_device(self) -> D
        ensures { result ≡ self.entry.device }
    {
        self.device
    }
}

/// Whether a call only waited for too long.
fn is_pause(error: &Error) -> bool {
    matches!(error.kind(), ErrorKind::WouldBlock | ErrorKind::TimedOut)
}

impl<'a, D: Read, S: Drop> Read for Line<'a, D, S> {
    ghost remaining = { λ line. D.remaining line.device };

    fn read(&mut self, buf: &mut [u8]) -> io::Result<usize> {
        for _ in 0..u64::MAX {
            match self.device.read(buf) {
                Err(error) if is_pause(&error) && !self.seats.are_closed() => {}
                answer => return answer,
            }
        }
        Err(ErrorKind::TimedOut.into())
    }
}

impl<'a, D: Write, S: Drop> Write for Line<'a, D, S> {
    ghost contents = { λ line. D.contents line.device };

    fn write(&mut self, buf: &[u8]) -> io::Result<usize> {
        for _ in 0..u64::MAX {
            match self.device.write(buf) {
                Err(error) if is_pause(&error) && !self.seats.are_closed() => {}
                answer => return answer,
            }
        }
        Err(ErrorKind::TimedOut.into())
    }

    fn flush(&mut self) -> io::Result<()> {
        self.device.flush()
    }
}
