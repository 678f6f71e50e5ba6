//! A socket that ends at a moment, however it trickles.

ghost use Rattle.std.specs.Io.{ReadsAtMost, WritesAtMost};

use std::io;
use std::io::{Error, ErrorKind, Read, Write};
use std::net::TcpStream;
use std::time::{Clock, Duration, Instant};

/// A connection up to a moment: behind it each call fails.
#[derive(Drop)]
pub(crate) struct Timed<'a, R> {
    rt: &'a R,
    stream: &'a TcpStream,
    until: Instant,
}

impl<'a, R: Clock> Timed<'a, R> {
    pub(crate) fn new(rt: &'a R, stream: &'a TcpStream, until: Instant) -> Timed<'a, R> {
        Timed { rt, stream, until }
    }

    /// How long it is until the moment. It fails where that has come.
    fn left(&self) -> io::Result<Duration> {
        let left = self.until.duration_since(Instant::now(self.rt)?);
        if left.is_zero() {
            return Err(Error::from(ErrorKind::TimedOut));
        }
        Ok(left)
    }
}

impl<'a, R: Clock> Read for Timed<'a, R> {
    fn read(&mut self, buf: &mut [u8]) -> io::Result<usize> {
        self.stream.set_read_timeout(Some(self.left()?))?;
        (&mut &*self.stream).read(buf)
    }
}

impl<'a, R: Clock> Write for Timed<'a, R> {
    fn write(&mut self, buf: &[u8]) -> io::Result<usize> {
        self.stream.set_write_timeout(Some(self.left()?))?;
        (&mut &*self.stream).write(buf)
    }

    fn flush(&mut self) -> io::Result<()> {
        Ok(())
    }
}
