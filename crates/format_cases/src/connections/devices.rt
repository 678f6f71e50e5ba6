ghost use Rattle.std.specs.Prelude.{⊤};

use connection::Service;
use ids::Fault;
use mc_lines::CanonicalText;
use std::alloc::Global;
use std::io;
use std::io::{ErrorKind, Read, Write};

/// When a device is interrupted and when it fails.
#[derive(Clone, Copy)]
struct Calls {
    made: u64,
    fails_at: u64,
    interrupts: bool,
    interrupted: bool,
}

impl Calls {
    fn new(fails_at: u64, interrupts: bool) -> Calls {
        Calls {
            made: 0,
            fails_at,
            interrupts,
            interrupted: false,
        }
    }

    /// Counts a call, and says whether it goes well.
    fn make(&mut self) -> io::Result<()> {
        if self.interrupts && !self.interrupted {
            self.interrupted = true;
            return Err(ErrorKind::Interrupted.into());
        }
        self.interrupted = false;
        self.made = self.made.wrapping_add(1);
        if self.made == self.fails_at {
            return Err(ErrorKind::Other.into());
        }
        Ok(())
    }
}

/// Gives a text, so many bytes in the first call and so many in each other one.
#[derive(Drop)]
pub struct Source<'a> {
    text: &'a [u8],
    next: usize,
    later: usize,
    calls: Calls,
}

impl<'a> Source<'a> {
    pub fn new(
        text: &'a [u8],
        first: usize,
        later: usize,
        fails_at: u64,
        interrupts: bool,
    ) -> Source<'a> {
        Source {
            text,
            next: first,
            later,
            calls: Calls::new(fails_at, interrupts),
        }
    }
}

impl Read for Source<'_> {
    fn read(&mut self, buf: &mut [u8]) -> io::Result<usize> {
        self.calls.make()?;
        let n = self.next.min(buf.len()).min(self.text.len());
        buf[..n].copy_from_slice(&self.text[..n]);
        self.text = &self.text[n..];
        self.next = self.later;
        Ok(n)
    }
}

/// Keeps what is written, and takes so many bytes in each call.
#[derive(Drop)]
pub struct Sink {
    pub written: Vec<u8>,
    step: usize,
    calls: Calls,
}

impl Sink {
    pub fn new(alloc: Global, step: usize, fails_at: u64, interrupts: bool) -> Sink {
        Sink {
            written: Vec::new(alloc),
            step,
            calls: Calls::new(fails_at, interrupts),
        }
    }
}

impl Write for Sink {
    fn write(&mut self, buf: &[u8]) -> io::Result<usize> {
        self.calls.make()?;
        let n = self.step.min(buf.len());
        match self.written.extend_from_slice(&buf[..n]) {
            Ok(()) => Ok(n),
            Err(_) => Err(ErrorKind::OutOfMemory.into()),
        }
    }

    fn flush(&mut self) -> io::Result<()> {
        Ok(())
    }
}

/// Answers each request with `STORED`, but refuses one of them, and keeps the payloads.
#[derive(Drop)]
pub struct Stored {
    pub payloads: Vec<u8>,
    pub calls: u64,
    refused: u64,
}

impl Stored {
    pub fn new(alloc: Global, refused: u64) -> Stored {
        Stored {
            payloads: Vec::new(alloc),
            calls: 0,
            refused,
        }
    }
}

impl Service for Stored {
    ghost answers = { λ _ _ _ _. ⊤ };

    fn call(&mut self, payload: &CanonicalText<'_>, text: &mut Vec<u8>) -> Result<(), Fault> {
        self.payloads.extend_from_slice(payload.as_slice())?;
        self.calls = self.calls.wrapping_add(1);
        text.extend_from_slice(b"STORED\r\n")?;
        if self.calls == self.refused {
            return Err(Fault::Busy);
        }
        Ok(())
    }
}
