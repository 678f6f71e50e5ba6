//! A connection whose other side waits: it sends its next request only when it has seen the answers
//! to all before.

use crate::connections::devices::Stored;
use crate::connections::serving::in_words;
use connection::{Counted, serve};
use std::alloc::Global;
use std::cell::Cell;
use std::io;
use std::io::{Read, Write};

/// The bytes of a request that is sent, as `get a`, and of its answer.
const REQUEST: usize = 7;

const ANSWER: usize = 8;

/// Gives one request in each read, and hangs up where an answer is owed.
#[derive(Drop)]
struct Patient<'a> {
    text: &'a [u8],
    owed: usize,
    seen: &'a Cell<usize>,
}

impl Read for Patient<'_> {
    fn read(&mut self, buf: &mut [u8]) -> io::Result<usize> {
        if self.seen.get() < self.owed {
            return Ok(0);
        }
        let n = REQUEST.min(buf.len()).min(self.text.len());
        buf[..n].copy_from_slice(&self.text[..n]);
        self.text = &self.text[n..];
        self.owed = self.owed.wrapping_add(ANSWER);
        Ok(n)
    }
}

/// Keeps what is written to itself until it is flushed.
#[derive(Drop)]
struct Lazy<'a> {
    kept: usize,
    seen: &'a Cell<usize>,
}

impl Write for Lazy<'_> {
    fn write(&mut self, buf: &[u8]) -> io::Result<usize> {
        self.kept = self.kept.wrapping_add(buf.len());
        Ok(buf.len())
    }

    fn flush(&mut self) -> io::Result<()> {
        self.seen.set(self.seen.get().wrapping_add(self.kept));
        self.kept = 0;
        Ok(())
    }
}

/// What such a connection comes to: where texts were held back, it would end after the first request.
pub fn holds_texts_back(alloc: Global, text: &[u8]) -> anyhow::Result<String> {
    let seen = Cell::new(0);
    let mut reader = Counted::new(Patient {
        text,
        owed: 0,
        seen: &seen,
    });
    let mut writer = Counted::new(Lazy {
        kept: 0,
        seen: &seen,
    });
    let mut service = Stored::new(alloc, 0);
    let end = serve(alloc, &mut reader, &mut writer, &mut service);
    let end = in_words(alloc, end)?;
    Ok(format!(in alloc; "{end}, {} calls, {} bytes seen", service.calls, seen.get())?)
}
