//! A reader that fails.

use std::io::{self, Read};

/// Gives these bytes, and then fails.
#[derive(Drop)]
pub(crate) struct Failing<'a>(pub(crate) &'a [u8]);

impl Read for Failing<'_> {
    fn read(&mut self, buf: &mut [u8]) -> io::Result<usize> {
        if self.0.is_empty() {
            return Err(io::Error::other("broken"));
        }
        self.0.read(buf)
    }
}
