//! Calls of an outbox. A line is `MOST CALL ..`: what may wait, and the calls, of which each is told.
//!
//! - `put=FRAME`: `kept`, or why not.
//! - `take=BYTES`: the frames that are taken, in `[` and `]`.
//! - `close` and `reopen`: themselves.
//! - `lost`: how many were lost. `empty`: whether nothing waits.

use crate::fields::{bytes_of, told};
use anyhow::{Result, bail};
use bytes::Bytes;
use outbox::{Outbox, Refusal};
use std::alloc::Global;

/// What comes of putting a frame.
fn put_told(alloc: Global, outbox: &mut Outbox, frame: &str) -> Result<&'static str> {
    let frame = Bytes::copy_from_slice(alloc, &bytes_of(alloc, frame)?)?;
    Ok(match outbox.put(frame) {
        Ok(()) => "kept",
        Err(Refusal::Closed) => "closed",
        Err(Refusal::Full) => "full",
        Err(Refusal::Memory) => "memory",
    })
}

/// The frames that are taken.
fn take_told(alloc: Global, outbox: &mut Outbox, most: usize) -> Result<String> {
    let mut batch = Vec::new(alloc);
    outbox.take(most, &mut batch)?;
    let mut text = String::from_str(alloc, "[")?;
    for frame in &batch {
        write!(text, " {}", told(alloc, frame.as_slice())?)?;
    }
    text.push_str(" ]")?;
    Ok(text)
}

/// What a call says.
fn call_told(alloc: Global, outbox: &mut Outbox, call: &str) -> Result<String> {
    match call.split_once('=') {
        Some(("put", frame)) => Ok(String::from_str(alloc, put_told(alloc, outbox, frame)?)?),
        Some(("take", most)) => take_told(alloc, outbox, most.parse()?),
        _ => {
            match call {
                "close" => outbox.close(),
                "reopen" => outbox.reopen(),
                "lost" => return Ok(format!(in alloc; "{}", outbox.lost())?),
                "empty" => return Ok(format!(in alloc; "{}", outbox.is_empty())?),
                _ => bail!("no such call: {call}"),
            }
            Ok(String::from_str(alloc, call)?)
        }
    }
}

/// What is printed of a case.
pub(crate) fn case_told(alloc: Global, case: &str) -> Result<String> {
    let (most, calls) = case.split_once(' ').unwrap_or((case, ""));
    let mut outbox = Outbox::new(alloc, most.parse()?);
    let mut text = String::from_str(alloc, "outbox")?;
    for call in calls.split(' ') {
        write!(text, " {}", call_told(alloc, &mut outbox, call)?)?;
    }
    Ok(text)
}
