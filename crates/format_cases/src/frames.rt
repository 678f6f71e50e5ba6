//! Reads frames and prints what they are: each line is a case, or a whole row of them.
//!
//! A line is `FAULTS CLIENTS whole BYTES`: the sizes, and bytes. Printed is the number of the
//! refusal, where there are no such sizes or the bytes are no frame at them, and else what `show`
//! says of the frame, and `again` where the same bytes are written of what was read, behind the
//! mark of version 2 where they had none, or `DIFFERENT`. Of `FAULTS CLIENTS version BYTES` it is
//! the version that they tell, or `none`. Of `FAULTS CLIENTS cuts BYTES` each proper beginning of the bytes is such a case,
//! and of `FAULTS CLIENTS changes BYTES MASK` the bytes with each byte in turn changed by exclusive
//! or with the mask: printed are how many were refused, were frames and were written again, and the
//! first half of the SHA-256 digest of what would be printed of all of them, line by line.
//!
//! Bytes are hexadecimal, or parts with `+` between them, of which a part `HH*COUNT` is one byte so
//! many times.

mod again;
mod bytes;
mod row;
mod show;

use crate::frames::again::is_written_again;
use crate::frames::bytes::{parse_byte, parse_bytes};
use crate::frames::row::Row;
use crate::frames::show::Line;
use anyhow::{Result, bail};
use frames_view::{read, version};
use ids::{Config, Fault};
use std::alloc::Global;

/// What bytes are to a reader of frames, and to the writers.
#[derive(Clone, Copy)]
pub(crate) enum Outcome {
    Refused,
    Again,
    Different,
}

/// Tells what the bytes are at these sizes.
fn tell_bytes(config: &Config, bytes: &[u8], line: &mut Line) -> Result<Outcome> {
    let frame = match read(config, bytes) {
        Ok(frame) => frame,
        Err(refusal) => {
            let fault: Fault = refusal.into();
            line.refusal(fault)?;
            return Ok(Outcome::Refused);
        }
    };
    line.frame(&frame)?;
    if is_written_again(line.alloc(), &frame, bytes)? {
        line.word(" again")?;
        return Ok(Outcome::Again);
    }
    line.word(" DIFFERENT")?;
    Ok(Outcome::Different)
}

/// A case of a row.
fn add_case(alloc: Global, config: &Config, bytes: &[u8], row: &mut Row) -> Result<()> {
    let mut line = Line::new(alloc);
    let outcome = tell_bytes(config, bytes, &mut line)?;
    row.add(outcome, &line.into_text());
    Ok(())
}

/// Each proper beginning of the bytes.
fn cuts(alloc: Global, config: &Config, bytes: &[u8]) -> Result<Row> {
    let mut row = Row::new();
    for len in 0..bytes.len() {
        add_case(alloc, config, &bytes[..len], &mut row)?;
    }
    Ok(row)
}

/// The bytes with each byte in turn changed.
fn changes(alloc: Global, config: &Config, bytes: &mut Vec<u8>, mask: u8) -> Result<Row> {
    let mut row = Row::new();
    for place in 0..bytes.len() {
        if let Some(byte) = bytes.get_mut(place) {
            *byte ^= mask;
        }
        add_case(alloc, config, bytes, &mut row)?;
        if let Some(byte) = bytes.get_mut(place) {
            *byte ^= mask;
        }
    }
    Ok(row)
}

/// The version that the bytes tell.
fn version_told(alloc: Global, bytes: &[u8]) -> Result<String> {
    match version(bytes) {
        Some(number) => Ok(format!(in alloc; "{number}")?),
        None => Ok(String::from_str(alloc, "none")?),
    }
}

/// What is asked of a line's bytes.
fn answer(alloc: Global, config: &Config, ask: &str, fields: [&str; 2]) -> Result<String> {
    let [digits, mask] = fields;
    let mut bytes = parse_bytes(alloc, digits)?;
    match ask {
        "whole" => {
            let mut line = Line::new(alloc);
            tell_bytes(config, &bytes, &mut line)?;
            Ok(line.into_text())
        }
        "version" => version_told(alloc, &bytes),
        "cuts" => cuts(alloc, config, &bytes)?.told(alloc),
        "changes" => { changes(alloc, config, &mut bytes, parse_byte(mask)?)?.told(alloc) }
        _ => bail!("no such case: {ask}"),
    }
}

/// What is printed of a case.
pub(crate) fn case_told(alloc: Global, case: &str) -> Result<String> {
    let mut fields = case.split(' ');
    let faults: u8 = fields.next().unwrap_or("").parse()?;
    let clients: u8 = fields.next().unwrap_or("").parse()?;
    let ask = fields.next().unwrap_or("");
    let rest = [fields.next().unwrap_or(""), fields.next().unwrap_or("")];
    match Config::new(faults, clients) {
        Ok(config) => answer(alloc, &config, ask, rest),
        Err(fault) => {
            let mut line = Line::new(alloc);
            line.refusal(fault)?;
            Ok(line.into_text())
        }
    }
}
