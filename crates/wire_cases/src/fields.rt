//! Fields of lines, and bytes as these spell them and as they are told.
//!
//! A field of bytes is hexadecimal, or parts with `+` between them, of which a part `HH*COUNT` is one byte so many
//! times; `-` is no bytes. Of more than 64 bytes the length and the first half of the SHA-256 digest are told, with `:`
//! between them.

use anyhow::{Context, Result};
use hex::FromHex;
use sha2::{Digest, Sha256};
use std::alloc::Global;
use std::str::Split;

/// The most bytes that are told in full.
const MOST_TOLD: usize = 64;

/// The next field.
pub(crate) fn next<'a>(fields: &mut Split<'a, char>) -> Result<&'a str> {
    fields.next().context("a field lacks")
}

/// So many bytes, in hexadecimal.
pub(crate) fn array_of<const N: usize>(digits: &str) -> Result<[u8; N]> {
    Ok(<[u8; N] as FromHex>::from_hex(digits)?)
}

/// The bytes of a field.
pub(crate) fn bytes_of(alloc: Global, field: &str) -> Result<Vec<u8>> {
    let mut bytes = Vec::new(alloc);
    if field == "-" {
        return Ok(bytes);
    }
    for part in field.split('+') {
        match part.split_once('*') {
            Some((digits, count)) => {
                let [byte] = array_of::<1>(digits)?;
                bytes.extend_from_slice(&vec![in alloc; byte; count.parse::<usize>()?]?)?;
            }
            None => bytes.extend_from_slice(&hex::decode(alloc, part)?)?,
        }
    }
    Ok(bytes)
}

/// What is told of bytes.
pub(crate) fn told(alloc: Global, bytes: &[u8]) -> Result<String> {
    if bytes.is_empty() {
        return Ok(String::from_str(alloc, "-")?);
    }
    if bytes.len() <= MOST_TOLD {
        return Ok(hex::encode(alloc, bytes)?);
    }
    let digest = hex::encode(alloc, &Sha256::digest(bytes)[..16])?;
    Ok(format!(in alloc; "{}:{digest}", bytes.len())?)
}
