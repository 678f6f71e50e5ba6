//! The bytes of a line.

use anyhow::Result;
use hex::FromHex;
use std::alloc::Global;

/// The byte that two digits spell.
pub(crate) fn parse_byte(digits: &str) -> Result<u8> {
    let [byte] = <[u8; 1] as FromHex>::from_hex(digits)?;
    Ok(byte)
}

/// The bytes that a field spells: hexadecimal, or parts with `+` between them, of which a part
/// `HH*COUNT` is one byte so many times.
pub(crate) fn parse_bytes(alloc: Global, field: &str) -> Result<Vec<u8>> {
    let mut bytes = Vec::new(alloc);
    for part in field.split('+') {
        match part.split_once('*') {
            Some((digits, count)) => {
                let many = vec![in alloc; parse_byte(digits)?; count.parse::<usize>()?]?;
                bytes.extend_from_slice(&many)?;
            }
            None => bytes.extend_from_slice(&hex::decode(alloc, part)?)?,
        }
    }
    Ok(bytes)
}
