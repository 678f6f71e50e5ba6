//! Runs the reader of request lines and the cache over cases, each a text in hexadecimal. Printed
//! are what is read at its beginning, whether the whole text is a canonical request (`DIFFERENT`
//! where it is one and is written otherwise), how many items stand in it, and the length and the
//! first 8 bytes of the SHA-256 digest of what a connection would be written, where a cache with
//! room for two keys answers; of `room N TEXT` one with room for N keys, or the number of the
//! refusal. Of `cuts TEXT` what is read at each proper beginning of the text is a case: printed are
//! how many there are, how many are unfinished, and the first 8 bytes of the digest of what would be
//! printed of all of them, line by line.

use anyhow::{Result, bail};
use cache::Cache;
use ids::{Fault, LineFault};
use mc_lines::{Read, fault_text, read_canonical, read_request, write_reply, write_request};
use sha2::{Digest, Sha256};
use std::alloc::Global;
use std::hash::RandomState;

/// What a connection is written, and how many items it had.
#[derive(Drop)]
struct Told {
    items: usize,
    text: Vec<u8>,
}

impl Told {
    /// Answers the first item of a text, if there is one, and gives what is to be read behind it.
    fn item<'a>(&mut self, cache: &mut Cache, text: &'a [u8]) -> Result<Option<&'a [u8]>, Fault> {
        let left = match read_request(text) {
            Read::Whole {
                request,
                used,
                noreply,
            } => {
                let reply = cache.apply(&request)?;
                if !noreply {
                    write_reply(&reply, &mut self.text)?;
                }
                Some(&text[used..])
            }
            Read::Bad { fault, used } => {
                self.text.extend_from_slice(fault_text(fault).as_bytes())?;
                match fault {
                    LineFault::UnknownName => Some(&text[used..]),
                    _ => None,
                }
            }
            Read::Quit { .. } => None,
            Read::More => return Ok(None),
        };
        self.items = self.items.wrapping_add(1);
        Ok(left)
    }
}

/// The items of a text up to the one that ends the connection, each answered by a cache with room
/// for so many keys.
fn tell(alloc: Global, hasher: RandomState, room: usize, bytes: &[u8]) -> Result<Told, Fault> {
    let mut cache = Cache::new(alloc, room, hasher)?;
    let mut told = Told {
        items: 0,
        text: Vec::new(alloc),
    };
    let mut rest = bytes;
    for _ in 0..bytes.len() {
        let Some(left) = told.item(&mut cache, rest)? else {
            break;
        };
        rest = left;
    }
    Ok(told)
}

/// What is read at the beginning of a text.
fn first(alloc: Global, bytes: &[u8]) -> Result<String, std::alloc::AllocError> {
    match read_request(bytes) {
        Read::Whole {
            used,
            noreply: true,
            ..
        } => format!(in alloc; "whole {used} noreply"),
        Read::Whole {
            used,
            noreply: false,
            ..
        } => format!(in alloc; "whole {used} reply"),
        Read::Quit { used } => format!(in alloc; "quit {used}"),
        Read::More => format!(in alloc; "more"),
        Read::Bad { fault, used } => {
            let fault: Fault = fault.into();
            format!(in alloc; "bad {} {used}", fault.number())
        }
    }
}

/// Whether a whole text is a canonical request, which is written as it was read.
fn canonical(alloc: Global, bytes: &[u8]) -> Result<&'static str> {
    let Some(request) = read_canonical(bytes) else {
        return Ok("not canonical");
    };
    let mut again = Vec::new(alloc);
    write_request(&request, &mut again)?;
    Ok(if again.as_slice() == bytes {
        "canonical"
    } else {
        "DIFFERENT"
    })
}

/// What is told of a text, where the cache has room for so many keys.
fn tell_text(alloc: Global, hasher: RandomState, room: usize, bytes: &[u8]) -> Result<String> {
    let told = match tell(alloc, hasher, room, bytes) {
        Ok(told) => told,
        Err(fault) => return Ok(format!(in alloc; "fault {}", fault.number())?),
    };
    let digest = Sha256::digest(&told.text);
    let start = hex::encode(alloc, &digest[..8])?;
    Ok(format!(in alloc;
        "{}, {}, {} items, {} bytes of text {start}",
        first(alloc, bytes)?,
        canonical(alloc, bytes)?,
        told.items,
        told.text.len(),
    )?)
}

/// What is told of a room and a text.
fn tell_in_room(alloc: Global, hasher: RandomState, case: &str) -> Result<String> {
    let Some((room, digits)) = case.split_once(' ') else {
        bail!("a room without a text");
    };
    tell_text(alloc, hasher, room.parse()?, &hex::decode(alloc, digits)?)
}

/// What is told of the proper beginnings of a text.
fn tell_cuts(alloc: Global, bytes: &[u8]) -> Result<String> {
    let mut told = Sha256::new();
    let mut unfinished: usize = 0;
    for len in 0..bytes.len() {
        let beginning = first(alloc, &bytes[..len])?;
        if beginning.as_str() == "more" {
            unfinished = unfinished.wrapping_add(1);
        }
        told.update(&beginning);
        told.update("\n");
    }
    let start = hex::encode(alloc, &told.finalize()[..8])?;
    Ok(format!(in alloc; "{} beginnings, {unfinished} more, {start}", bytes.len())?)
}

/// What is printed of a case.
pub(crate) fn case_told(alloc: Global, hasher: RandomState, case: &str) -> Result<String> {
    if let Some(digits) = case.strip_prefix("cuts ") {
        return tell_cuts(alloc, &hex::decode(alloc, digits)?);
    }
    match case.strip_prefix("room ") {
        Some(case) => tell_in_room(alloc, hasher, case),
        None => tell_text(alloc, hasher, 2, &hex::decode(alloc, case)?),
    }
}
