//! Frames that are checked, and votes that are collected, with the keys of a simulated world. A case may be a
//! whole row of them.
//!
//! It begins with the sizes, the number of the replica that receives, and what is asked; bytes
//! are hexadecimal. `hmac KEY TEXT` alone asks for HMAC-SHA-256 of a text: these are the
//! test cases of RFC 4231.
//!
//! - `FAULTS CLIENTS RECEIVER check FRAME`: what the check of a frame says, as `answers` tells it.
//! - `FAULTS CLIENTS RECEIVER changes MASK FRAME`: the same of the frame with each byte in turn
//!   changed by exclusive or with the mask: how often each first word was said, and the first half
//!   of the SHA-256 digest of all that would be printed, line by line.
//! - `FAULTS CLIENTS RECEIVER cuts FRAME`: the same counts and digest of what admission answers to each
//!   proper beginning of the frame, the shortest first.
//! - `FAULTS CLIENTS RECEIVER every-change FRAME`: of what it answers to the frame with one byte changed
//!   to any other value: the first byte first, by exclusive or with 1 to 255.
//! - `FAULTS CLIENTS RECEIVER votes FRAME ..`: votes, checked and collected one after the other, as
//!   `votes` tells it.
//! - `FAULTS CLIENTS PARTY vector LABEL CONTENT`: the tags of any party for all replicas.

mod admitted;
mod answers;
mod row;
mod votes;

use crate::check::admitted::{Spoiling, spoilt};
use crate::check::answers::check;
use crate::check::row::changes;
use crate::check::votes::votes;
use authenticators::hmac;
use ids::{Config, Fault, Kind, PartyId, ReplicaId};
use simulated_keys::keyring_of;
use std::alloc::Global;

/// Bytes in hexadecimal.
pub(crate) fn bytes_of(alloc: Global, digits: &str) -> Result<Vec<u8>, Fault> {
    hex::decode(alloc, digits).ok().ok_or(Fault::BadFields)
}

/// A number of a line.
fn number(digits: Option<&str>) -> Result<u16, Fault> {
    digits.unwrap_or("").parse().ok().ok_or(Fault::BadFields)
}

/// A number below 256.
fn small(digits: Option<&str>) -> Result<u8, Fault> {
    u8::try_from(number(digits)?).ok().ok_or(Fault::BadFields)
}

/// The kind of frame whose number this is.
fn kind_of(number: &str) -> Result<Kind, Fault> {
    Kind::from_number(small(Some(number))?).ok_or(Fault::BadFields)
}

/// A party's tags for all replicas.
fn vector(alloc: Global, config: Config, party: PartyId, rest: &str) -> Result<String, Fault> {
    let Some((label, digits)) = rest.split_once(' ') else {
        return Err(Fault::BadFields);
    };
    let ring = keyring_of(alloc, config, party)?;
    let mut tags = Vec::new(alloc);
    ring.vector(kind_of(label)?, &bytes_of(alloc, digits)?, &mut tags)?;
    Ok(hex::encode(alloc, &tags)?)
}

/// What is asked of a party.
fn answer(
    alloc: Global,
    config: Config,
    party: u16,
    ask: &str,
    rest: &str,
) -> Result<String, Fault> {
    if ask == "vector" {
        return vector(alloc, config, PartyId(party), rest);
    }
    if party >= u16::from(config.n()) {
        return Err(Fault::NoSuchParty);
    }
    let receiver = ReplicaId(party as u8);
    match ask {
        "check" => check(alloc, config, receiver, &bytes_of(alloc, rest)?),
        "changes" => changes(alloc, config, receiver, rest),
        "cuts" => spoilt(alloc, config, receiver, Spoiling::Cut, rest),
        "every-change" => spoilt(alloc, config, receiver, Spoiling::Change, rest),
        "votes" => votes(alloc, config, receiver, rest),
        _ => Err(Fault::BadFields),
    }
}

/// HMAC of a text under the key that stands before it.
fn hmac_of(alloc: Global, fields: &str) -> Result<String, Fault> {
    let Some((key, text)) = fields.split_once(' ') else {
        return Err(Fault::BadFields);
    };
    let digest = hmac(&bytes_of(alloc, key)?, &bytes_of(alloc, text)?);
    Ok(hex::encode(alloc, &digest)?)
}

/// What is told of a case.
pub(crate) fn tell(alloc: Global, input: &str) -> Result<String, Fault> {
    if let Some(fields) = input.strip_prefix("hmac ") {
        return hmac_of(alloc, fields);
    }
    let mut fields = input.splitn(5, ' ');
    let faults = small(fields.next())?;
    let clients = small(fields.next())?;
    let party = number(fields.next())?;
    let ask = fields.next().unwrap_or("");
    let rest = fields.next().unwrap_or("");
    match Config::new(faults, clients) {
        Ok(config) => answer(alloc, config, party, ask, rest),
        Err(fault) => Ok(format!(in alloc; "{}", fault.number())?),
    }
}
