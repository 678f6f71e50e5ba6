//! A kept replica that is stepped, with the keys of a simulated world.
//!
//! A case is `FAULTS CLIENTS REPLICA SHARES INPUT ..`: the sizes, the number of the replica, how
//! many shares are made of it, and its inputs. An input is one of
//!
//! - `SHARE:beat` and `SHARE:timeout`: the share of this number, from 0 on, brings a beat or a timeout;
//! - `SHARE:CHECKER:BYTES`: it brings a frame, in hexadecimal, that was checked with the keys of
//!   replica CHECKER.
//!
//! The share behind the last one is a share of another kept replica of the same number. Of each
//! input is told, behind the one before and with a comma between them: the number of its refusal,
//! or `ok` and the frames that go out, each with its length, where it goes, and the first 8 bytes
//! of its SHA-256 digest. At the end stand the count of each share, in brackets, and what closing
//! answers as `shares` tells it: how many steps stand, and where commands were executed, how many
//! they are and a digest of them.
//!
//! Where `alone` stands for SHARES, the inputs come to a replica that keeps no past and has no shares; by
//! `alone=N` its cache has room for N keys, or it is told that there is no such replica. Then an input is `beat`, `timeout` or `CHECKER:BYTES`, and at the end stand how many steps it made and how
//! many commands it executed. Or it is `requests:COUNT`: client 0's requests 1 to COUNT come, each `get a`,
//! and how many of them are answered without a refusal is told.

mod bare;
mod requests;
mod shares;
mod stepped;
mod told;

use crate::step::stepped::{Stepped, number};
use ids::{Config, Fault, MOST_KEYS, ReplicaId};
use marks::Marks;
use std::alloc::Global;
use std::hash::RandomState;

/// For how many keys there is room, where a replica is to be alone.
fn room_of(shares: &str) -> Result<Option<usize>, Fault> {
    if shares == "alone" {
        return Ok(Some(MOST_KEYS));
    }
    match shares.strip_prefix("alone=") {
        Some(number) => Ok(Some(number.parse().ok().ok_or(Fault::BadFields)?)),
        None => Ok(None),
    }
}

/// What a replica does with its inputs, one after the other.
fn steps(
    alloc: Global,
    hasher: RandomState,
    config: Config,
    replica: u8,
    shares: &str,
    inputs: &str,
) -> Result<String, Fault> {
    if replica >= config.n() {
        return Err(Fault::NoSuchParty);
    }
    let own = ReplicaId(replica);
    let mut text = String::new(alloc);
    if let Some(most_keys) = room_of(shares)? {
        bare::run(alloc, hasher, config, own, most_keys, inputs, &mut text)?;
        return Ok(text);
    }
    let (marks, eyes) = Marks::new(alloc, config.n())?;
    let stepped = Stepped::new(alloc, hasher, config, own, number(shares)?, &marks, eyes)?;
    stepped.run(alloc, inputs, &mut text)?;
    Ok(text)
}

/// What is told of a case.
pub(crate) fn tell(alloc: Global, hasher: RandomState, input: &str) -> Result<String, Fault> {
    let mut fields = input.splitn(5, ' ');
    let faults = number(fields.next().unwrap_or(""))?;
    let clients = number(fields.next().unwrap_or(""))?;
    let replica = number(fields.next().unwrap_or(""))?;
    let shares = fields.next().unwrap_or("");
    let config = Config::new(faults, clients)?;
    steps(
        alloc,
        hasher,
        config,
        replica,
        shares,
        fields.next().unwrap_or(""),
    )
}
