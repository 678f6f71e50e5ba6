//! Endpoints as lines spell them: `FAULTS:CLIENTS:KEPT:PARTY:LIFE:KEYS`, the sizes, how many keys a cache keeps, the
//! party's number, its life, and its keys with `,` between them, each `ONE-OTHER-KEY`.

use crate::fields::{array_of, next};
use anyhow::Result;
use handshake::{Endpoint, Life};
use ids::{Config, PartyId};
use key_file::PairKey;
use std::alloc::Global;

/// A party's number.
pub(crate) fn party_of(field: &str) -> Result<PartyId> {
    Ok(PartyId(field.parse()?))
}

/// A key.
fn key_of(field: &str) -> Result<PairKey> {
    let mut fields = field.split('-');
    let one = party_of(next(&mut fields)?)?;
    let other = party_of(next(&mut fields)?)?;
    let key = array_of(next(&mut fields)?)?;
    Ok(PairKey { one, other, key })
}

/// All keys.
fn keys_of(alloc: Global, field: &str) -> Result<Vec<PairKey>> {
    let mut keys = Vec::new(alloc);
    for key in field.split(',').filter(|key| !key.is_empty()) {
        keys.push(key_of(key)?)?;
    }
    Ok(keys)
}

/// An endpoint.
pub(crate) fn endpoint_of(alloc: Global, field: &str) -> Result<Endpoint> {
    let mut fields = field.split(':');
    let faults = next(&mut fields)?.parse()?;
    let clients = next(&mut fields)?.parse()?;
    let kept = next(&mut fields)?.parse()?;
    let config = Config::new(faults, clients)?.with_most_keys(kept)?;
    let party = party_of(next(&mut fields)?)?;
    let life = Life(array_of(next(&mut fields)?)?);
    let keys = keys_of(alloc, next(&mut fields)?)?;
    Ok(Endpoint::new(config, party, life, keys))
}
