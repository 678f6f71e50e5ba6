//! Key files of parties, of keys that anyone can compute.

use anyhow::Result;
use ids::Config;
use key_file::Holder;
use std::alloc::Global;

/// Whether a holder acts for a party.
fn acts_for(holder: &Holder, party: u16) -> bool {
    match *holder {
        Holder::Everyone => true,
        Holder::Replica(replica) => party == u16::from(replica.0),
        Holder::Clients(first, count) => {
            let first = u16::from(first.0).saturating_add(256);
            first <= party && party - first < u16::from(count)
        }
    }
}

/// Appends the line of two parties, whose key is of their numbers, where the holder acts for one of them.
fn write_line(
    alloc: Global,
    text: &mut String,
    holder: &Holder,
    one: u16,
    other: u16,
) -> Result<()> {
    if !acts_for(holder, one) && !acts_for(holder, other) {
        return Ok(());
    }
    let [a, b] = one.to_be_bytes();
    let [c, d] = other.to_be_bytes();
    let mut key = [7; 32];
    key[..4].copy_from_slice(&[a, b, c, d]);
    let digits = hex::encode(alloc, key.as_slice())?;
    writeln!(text, "{one} {other} {digits}")?;
    Ok(())
}

/// Appends a replica's lines with itself, the replicas behind it and all clients.
fn write_replica(
    alloc: Global,
    text: &mut String,
    config: Config,
    holder: &Holder,
    replica: u16,
) -> Result<()> {
    for other in replica..u16::from(config.n()) {
        write_line(alloc, text, holder, replica, other)?;
    }
    for client in 0..u16::from(config.clients()) {
        write_line(alloc, text, holder, replica, 256 + client)?;
    }
    Ok(())
}

/// The key file of a holder.
pub(crate) fn key_text(alloc: Global, config: Config, holder: &Holder) -> Result<String> {
    let mut text = String::new(alloc);
    for replica in 0..u16::from(config.n()) {
        write_replica(alloc, &mut text, config, holder, replica)?;
    }
    Ok(text)
}
