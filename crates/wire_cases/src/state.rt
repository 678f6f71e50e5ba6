//! What a process reads when it begins: its keys, the deployment file, its mark. A text is a field of bytes.
//!
//! - Of `keys FAULTS CLIENTS HOLDER TEXT PARTY ..` the keys of the holder's file are told, and of each party whether the
//!   holder makes a keyring; or why the text is no such file. A holder is `all`, a replica as `r2`, or clients as `c8+16`:
//!   from one on, how many.
//! - Of `deployment TEXT` the sizes, the addresses behind `at`, and how many clients each front has behind `fronts`; or
//!   which line is bad.
//! - Of `mark PARTY TEXT` the mark that the text keeps for the party, or `none`.
//! - Of `begin PARTY MARK` the text of that mark, and behind which number the party begins; or why it doesn't.

use crate::endpoints::party_of;
use crate::fields::{bytes_of, next, told};
use anyhow::{Context, Result, bail};
use deployment::Deployment;
use ids::{ClientId, Config, ReplicaId};
use key_file::{HeldKeys, Holder};
use state_marks::{Numbers, mark_text, read_mark};
use std::alloc::Global;
use std::str::Split;

/// A holder as a line spells it.
fn holder_of(field: &str) -> Result<Holder> {
    if field == "all" {
        return Ok(Holder::Everyone);
    }
    if let Some(replica) = field.strip_prefix('r') {
        return Ok(Holder::Replica(ReplicaId(replica.parse()?)));
    }
    let range = field.strip_prefix('c').context("no such holder")?;
    let (first, count) = range.split_once('+').context("no count")?;
    Ok(Holder::Clients(ClientId(first.parse()?), count.parse()?))
}

/// All keys, one behind the other, each behind its two parties.
fn pairs_told(alloc: Global, keys: &HeldKeys) -> Result<String> {
    let mut bytes = Vec::new(alloc);
    for pair in keys.pairs() {
        bytes.extend_from_slice(&pair.one.0.to_be_bytes())?;
        bytes.extend_from_slice(&pair.other.0.to_be_bytes())?;
        bytes.extend_from_slice(&pair.key)?;
    }
    told(alloc, &bytes)
}

fn keys_told(alloc: Global, fields: &mut Split<'_, char>) -> Result<String> {
    let config = Config::new(next(fields)?.parse()?, next(fields)?.parse()?)?;
    let holder = holder_of(next(fields)?)?;
    let text = bytes_of(alloc, next(fields)?)?;
    let keys = match HeldKeys::read(alloc, holder, config, &text) {
        Ok(keys) => keys,
        Err(fault) => return Ok(format!(in alloc; "{fault}")?),
    };
    let mut line = pairs_told(alloc, &keys)?;
    for party in fields {
        match keys.keyring(alloc, party_of(party)?) {
            Ok(_keyring) => line.push_str(", a keyring")?,
            Err(fault) => write!(line, ", {fault}")?,
        }
    }
    Ok(line)
}

fn deployment_told(alloc: Global, field: &str) -> Result<String> {
    let text = bytes_of(alloc, field)?;
    let deployment = match Deployment::read(alloc, &text) {
        Ok(deployment) => deployment,
        Err(refusal) => return Ok(format!(in alloc; "{refusal}")?),
    };
    let config = deployment.config();
    let (faults, clients, kept) = (config.faults(), config.clients(), config.most_keys());
    let mut line = format!(in alloc; "{faults} {clients} {kept} at")?;
    for replica in 0..config.n() {
        let address = deployment
            .address(ReplicaId(replica))
            .context("no address")?;
        write!(line, " {}", hex::encode(alloc, address)?)?;
    }
    line.push_str(" fronts")?;
    for clients in deployment.fronts() {
        write!(line, " {clients}")?;
    }
    Ok(line)
}

fn mark_told(alloc: Global, fields: &mut Split<'_, char>) -> Result<String> {
    let party = party_of(next(fields)?)?;
    let text = bytes_of(alloc, next(fields)?)?;
    match read_mark(&text, party) {
        Some(mark) => Ok(format!(in alloc; "{mark}")?),
        None => Ok(String::from_str(alloc, "none")?),
    }
}

fn begin_told(alloc: Global, fields: &mut Split<'_, char>) -> Result<String> {
    let party = party_of(next(fields)?)?;
    let mark = next(fields)?.parse()?;
    let text = hex::encode(alloc, &mark_text(alloc, party, mark)?)?;
    match Numbers::begin(party, mark) {
        Ok(numbers) => Ok(format!(in alloc; "{text} {}", numbers.behind())?),
        Err(refusal) => Ok(format!(in alloc; "{text} {refusal}")?),
    }
}

/// What is printed of a case.
pub(crate) fn case_told(alloc: Global, subject: &str, case: &str) -> Result<String> {
    let mut fields = case.split(' ');
    match subject {
        "keys" => keys_told(alloc, &mut fields),
        "deployment" => deployment_told(alloc, case),
        "mark" => mark_told(alloc, &mut fields),
        "begin" => begin_told(alloc, &mut fields),
        _ => bail!("no such subject"),
    }
}
