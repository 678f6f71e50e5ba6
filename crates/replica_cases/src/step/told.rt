//! What a replica answers, and what it did, in words.

use executor::Entries;
use ids::Fault;
use replica::{Archived, Out, Sending, To};
use sha2::{Digest, Sha256};
use std::alloc::Global;

/// A frame that goes out.
fn tell_sending(alloc: Global, sending: &Sending, text: &mut String) -> Result<(), Fault> {
    write!(text, " {} to ", sending.frame.len())?;
    match sending.to {
        To::All => text.push_str("all")?,
        To::Replica(replica) => write!(text, "{replica}")?,
        To::Client(client) => write!(text, "{client}")?,
    }
    let digest = Sha256::digest(&sending.frame);
    write!(text, " {}", hex::encode(alloc, &digest[..8])?)?;
    Ok(())
}

/// What a replica answers to an input.
pub(crate) fn tell_answer(
    alloc: Global,
    answer: &Result<Out, Fault>,
    text: &mut String,
) -> Result<(), Fault> {
    match answer {
        Ok(out) => {
            text.push_str("ok")?;
            for sending in out.sendings() {
                tell_sending(alloc, sending, text)?;
            }
        }
        Err(fault) => write!(text, "{}", fault.number())?,
    }
    Ok(())
}

/// What was executed: how many commands, and the first 8 bytes of the SHA-256 digest of their lines, each
/// with client, number and payload.
fn tell_history(alloc: Global, history: &Entries, text: &mut String) -> Result<(), Fault> {
    let mut told = Sha256::new();
    for entry in history {
        let payload = hex::encode(alloc, entry.payload())?;
        let line = format!(in alloc; "{} {} {payload}\n", entry.client(), entry.seq())?;
        told.update(&line);
    }
    let digest = hex::encode(alloc, &told.finalize()[..8])?;
    write!(text, ", executed {} {digest}", history.len())?;
    Ok(())
}

/// What a replica did that was closed: how many steps stand, and what it executed, if anything.
pub(crate) fn tell_past(alloc: Global, replica: &Archived, text: &mut String) -> Result<(), Fault> {
    write!(
        text,
        " refused, refused, closed {}",
        replica.replica().steps()
    )?;
    match replica.whole() {
        Some(whole) if !whole.history().is_empty() => tell_history(alloc, whole.history(), text),
        _ => Ok(()),
    }
}
