//! What a session says to its inputs.
//!
//! An input is `submit=TEXT`, the canonical text of a request; or `again`; or a frame. Of each is
//! told, with a comma behind the one before:
//!
//! - of a request, `sent`, the length of its frame, and the first 8 bytes of the frame's SHA-256 digest;
//! - of `again`, the same of the outstanding request's frame after `again`, or `nothing`;
//! - of a reply, `counted`, or `receipt`, its number, its place, and the text;
//! - or the number of the refusal: 10 where bytes are no frame, 30 where they are another frame than a reply.

use anyhow::{Result, bail};
use client_accept::{Receipt, Session};
use frames_view::{Frame, read};
use ids::{ClientId, Config, Fault, PartyId, Seq};
use mc_lines::read_canonical;
use sha2::{Digest, Sha256};
use simulated_keys::keyring_of;
use std::alloc::Global;

/// A frame that is sent.
fn tell_frame(alloc: Global, word: &str, frame: &[u8], text: &mut String) -> Result<()> {
    let digest = Sha256::digest(frame);
    let digits = hex::encode(alloc, &digest[..8])?;
    write!(text, "{word} {} {digits}", frame.len())?;
    Ok(())
}

/// A refusal.
fn tell_fault(fault: Fault, text: &mut String) -> Result<()> {
    write!(text, "{}", fault.number())?;
    Ok(())
}

/// The answer to a reply.
fn tell_answer(
    alloc: Global,
    answer: Result<Option<Receipt>, Fault>,
    text: &mut String,
) -> Result<()> {
    match answer {
        Ok(None) => text.push_str("counted")?,
        Ok(Some(receipt)) => {
            let digits = hex::encode(alloc, &receipt.text)?;
            write!(text, "receipt {} {} {digits}", receipt.seq, receipt.place)?;
        }
        Err(fault) => tell_fault(fault, text)?,
    }
    Ok(())
}

/// What the session answers to bytes.
fn receive(session: &mut Session, bytes: &[u8]) -> Result<Option<Receipt>, Fault> {
    let config = session.config();
    let Frame::Reply(reply) = read(&config, bytes)? else {
        return Err(Fault::NotMine);
    };
    session.on_reply(&reply)
}

/// A request that is submitted.
fn submit(alloc: Global, session: &mut Session, digits: &str, text: &mut String) -> Result<()> {
    let payload = hex::decode(alloc, digits)?;
    let Some(request) = read_canonical(payload.as_slice()) else {
        bail!("no request: {digits}");
    };
    match session.submit(&request) {
        Ok(frame) => tell_frame(alloc, "sent", &frame, text),
        Err(fault) => tell_fault(fault, text),
    }
}

/// One input.
fn take(alloc: Global, session: &mut Session, input: &str, text: &mut String) -> Result<()> {
    if let Some(digits) = input.strip_prefix("submit=") {
        return submit(alloc, session, digits, text);
    }
    if input == "again" {
        return match session.outstanding() {
            Some(frame) => tell_frame(alloc, "again", frame, text),
            None => {
                text.push_str("nothing")?;
                Ok(())
            }
        };
    }
    let bytes = hex::decode(alloc, input)?;
    let answer = receive(session, &bytes);
    tell_answer(alloc, answer, text)
}

/// What a session says to one input after the other.
fn take_all(alloc: Global, session: &mut Session, inputs: &str) -> Result<String> {
    let mut text = String::new(alloc);
    for input in inputs.split(' ') {
        if !text.is_empty() {
            text.push_str(", ")?;
        }
        take(alloc, session, input, &mut text)?;
    }
    Ok(text)
}

/// What the session of a client that goes on behind this number says to one input after the other.
pub(crate) fn session(
    alloc: Global,
    config: Config,
    client: u8,
    behind: Seq,
    inputs: &str,
) -> Result<String> {
    if client >= config.clients() {
        bail!("no such client: {client}");
    }
    let client = ClientId(client);
    let ring = keyring_of(alloc, config, PartyId::from(client))?;
    let mut session = Session::resume(alloc, config, client, ring, behind);
    take_all(alloc, &mut session, inputs)
}

/// The same, where the number stands before the inputs.
pub(crate) fn resumed(alloc: Global, config: Config, client: u8, rest: &str) -> Result<String> {
    let Some((behind, inputs)) = rest.split_once(' ') else {
        bail!("no number: {rest}");
    };
    session(alloc, config, client, Seq(behind.parse()?), inputs)
}
