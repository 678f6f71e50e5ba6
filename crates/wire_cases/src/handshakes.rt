//! Handshakes.
//!
//! - Of `greeting NONCE` the greeting is told.
//! - Of `dial ENDPOINT ACCEPTOR NONCE GREETING` the ask, or why there is none.
//! - Of `admit ENDPOINT NONCE ASK`, of an endpoint that greeted with the nonce, who asks, that party's life and nonce,
//!   and the answer; or why nobody is named.
//! - Of `hear ENDPOINT ACCEPTOR NONCE GREETING ANSWER` who answers, that party's life and nonce; or why nobody is
//!   named.
//! - Of `dial-row`, `admit-row` and `hear-row`, with a mask behind these fields, the last bytes are taken with each
//!   byte in turn changed by exclusive or with the mask, and a letter is told of each: `.` where somebody is named or
//!   asked, else that of the refusal.

use crate::endpoints::{endpoint_of, party_of};
use crate::fields::{array_of, next};
use anyhow::{Result, bail};
use handshake::{
    AnswerBytes, AskBytes, Dialling, Endpoint, GreetingBytes, Nonce, Peer, Refusal, greeting,
};
use ids::PartyId;
use std::alloc::Global;
use std::str::Split;

/// A letter for a refusal.
fn letter(refusal: Refusal) -> char {
    match refusal {
        Refusal::NotAGreeting => 'G',
        Refusal::NotMine => 'M',
        Refusal::NotAParty => 'P',
        Refusal::BadTag => 'T',
        Refusal::OtherSizes(_) => 'S',
    }
}

/// A letter for what came of a handshake.
fn letter_of<T: Drop>(outcome: Result<T, Refusal>) -> char {
    match outcome {
        Ok(_named) => '.',
        Err(refusal) => letter(refusal),
    }
}

/// What is told of a peer.
fn peer_told(alloc: Global, peer: &Peer) -> Result<String> {
    let (party, life, nonce) = (peer.party().0, peer.life().0, peer.nonce().0);
    let (life, nonce) = (hex::encode(alloc, &life)?, hex::encode(alloc, &nonce)?);
    Ok(format!(in alloc; "{party} {life} {nonce}")?)
}

/// What is told of a refusal.
fn refusal_told(alloc: Global, refusal: Refusal) -> Result<String> {
    Ok(format!(in alloc; "{refusal}")?)
}

/// The bytes with the one at this place changed.
fn changed<const N: usize>(bytes: &[u8; N], place: usize, mask: u8) -> [u8; N] {
    let mut bytes = *bytes;
    if let Some(byte) = bytes.get_mut(place) {
        *byte ^= mask;
    }
    bytes
}

/// Who dials whom, and with which nonce.
#[derive(Drop)]
struct Dial {
    endpoint: Endpoint,
    acceptor: PartyId,
    nonce: Nonce,
    greeting: GreetingBytes,
}

impl Dial {
    fn read(alloc: Global, fields: &mut Split<'_, char>) -> Result<Dial> {
        Ok(Dial {
            endpoint: endpoint_of(alloc, next(fields)?)?,
            acceptor: party_of(next(fields)?)?,
            nonce: Nonce(array_of(next(fields)?)?),
            greeting: array_of(next(fields)?)?,
        })
    }

    fn with(&self, greeting: &GreetingBytes) -> Result<Dialling, Refusal> {
        self.endpoint.dial(self.acceptor, greeting, self.nonce)
    }

    fn told(&self, alloc: Global) -> Result<String> {
        match self.with(&self.greeting) {
            Ok(dialling) => Ok(hex::encode(alloc, &dialling.ask())?),
            Err(refusal) => refusal_told(alloc, refusal),
        }
    }

    fn row(&self, alloc: Global, mask: u8) -> Result<String> {
        let mut row = String::new(alloc);
        for place in 0..self.greeting.len() {
            row.push(letter_of(self.with(&changed(&self.greeting, place, mask))))?;
        }
        Ok(row)
    }
}

/// What an endpoint that greeted with a nonce says of an ask.
fn admit_told(alloc: Global, endpoint: &Endpoint, nonce: Nonce, ask: &AskBytes) -> Result<String> {
    match endpoint.admit(nonce, ask) {
        Ok(named) => {
            let (peer, answer) = named;
            let answer = hex::encode(alloc, &answer)?;
            Ok(format!(in alloc; "{} {answer}", peer_told(alloc, &peer)?)?)
        }
        Err(refusal) => refusal_told(alloc, refusal),
    }
}

/// The same of the ask with each byte in turn changed.
fn admit_row(
    alloc: Global,
    endpoint: &Endpoint,
    nonce: Nonce,
    ask: &AskBytes,
    mask: u8,
) -> Result<String> {
    let mut row = String::new(alloc);
    for place in 0..ask.len() {
        row.push(letter_of(endpoint.admit(nonce, &changed(ask, place, mask))))?;
    }
    Ok(row)
}

/// What a dialler says of an answer.
fn hear_told(alloc: Global, dialling: &Dialling, answer: &AnswerBytes) -> Result<String> {
    match dialling.hear(answer) {
        Ok(peer) => peer_told(alloc, &peer),
        Err(refusal) => refusal_told(alloc, refusal),
    }
}

/// The same of the answer with each byte in turn changed.
fn hear_row(alloc: Global, dialling: &Dialling, answer: &AnswerBytes, mask: u8) -> Result<String> {
    let mut row = String::new(alloc);
    for place in 0..answer.len() {
        row.push(letter_of(dialling.hear(&changed(answer, place, mask))))?;
    }
    Ok(row)
}

/// The mask of a row.
fn mask_of(fields: &mut Split<'_, char>) -> Result<u8> {
    let [mask] = array_of::<1>(next(fields)?)?;
    Ok(mask)
}

/// A case of a dialler that hears.
fn hear_case(alloc: Global, is_row: bool, fields: &mut Split<'_, char>) -> Result<String> {
    let dial = Dial::read(alloc, fields)?;
    let dialling = dial.with(&dial.greeting)?;
    let answer = array_of(next(fields)?)?;
    if is_row {
        return hear_row(alloc, &dialling, &answer, mask_of(fields)?);
    }
    hear_told(alloc, &dialling, &answer)
}

/// A case of an acceptor.
fn admit_case(alloc: Global, is_row: bool, fields: &mut Split<'_, char>) -> Result<String> {
    let endpoint = endpoint_of(alloc, next(fields)?)?;
    let nonce = Nonce(array_of(next(fields)?)?);
    let ask = array_of(next(fields)?)?;
    if is_row {
        return admit_row(alloc, &endpoint, nonce, &ask, mask_of(fields)?);
    }
    admit_told(alloc, &endpoint, nonce, &ask)
}

/// What is printed of a case.
pub(crate) fn case_told(alloc: Global, subject: &str, case: &str) -> Result<String> {
    let mut fields = case.split(' ');
    match subject {
        "greeting" => {
            let nonce = Nonce(array_of(next(&mut fields)?)?);
            Ok(hex::encode(alloc, &greeting(nonce))?)
        }
        "dial" => Dial::read(alloc, &mut fields)?.told(alloc),
        "dial-row" => {
            let dial = Dial::read(alloc, &mut fields)?;
            dial.row(alloc, mask_of(&mut fields)?)
        }
        "admit" | "admit-row" => admit_case(alloc, subject == "admit-row", &mut fields),
        "hear" | "hear-row" => hear_case(alloc, subject == "hear-row", &mut fields),
        _ => bail!("no such subject"),
    }
}
