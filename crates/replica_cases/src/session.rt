//! Clients' sessions, and replies that are signed, with the keys of a simulated world.
//!
//! A case begins with the sizes and the number of a party; bytes are hexadecimal.
//!
//! - `FAULTS CLIENTS CLIENT session INPUT ..`: what a client's session says to one input after the
//!   other, as `told` tells it.
//! - `FAULTS CLIENTS CLIENT resumed BEHIND INPUT ..`: the same of a client that goes on behind a number.
//! - `FAULTS CLIENTS REPLICA reply CLIENT SEQ PLACE TEXT`: a replica's reply, as bytes.

mod replies;
mod told;

use crate::session::replies::reply;
use crate::session::told::{resumed, session};
use anyhow::{Result, bail};
use ids::{Config, Seq};
use std::alloc::Global;

/// What is asked of a party.
fn answer(alloc: Global, config: Config, party: u8, ask: &str, rest: &str) -> Result<String> {
    match ask {
        "session" => session(alloc, config, party, Seq(0), rest),
        "resumed" => resumed(alloc, config, party, rest),
        "reply" => reply(alloc, config, party, rest),
        _ => bail!("no such case: {ask}"),
    }
}

/// What is told of a case.
pub(crate) fn tell(alloc: Global, input: &str) -> Result<String> {
    let mut fields = input.splitn(5, ' ');
    let faults: u8 = fields.next().unwrap_or("").parse()?;
    let clients: u8 = fields.next().unwrap_or("").parse()?;
    let party: u8 = fields.next().unwrap_or("").parse()?;
    let ask = fields.next().unwrap_or("");
    let rest = fields.next().unwrap_or("");
    let config = Config::new(faults, clients)?;
    answer(alloc, config, party, ask, rest)
}
