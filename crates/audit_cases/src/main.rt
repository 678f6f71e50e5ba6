//! Judges replicas with the keys of a simulated world: each line of standard input is a case.
//!
//! A line is `FAULTS CLIENTS REPLICA .. ? REASON ..`: the sizes, the replicas that are handed in, and reasons that are
//! asked about. Or it is `FAULTS CLIENTS REPLICA .. ! windows`, and asks what the windows of the replicas show; or
//! `FAULTS CLIENTS REPLICA .. ! words`, and asks with which words `mcbft` would end.
//!
//! A replica is its number and its inputs, each behind a comma: `beat`, `timeout`, `prune:HEIGHT` (which no line about
//! reasons may have), `lead:DIGEST`, `offer:FRAME`, `gather:FRAME+FRAME..`, or a frame. Frames are in hexadecimal, and
//! checked with the replica's own keys. A refused input is passed over. A number `NUMBER@CLIENTS` makes the replica with
//! another number of clients.
//!
//! A reason is `vote:RECEIVER:VOTER:DIGEST`, `take:RECEIVER:SENDER:DIGEST` or `collision:PLACE:PLACE`. A place is
//! `genesis`, or `REPLICA/STEP`, where steps are counted from 0.
//!
//! What the audit answers is told first: `agree`, the number of its refusal, or `fork`, the reason in the same words with
//! spaces between them, and `true` or `false` as that reason is checked. The same word follows for each reason that is
//! asked about.
//!
//! Of windows `agree` is told, the number of the refusal, or `fork` or `unmet` with the numbers of the lower replica and of
//! the one that it was held against. Of words these are told, or the number of the refusal.
//!
//! What is wanted was computed by an independent program.
#![tactic(auto)]

mod reasons;
mod replicas;
mod told;

use crate::replicas::{Sizes, number, tell_replicas};
use crate::told::Asked;
use anyhow::Result;
use ids::Fault;
use std::alloc::Global;
use std::hash::RandomState;
use std::io::Read as _;

/// The replicas of a line, and what is asked of them.
fn split(rest: &str) -> Result<(&str, Asked<'_>), Fault> {
    if let Some((given, reasons)) = rest.split_once('?') {
        return Ok((given, Asked::Reasons(reasons)));
    }
    if let Some(given) = rest.strip_suffix("! windows") {
        return Ok((given, Asked::Windows));
    }
    match rest.strip_suffix("! words") {
        Some(given) => Ok((given, Asked::Words)),
        None => Err(Fault::BadFields),
    }
}

/// The fields of the replicas.
fn fields_of(alloc: Global, given: &str) -> Result<Vec<&str>, Fault> {
    let mut fields = Vec::new(alloc);
    for field in given.split_whitespace() {
        fields.push(field)?;
    }
    Ok(fields)
}

/// The line for a line of the input.
fn tell(alloc: Global, hasher: RandomState, input: &str) -> Result<String, Fault> {
    let mut words = input.splitn(3, ' ');
    let sizes = Sizes {
        faults: number(words.next().unwrap_or(""))?,
        clients: number(words.next().unwrap_or(""))?,
        hasher,
    };
    let (given, asked) = split(words.next().unwrap_or(""))?;
    let fields = fields_of(alloc, given)?;
    let mut text = String::new(alloc);
    tell_replicas(alloc, sizes, &fields, asked, &mut text)?;
    Ok(text)
}

fn main(rt: HostRuntime) -> Result<()> {
    let mut input = Vec::new(rt.alloc());
    rt.reader().read_to_end(&mut input)?;
    let hasher = RandomState::new(&rt)?;
    for case in str::from_utf8(&input)?.lines() {
        println!(rt; "{}", tell(rt.alloc(), hasher, case)?)?;
    }
    Ok(())
}
