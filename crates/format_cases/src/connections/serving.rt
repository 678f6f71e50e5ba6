use crate::connections::devices::{Sink, Source, Stored};
use connection::{Counted, End, serve};
use ids::Fault;
use sha2::{Digest, Sha256};
use std::alloc::Global;

/// How reader, writer and service behave.
#[derive(Clone, Copy)]
pub struct Plan {
    first: usize,
    later: usize,
    read_fails: u64,
    interrupts: bool,
    takes: usize,
    write_fails: u64,
    refused: u64,
}

impl Plan {
    /// All goes well, in pieces of so many bytes.
    pub fn in_pieces(step: usize) -> Plan {
        Plan {
            first: step,
            later: step,
            read_fails: 0,
            interrupts: false,
            takes: step,
            write_fails: 0,
            refused: 0,
        }
    }

    /// What seven numbers say, with a comma between each two.
    pub fn parse(text: &str) -> anyhow::Result<Plan> {
        let mut numbers = [0u32; 7];
        for (number, word) in numbers.iter_mut().zip(text.split(',')) {
            *number = word.parse()?;
        }
        let [
            first,
            later,
            read_fails,
            interrupts,
            takes,
            write_fails,
            refused,
        ] = numbers;
        Ok(Plan {
            first: first as usize,
            later: later as usize,
            read_fails: u64::from(read_fails),
            interrupts: interrupts != 0,
            takes: takes as usize,
            write_fails: u64::from(write_fails),
            refused: u64::from(refused),
        })
    }
}

/// An end or a refusal.
pub fn in_words(alloc: Global, end: Result<End, Fault>) -> anyhow::Result<String> {
    Ok(match end {
        Ok(end) => format!(in alloc; "{end:?}")?,
        Err(fault) => format!(in alloc; "fault {}", fault.number())?,
    })
}

/// The length of some bytes, and the first half of their digest.
fn short(alloc: Global, bytes: &[u8]) -> anyhow::Result<String> {
    let digest = Sha256::digest(bytes);
    let start = hex::encode(alloc, &digest[..8])?;
    Ok(format!(in alloc; "{} bytes {}", bytes.len(), start)?)
}

/// What serving a text comes to.
pub fn served(alloc: Global, plan: &Plan, text: &[u8]) -> anyhow::Result<String> {
    let source = Source::new(
        text,
        plan.first,
        plan.later,
        plan.read_fails,
        plan.interrupts,
    );
    let mut reader = Counted::new(source);
    let mut writer = Counted::new(Sink::new(alloc, plan.takes, plan.write_fails, plan.interrupts));
    let mut service = Stored::new(alloc, plan.refused);
    let end = serve(alloc, &mut reader, &mut writer, &mut service);
    let end = in_words(alloc, end)?;
    let (reads, writes) = (reader.failures(), writer.failures());
    let written = short(alloc, &writer.into_device().written)?;
    let payloads = short(alloc, &service.payloads)?;
    let calls = service.calls;
    Ok(format!(in alloc;
        "{end}, {written} written, {calls} calls, {payloads}, {reads} and {writes} failures"
    )?)
}
