//! The text of a schedule, read.
//!
//! Its first line is `world F C`, and behind it, each after a space, the faulty parties: F faulty
//! replicas are tolerated, and there are C clients. Each other line is an event: `submit cN HEX`
//! submits a payload, `relay K PARTY` brings frame K of the record to a party, `inject PARTY HEX`
//! brings bytes, `timeout rN` and `beat rN` are a timeout and a beat of replica N, and `prune rN H`
//! has it prune at height H.
//!
//! `offer K rN` offers replica N a frame of the record, and `offer-bytes rN HEX` bytes. `gather rN`
//! brings it frames together; behind it stand their sources, at least one, each after a space: a
//! number of the record, or `x` and HEX. `lead rN DIGEST` has it lead from a block, and `ask rN rM
//! DIGEST` has it ask replica M for one.
//!
//! A party is `r` or `c` and its number. Each line ends by LF, and one space stands between fields.
//! Numbers are decimals without leading zeros, below 2^64, and a party's below 256. HEX is an even
//! number of hexadecimal digits in lower case, and DIGEST 64 of them.

ghost use Rattle.std.specs.Prelude.{◌≡◌, ◌↔◌, ◌<◌, length, IsOk, IfSome, IfOk, IfErr, IsErrOf, OnErr};
ghost use Rattle.std.specs.Prelude.{MatchOption, position};
ghost use Rattle.ids.specs.Sizes.{AreSizes};
ghost use Rattle.definitions.specs.Bytes.{Bytes};
ghost use Rattle.simulator.specs.Lines.{IsHeading, heading_text, IsEvent, event_text};
ghost use Rattle.simulator.specs.Schedules.{BeginsWith, IsPlain, is_lf, IsTextOf, HasNoHeading, HasNoEvent};
ghost use Rattle.simulator.specs.Faults.{IsWhyNot, fault_of_line};
ghost use Rattle.simulator.specs.Simulations.{sizes_of};

use crate::lines::{Heading, event_of, heading_of};
use crate::sim_fault::SimFault;
use crate::words::NotRead;
use ids::{Config, Fault};
use std::alloc::Global;
use world_schedule::Event;

/// A schedule.
#[derive(Drop)]
pub struct Schedule {
    pub heading: Heading,
    pub events: Vec<Event>,
}

impl Heading {
    /// The sizes as a world may have them, else `BadSize`. A cache has room for `MOST_KEYS` keys.
    pub fn config(&self) -> Result<Config, Fault>
        ensures made { IfOk result (λ config. config ≡ sizes_of self.now) }
        ensures only { IsOk result ↔ AreSizes (sizes_of self.now) }
        ensures refused { OnErr result (result ≡ Err Fault.BadSize) }
    {
        match (u8::try_from(self.faults), u8::try_from(self.clients)) {
            (Ok(faults), Ok(clients)) => Config::new(faults, clients),
            _ => Err(Fault::BadSize),
        }
    }
}

/// The fault of a line that wasn't read.
fn fault_of(why: NotRead, line: u64) -> SimFault
    ensures { result ≡ fault_of_line why line }
{
    match why {
        NotRead::Bad => SimFault::Line(line),
        NotRead::Memory => SimFault::Fault(Fault::Memory),
    }
}

/// The schedule that a text is; else the first line that isn't one of a schedule. An empty text is
/// bad at line 1.
pub fn parse(alloc: Global, text: &[u8]) -> Result<Schedule, SimFault>
    ensures ok { IfOk result (λ schedule. IsTextOf schedule text.now) }
    ensures bad { IfErr result (IsWhyNot text.now) }
{
    let (heading, mut rest) = match take_heading(alloc, text) {
        Ok(taken) => taken,
        Err(why) => return Err(fault_of(why, 1)),
    };
    let mut events = Vec::new(alloc);
    while !rest.is_empty() {
        let (event, behind) = match take_event(alloc, rest) {
            Ok(taken) => taken,
            Err(why) => return Err(fault_of(why, events.len() as u64 + 2)),
        };
        events.push(event)?;
        rest = behind;
    }
    Ok(Schedule { heading, events })
}

/// The heading of a text, and what stands behind its line.
fn take_heading(alloc: Global, text: &[u8]) -> Result<(Heading, &[u8]), NotRead>
    ensures ok { IfOk result (λ l. IsHeading l.0 × BeginsWith text.now (heading_text l.0) l.1.now) }
    ensures bad { IsErrOf result NotRead.Bad → HasNoHeading text.now }
{
    let Some(line) = take_line(text) else {
        return Err(NotRead::Bad);
    };
    let (words, rest) = line;
    Ok((heading_of(alloc, words)?, rest))
}

/// The event of a text's first line, and what stands behind it.
fn take_event(alloc: Global, text: &[u8]) -> Result<(Event, &[u8]), NotRead>
    ensures ok { IfOk result (λ l. IsEvent l.0 × BeginsWith text.now (event_text l.0) l.1.now) }
    ensures bad { IsErrOf result NotRead.Bad → 0 < length text.now → HasNoEvent text.now }
{
    let Some(line) = take_line(text) else {
        return Err(NotRead::Bad);
    };
    let (words, rest) = line;
    Ok((event_of(alloc, words)?, rest))
}

/// The words of a text's first line, and what stands behind the LF that ends it.
fn take_line(text: &[u8]) -> Option<(&str, &[u8])>
    ensures some { IfSome result (λ l. BeginsWith text.now l.0.now l.1.now) }
    ensures first { (words rest : Bytes) → IsPlain words → BeginsWith text.now words rest
        → MatchOption result ⊥ (λ l. (words ≡ l.0.now) × (rest ≡ l.1.now)) }
{
    let (line, rest) = cut_line(text)?;
    match str::from_utf8(line) {
        Ok(words) => Some((words, rest)),
        Err(_) => None,
    }
}

/// What stands before the first LF, and what behind it.
fn cut_line(text: &[u8]) -> Option<(&[u8], &[u8])>
    ensures some { IfSome result (λ l. BeginsWith text.now l.0.now l.1.now) }
    ensures first { (words rest : Bytes) → IsPlain words → BeginsWith text.now words rest
        → MatchOption result ⊥ (λ l. (words ≡ l.0.now) × (rest ≡ l.1.now)) }
{
    let end = end_of_line(text)?;
    Some((&text[..end], &text[end + 1..]))
}

/// Where the first LF stands.
fn end_of_line(text: &[u8]) -> Option<usize>
    ensures { result ≡ position is_lf text.now }
{
    text.iter().position(|byte| *byte == b'\n')
}
