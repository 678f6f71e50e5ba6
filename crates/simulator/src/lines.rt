//! The lines of a schedule, without the LF that ends each: its heading, and its events.

ghost use Rattle.std.specs.Prelude.{option_map};
ghost use Rattle.simulator.specs.Texts.{IsReadOf, IsReading, behind_word, IsCut};
ghost use Rattle.simulator.specs.Lines.{IsHeading, heading_text, AreSizesOf, AreParties, parties_text};
ghost use Rattle.simulator.specs.Lines.{digits_of_client, AreDigitsOfClient, digits_of_party};
ghost use Rattle.simulator.specs.Lines.{AreDigitsOfParty, IsDelivery, delivery_text, IsSubmission};
ghost use Rattle.simulator.specs.Lines.{submission_text, IsInjection, injection_text, IsTimer, IsBare};
ghost use Rattle.simulator.specs.Lines.{IsPruning, pruning_text, IsQuiet};
ghost use Rattle.simulator.specs.Lines.{IsEvent, event_text};

use crate::ground_lines::{gathering_of, lead_of, offer_of, offered_of, question_of};
use crate::words::{NotRead, bytes_of, client_of, number_of, party_of, replica_of};
use ids::{ClientId, Height, PartyId, ReplicaId};
use std::alloc::Global;
use world_schedule::{Event, Source};

/// What the first line says, with sizes as they were written: no limit but that of the numbers was tested.
#[derive(Drop)]
pub struct Heading {
    /// How many faulty replicas are tolerated.
    pub faults: u64,
    /// How many clients there are.
    pub clients: u64,
    /// The parties that are faulty, each once.
    pub faulty: Vec<PartyId>,
}

/// The heading of the first line.
pub(crate) fn heading_of(alloc: Global, words: &str) -> Result<Heading, NotRead>
    ensures { IsReading heading_text IsHeading words.now result }
{
    let Some(read) = sizes_of(words) else {
        return Err(NotRead::Bad);
    };
    let (faults, clients, parties) = read;
    let faulty = parties_of(alloc, parties)?;
    Ok(Heading {
        faults,
        clients,
        faulty,
    })
}

/// The sizes of the first line, and the parties behind them.
fn sizes_of(words: &str) -> Option<(u64, u64, Option<&str>)>
    ensures { AreSizesOf words.now (option_map (λ s. (s.0, s.1, option_map (λ rest. rest.now) s.2)) result) }
{
    let fields = words.strip_prefix("world ")?;
    let (faults, rest) = fields.split_once(' ')?;
    let (clients, parties) = cut_word(rest);
    Some((number_of(faults)?, number_of(clients)?, parties))
}

/// Parties, each once, of which each stands behind a space.
fn parties_of(alloc: Global, text: Option<&str>) -> Result<Vec<PartyId>, NotRead>
    ensures { IsReading (λ parties. parties_text parties.items) (λ parties. AreParties parties.items)
        (behind_word (option_map (λ rest. rest.now) text.entry)) result }
{
    let mut parties = Vec::new(alloc);
    let mut left = text;
    while let Some(fields) = left {
        let (word, behind) = cut_word(fields);
        let Some(party) = party_of(word) else {
            return Err(NotRead::Bad);
        };
        if parties.contains(&party) {
            return Err(NotRead::Bad);
        }
        parties.push(party)?;
        left = behind;
    }
    Ok(parties)
}

/// The text's first word, and what stands behind the space that ends it.
pub(crate) fn cut_word(text: &str) -> (&str, Option<&str>)
    ensures { IsCut text.now result.0.now (option_map (λ rest. rest.now) result.1) }
{
    match text.split_once(' ') {
        Some((word, rest)) => (word, Some(rest)),
        None => (text, None),
    }
}

/// The event of another line.
pub(crate) fn event_of(alloc: Global, words: &str) -> Result<Event, NotRead>
    ensures { IsReading event_text IsEvent words.now result }
{
    if let Some(fields) = words.strip_prefix("submit ") {
        let (client, payload) = submission_of(alloc, fields)?;
        return Ok(Event::Submit { client, payload });
    }
    if let Some(fields) = words.strip_prefix("inject ") {
        let (to, bytes) = injection_of(alloc, fields)?;
        return Ok(Event::Inject { to, bytes });
    }
    if let Some(fields) = words.strip_prefix("offer-bytes ") {
        let (to, bytes) = offered_of(alloc, fields)?;
        let source = Source::Bytes(bytes);
        return Ok(Event::Offer { to, source });
    }
    if let Some(fields) = words.strip_prefix("gather ") {
        let (to, sources) = gathering_of(alloc, fields)?;
        return Ok(Event::Gather { to, sources });
    }
    match bare_event_of(words) {
        Some(event) => Ok(event),
        None => Err(NotRead::Bad),
    }
}

/// A client, and the payload that it submits.
fn submission_of(alloc: Global, fields: &str) -> Result<(ClientId, Vec<u8>), NotRead>
    ensures { IsReading submission_text IsSubmission fields.now result }
{
    let Some(read) = submitter_of(fields) else {
        return Err(NotRead::Bad);
    };
    let (client, digits) = read;
    let payload = bytes_of(alloc, digits)?;
    Ok((client, payload))
}

/// A client, and the digits behind it, of which there are some.
fn submitter_of(fields: &str) -> Option<(ClientId, &str)>
    ensures { IsReadOf digits_of_client AreDigitsOfClient fields.now
        (option_map (λ s. (s.0, s.1.now)) result) }
{
    let (client, digits) = fields.split_once(' ')?;
    let client = client_of(client)?;
    if digits.is_empty() {
        return None;
    }
    Some((client, digits))
}

/// A party, and the bytes that come to it.
fn injection_of(alloc: Global, fields: &str) -> Result<(PartyId, Vec<u8>), NotRead>
    ensures { IsReading injection_text IsInjection fields.now result }
{
    let Some(read) = receiver_of(fields) else {
        return Err(NotRead::Bad);
    };
    let (to, digits) = read;
    let bytes = bytes_of(alloc, digits)?;
    Ok((to, bytes))
}

/// A party, and the digits behind it.
fn receiver_of(fields: &str) -> Option<(PartyId, &str)>
    ensures { IsReadOf digits_of_party AreDigitsOfParty fields.now (option_map (λ s. (s.0, s.1.now)) result) }
{
    let (to, digits) = fields.split_once(' ')?;
    Some((party_of(to)?, digits))
}

/// An event whose line has no bytes.
fn bare_event_of(words: &str) -> Option<Event>
    ensures { IsReadOf event_text IsBare words.now result }
{
    if let Some(fields) = words.strip_prefix("relay ") {
        let (frame, to) = delivery_of(fields)?;
        return Some(Event::Relay { frame, to });
    }
    if let Some(fields) = words.strip_prefix("offer ") {
        let (frame, to) = offer_of(fields)?;
        let source = Source::Record(frame);
        return Some(Event::Offer { to, source });
    }
    quiet_event_of(words)
}

/// An event that brings nothing: a pruning, a lead, a question, a timeout or a beat.
fn quiet_event_of(words: &str) -> Option<Event>
    ensures { IsReadOf event_text IsQuiet words.now result }
{
    if let Some(fields) = words.strip_prefix("prune ") {
        let (replica, height) = pruning_of(fields)?;
        return Some(Event::Prune { replica, height });
    }
    if let Some(fields) = words.strip_prefix("lead ") {
        let (replica, block) = lead_of(fields)?;
        return Some(Event::Lead { replica, block });
    }
    if let Some(fields) = words.strip_prefix("ask ") {
        let (replica, to, block) = question_of(fields)?;
        return Some(Event::Ask { replica, to, block });
    }
    timer_of(words)
}

/// A replica, and the height up to which it may prune.
fn pruning_of(fields: &str) -> Option<(ReplicaId, Height)>
    ensures { IsReadOf pruning_text IsPruning fields.now result }
{
    let (replica, height) = fields.split_once(' ')?;
    Some((replica_of(replica)?, Height(number_of(height)?)))
}

/// A timeout or a beat.
fn timer_of(words: &str) -> Option<Event>
    ensures { IsReadOf event_text IsTimer words.now result }
{
    match words.strip_prefix("timeout ") {
        Some(word) => Some(Event::Timeout(replica_of(word)?)),
        None => Some(Event::Beat(replica_of(words.strip_prefix("beat ")?)?)),
    }
}

/// A frame, and where it is brought to.
fn delivery_of(fields: &str) -> Option<(u64, PartyId)>
    ensures { IsReadOf delivery_text IsDelivery fields.now result }
{
    let (frame, to) = fields.split_once(' ')?;
    Some((number_of(frame)?, party_of(to)?))
}
