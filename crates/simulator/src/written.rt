//! Events, written as lines of a schedule.

ghost use Rattle.std.specs.Prelude.{◌≡◌, ◌++◌, codes, OnOk, OnErr};
ghost use Rattle.std.specs.List.{flat_map};
ghost use Rattle.ids.specs.declared.fault.Fault.TheVariants.{Memory};
ghost use Rattle.run_report.specs.Names.{replica_text, client_text};
ghost use Rattle.simulator.specs.Texts.{party_text};
ghost use Rattle.simulator.specs.Lines.{event_text, submission_text, delivery_text, injection_text, pruning_text};
ghost use Rattle.simulator.specs.Lines.{offer_text, offered_text, source_text, sources_text, gathering_text};
ghost use Rattle.simulator.specs.Lines.{lead_text, question_text};
ghost use Rattle.simulator.specs.Schedules.{ended};

use appending::append;
use ids::{ClientId, Digest, Fault, Height, PartyId, ReplicaId};
use itoa::Buffer;
use std::alloc::Global;
use world_schedule::{Event, Source};

/// A party's letter and number.
fn party_word(party: PartyId, digits: &mut Buffer) -> (&'static str, &str)
    ensures { result.0.now ++ result.1.now ≡ party_text party }
{
    match party.client() {
        None => ("r", digits.format(party.0)),
        Some(client) => ("c", digits.format(client)),
    }
}

/// The line of a timeout or a beat.
fn put_timer(text: &mut Vec<u8>, word: &str, replica: ReplicaId) -> Result<(), Fault>
    ensures put { OnOk result (text.new.items ≡ text.old.items ++ ended (word.now ++ replica_text replica)) }
    ensures memory { OnErr result (result ≡ Err Memory) }
{
    let mut digits = Buffer::new();
    let number = digits.format(replica.0).as_bytes();
    append(text, &[word.as_bytes(), b"r", number, b"\n"])
}

/// The line of a frame that comes to a party.
fn put_relay(text: &mut Vec<u8>, frame: u64, to: PartyId) -> Result<(), Fault>
    ensures put { OnOk result
        (text.new.items ≡ text.old.items ++ ended (codes "relay " ++ delivery_text (frame, to))) }
    ensures memory { OnErr result (result ≡ Err Memory) }
{
    let mut frame_digits = Buffer::new();
    let frame = frame_digits.format(frame).as_bytes();
    let mut party_digits = Buffer::new();
    let (letter, party) = party_word(to, &mut party_digits);
    let (letter, party) = (letter.as_bytes(), party.as_bytes());
    append(text, &[b"relay ", frame, b" ", letter, party, b"\n"])
}

/// The line of a frame that is offered to a replica.
fn put_offer(text: &mut Vec<u8>, frame: u64, to: ReplicaId) -> Result<(), Fault>
    ensures put { OnOk result
        (text.new.items ≡ text.old.items ++ ended (codes "offer " ++ offer_text (frame, to))) }
    ensures memory { OnErr result (result ≡ Err Memory) }
{
    let mut frame_digits = Buffer::new();
    let frame = frame_digits.format(frame).as_bytes();
    let mut party_digits = Buffer::new();
    let to = party_digits.format(to.0).as_bytes();
    append(text, &[b"offer ", frame, b" ", b"r", to, b"\n"])
}

/// The line of a pruning.
fn put_pruning(text: &mut Vec<u8>, replica: ReplicaId, height: Height) -> Result<(), Fault>
    ensures put { OnOk result
        (text.new.items ≡ text.old.items ++ ended (codes "prune " ++ pruning_text (replica, height))) }
    ensures memory { OnErr result (result ≡ Err Memory) }
{
    let mut digits = Buffer::new();
    let replica = digits.format(replica.0).as_bytes();
    let mut height_digits = Buffer::new();
    let height = height_digits.format(height.0).as_bytes();
    append(text, &[b"prune ", b"r", replica, b" ", height, b"\n"])
}

/// The line of a submission.
fn put_submission(
    alloc: Global,
    text: &mut Vec<u8>,
    client: ClientId,
    payload: &Vec<u8>,
) -> Result<(), Fault>
    ensures put { OnOk result
        (text.new.items ≡ text.old.items ++ ended (codes "submit " ++ submission_text (client, payload.now))) }
    ensures memory { OnErr result (result ≡ Err Memory) }
{
    let bytes = hex::encode(alloc, payload.as_slice())?;
    let mut digits = Buffer::new();
    let client = digits.format(client.0).as_bytes();
    append(
        text,
        &[b"submit ", b"c", client, b" ", bytes.as_bytes(), b"\n"],
    )
}

/// The line of bytes that come to a party.
fn put_injection(
    alloc: Global,
    text: &mut Vec<u8>,
    to: PartyId,
    injected: &Vec<u8>,
) -> Result<(), Fault>
    ensures put { OnOk result
        (text.new.items ≡ text.old.items ++ ended (codes "inject " ++ injection_text (to, injected.now))) }
    ensures memory { OnErr result (result ≡ Err Memory) }
{
    let bytes = hex::encode(alloc, injected.as_slice())?;
    let mut digits = Buffer::new();
    let (letter, party) = party_word(to, &mut digits);
    let (letter, party) = (letter.as_bytes(), party.as_bytes());
    append(
        text,
        &[b"inject ", letter, party, b" ", bytes.as_bytes(), b"\n"],
    )
}

/// The line of bytes that are offered to a replica.
fn put_offered(
    alloc: Global,
    text: &mut Vec<u8>,
    to: ReplicaId,
    offered: &Vec<u8>,
) -> Result<(), Fault>
    ensures put { OnOk result
        (text.new.items ≡ text.old.items ++ ended (codes "offer-bytes " ++ offered_text (to, offered.now))) }
    ensures memory { OnErr result (result ≡ Err Memory) }
{
    let bytes = hex::encode(alloc, offered.as_slice())?;
    let mut digits = Buffer::new();
    let to = digits.format(to.0).as_bytes();
    append(
        text,
        &[b"offer-bytes ", b"r", to, b" ", bytes.as_bytes(), b"\n"],
    )
}

/// The line of a lead.
fn put_lead(
    alloc: Global,
    text: &mut Vec<u8>,
    replica: ReplicaId,
    block: &Digest,
) -> Result<(), Fault>
    ensures put { OnOk result
        (text.new.items ≡ text.old.items ++ ended (codes "lead " ++ lead_text (replica, block.now))) }
    ensures memory { OnErr result (result ≡ Err Memory) }
{
    let block = hex::encode(alloc, block.0.as_slice())?;
    let mut digits = Buffer::new();
    let replica = digits.format(replica.0).as_bytes();
    append(
        text,
        &[b"lead ", b"r", replica, b" ", block.as_bytes(), b"\n"],
    )
}

/// The line of a question.
fn put_question(
    alloc: Global,
    text: &mut Vec<u8>,
    replica: ReplicaId,
    to: ReplicaId,
    block: &Digest,
) -> Result<(), Fault>
    ensures put { OnOk result
        (text.new.items ≡ text.old.items ++ ended (codes "ask " ++ question_text (replica, to, block.now))) }
    ensures memory { OnErr result (result ≡ Err Memory) }
{
    let block = hex::encode(alloc, block.0.as_slice())?;
    let mut digits = Buffer::new();
    let replica = digits.format(replica.0).as_bytes();
    let mut other_digits = Buffer::new();
    let to = other_digits.format(to.0).as_bytes();
    append(
        text,
        &[
            b"ask ",
            b"r",
            replica,
            b" ",
            b"r",
            to,
            b" ",
            block.as_bytes(),
            b"\n",
        ],
    )
}

/// A source behind a space.
fn put_source(alloc: Global, text: &mut Vec<u8>, source: &Source) -> Result<(), Fault>
    ensures put { OnOk result (text.new.items ≡ text.old.items ++ (codes " " ++ source_text source.now)) }
    ensures memory { OnErr result (result ≡ Err Memory) }
{
    match source {
        Source::Record(frame) => {
            let mut digits = Buffer::new();
            append(text, &[b" ", digits.format(*frame).as_bytes()])
        }
        Source::Bytes(bytes) => {
            let digits = hex::encode(alloc, bytes.as_slice())?;
            append(text, &[b" ", b"x", digits.as_bytes()])
        }
    }
}

/// Sources, each behind a space.
fn put_sources(alloc: Global, text: &mut Vec<u8>, sources: &[Source]) -> Result<(), Fault>
    ensures put { OnOk result (text.new.items ≡ text.old.items ++ sources_text sources.now) }
    ensures memory { OnErr result (result ≡ Err Memory) }
{
    for source in sources {
        put_source(alloc, text, source)?;
    }
    Ok(())
}

/// The line of copies that come together.
fn put_gathering(
    alloc: Global,
    text: &mut Vec<u8>,
    to: ReplicaId,
    sources: &Vec<Source>,
) -> Result<(), Fault>
    ensures put { OnOk result
        (text.new.items ≡ text.old.items ++ ended (codes "gather " ++ gathering_text (to, sources.now))) }
    ensures memory { OnErr result (result ≡ Err Memory) }
{
    let mut digits = Buffer::new();
    append(text, &[b"gather ", b"r", digits.format(to.0).as_bytes()])?;
    put_sources(alloc, text, sources)?;
    append(text, &[b"\n"])
}

/// The line of an event.
pub(crate) fn put_event(alloc: Global, text: &mut Vec<u8>, event: &Event) -> Result<(), Fault>
    ensures put { OnOk result (text.new.items ≡ text.old.items ++ ended (event_text event.now)) }
    ensures memory { OnErr result (result ≡ Err Memory) }
{
    match event {
        Event::Submit { client, payload } => put_submission(alloc, text, *client, payload),
        Event::Relay { frame, to } => put_relay(text, *frame, *to),
        Event::Inject { to, bytes } => put_injection(alloc, text, *to, bytes),
        Event::Timeout(replica) => put_timer(text, "timeout ", *replica),
        Event::Beat(replica) => put_timer(text, "beat ", *replica),
        Event::Prune { replica, height } => put_pruning(text, *replica, *height),
        Event::Offer { to, source } => match source {
            Source::Record(frame) => put_offer(text, *frame, *to),
            Source::Bytes(bytes) => put_offered(alloc, text, *to, bytes),
        },
        Event::Gather { to, sources } => put_gathering(alloc, text, *to, sources),
        Event::Lead { replica, block } => put_lead(alloc, text, *replica, block),
        Event::Ask { replica, to, block } => put_question(alloc, text, *replica, *to, block),
    }
}

/// The lines of events.
pub(crate) fn put_events(alloc: Global, text: &mut Vec<u8>, events: &[Event]) -> Result<(), Fault>
    ensures put { OnOk result
        (text.new.items ≡ text.old.items ++ flat_map (λ e. ended (event_text e)) events.now) }
    ensures memory { OnErr result (result ≡ Err Memory) }
{
    for event in events {
        put_event(alloc, text, event)?;
    }
    Ok(())
}
