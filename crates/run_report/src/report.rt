//! What is told of a run, line by line.

ghost use Rattle.std.specs.Prelude.{◌≡◌, ◌+◌, ◌^◌, ◌<◌, ◌++◌, codes, length, OnOk, OnErr, IfOk};
ghost use Rattle.std.specs.List.{flat_map};
ghost use Rattle.run_report.specs.Reports.{answer_text, destination_text, frame_text};
ghost use Rattle.run_report.specs.Reports.{frames_text, receipt_text, history_text, other_frame, sent_in};
ghost use Rattle.run_report.specs.Reports.{other_receipt, accepted_in, outcome_text};

use appending::append;
use ids::Fault;
use itoa::Buffer;
use signed_frames::To;
use std::alloc::Global;
use world_schedule::{Accepted, History, Outcome, SentFrame};

/// The line of an event: `e1 ok`, or `e1 fault 10`.
fn tell_answer(text: &mut Vec<u8>, event: u64, answer: Option<Fault>) -> Result<(), Fault>
    ensures told { OnOk result (text.new.items ≡ text.old.items ++ answer_text event answer) }
    ensures memory { OnErr result (result ≡ Err Fault.Memory) }
{
    let mut event_digits = Buffer::new();
    let event = event_digits.format(event).as_bytes();
    match answer {
        None => append(text, &[b"e", event, b" ok", b"\n"]),
        Some(fault) => {
            let mut fault_digits = Buffer::new();
            let number = fault_digits.format(fault.number()).as_bytes();
            append(text, &[b"e", event, b" fault ", number, b"\n"])
        }
    }
}

/// Where a frame goes: `all`, or a party's letter and number.
fn destination(to: To, digits: &mut Buffer) -> (&'static str, &str)
    ensures { result.0.now ++ result.1.now ≡ destination_text to }
{
    match to {
        To::All => ("all", ""),
        To::Replica(replica) => ("r", digits.format(replica.0)),
        To::Client(client) => ("c", digits.format(client.0)),
    }
}

/// The line of a sent frame: `f0 Proposal 220 to all`.
fn tell_frame(text: &mut Vec<u8>, number: u64, sent: &SentFrame) -> Result<(), Fault>
    ensures told { OnOk result (text.new.items ≡ text.old.items ++ frame_text number sent.now) }
    ensures memory { OnErr result (result ≡ Err Fault.Memory) }
{
    let mut number_digits = Buffer::new();
    let number = number_digits.format(number).as_bytes();
    let mut size_digits = Buffer::new();
    let size = size_digits.format(sent.frame.len() as u64).as_bytes();
    let kind = sent.kind.name().as_bytes();
    let mut party_digits = Buffer::new();
    let (letter, party) = destination(sent.to, &mut party_digits);
    let (letter, party) = (letter.as_bytes(), party.as_bytes());
    append(
        text,
        &[
            b"f", number, b" ", kind, b" ", size, b" to ", letter, party, b"\n",
        ],
    )
}

/// The lines of frames, of which the first has this number.
fn tell_frames(text: &mut Vec<u8>, first: u64, frames: &[SentFrame]) -> Result<(), Fault>
    requires { first + length frames.now < 2 ^ 64 }
    ensures told { OnOk result (text.new.items ≡ text.old.items ++ frames_text first frames.now) }
    ensures memory { OnErr result (result ≡ Err Fault.Memory) }
{
    let mut number = first;
    for sent in frames {
        tell_frame(text, number, sent)?;
        number += 1;
    }
    Ok(())
}

/// The line of a receipt: `accepted c0 seq 1 place 1 53544f5245440d0a`.
fn tell_receipt(alloc: Global, text: &mut Vec<u8>, accepted: &Accepted) -> Result<(), Fault>
    ensures told { OnOk result (text.new.items ≡ text.old.items ++ receipt_text accepted.now) }
    ensures memory { OnErr result (result ≡ Err Fault.Memory) }
{
    let mut client_digits = Buffer::new();
    let client = client_digits.format(accepted.client.0).as_bytes();
    let mut seq_digits = Buffer::new();
    let seq = seq_digits.format(accepted.receipt.seq.0).as_bytes();
    let mut place_digits = Buffer::new();
    let place = place_digits.format(accepted.receipt.place.0).as_bytes();
    let reply = hex::encode(alloc, accepted.receipt.text.as_slice())?;
    let reply = reply.as_bytes();
    append(
        text,
        &[
            b"accepted ",
            b"c",
            client,
            b" seq ",
            seq,
            b" place ",
            place,
            b" ",
            reply,
            b"\n",
        ],
    )
}

/// The lines of receipts.
fn tell_receipts(alloc: Global, text: &mut Vec<u8>, receipts: &[Accepted]) -> Result<(), Fault>
    ensures told { OnOk result (text.new.items ≡ text.old.items ++ flat_map receipt_text receipts.now) }
    ensures memory { OnErr result (result ≡ Err Fault.Memory) }
{
    for accepted in receipts {
        tell_receipt(alloc, text, accepted)?;
    }
    Ok(())
}

/// The line of a replica's history: `h0 1`.
fn tell_history(text: &mut Vec<u8>, history: &History) -> Result<(), Fault>
    ensures told { OnOk result (text.new.items ≡ text.old.items ++ history_text history.now) }
    ensures memory { OnErr result (result ≡ Err Fault.Memory) }
{
    let mut replica_digits = Buffer::new();
    let replica = replica_digits.format(history.replica().0).as_bytes();
    let mut length_digits = Buffer::new();
    let length = length_digits.format(history.len() as u64).as_bytes();
    append(text, &[b"h", replica, b" ", length, b"\n"])
}

/// The lines of histories.
fn tell_histories(text: &mut Vec<u8>, histories: &[History]) -> Result<(), Fault>
    ensures told { OnOk result (text.new.items ≡ text.old.items ++ flat_map history_text histories.now) }
    ensures memory { OnErr result (result ≡ Err Fault.Memory) }
{
    for history in histories {
        tell_history(text, history)?;
    }
    Ok(())
}

/// The place of the first frame that was sent in another event.
fn other_frame(frames: &[SentFrame], event: u64) -> Option<usize>
    ensures { result ≡ other_frame event frames.now }
{
    frames.iter().position(|sent| sent.event != event)
}

/// How many frames, from the first on, were sent in an event.
fn sent_in(frames: &[SentFrame], event: u64) -> usize
    ensures { result ≡ sent_in event frames.now }
{
    other_frame(frames, event).unwrap_or(frames.len())
}

/// The place of the first receipt of another event.
fn other_receipt(receipts: &[Accepted], event: u64) -> Option<usize>
    ensures { result ≡ other_receipt event receipts.now }
{
    receipts.iter().position(|accepted| accepted.event != event)
}

/// How many receipts, from the first on, are of an event.
fn accepted_in(receipts: &[Accepted], event: u64) -> usize
    ensures { result ≡ accepted_in event receipts.now }
{
    other_receipt(receipts, event).unwrap_or(receipts.len())
}

/// What is told of a run: each event with what was sent and accepted in it, and then the histories
/// (docs/SCHEDULES.md has the lines).
pub fn text_of(alloc: Global, outcome: &Outcome) -> Result<Vec<u8>, Fault>
    ensures told { IfOk result (λ text. text.items ≡ outcome_text outcome.now) }
    ensures memory { OnErr result (result ≡ Err Fault.Memory) }
{
    let mut text = Vec::new(alloc);
    let mut frames = outcome.frames.as_slice();
    let mut receipts = outcome.receipts.as_slice();
    let mut number = 0;
    for (before, answer) in outcome.answers.iter().enumerate() {
        let event = before as u64 + 1;
        tell_answer(&mut text, event, *answer)?;
        let (sent, left) = frames.split_at(sent_in(frames, event));
        tell_frames(&mut text, number, sent)?;
        number += sent.len() as u64;
        frames = left;
        let (accepted, left) = receipts.split_at(accepted_in(receipts, event));
        tell_receipts(alloc, &mut text, accepted)?;
        receipts = left;
    }
    tell_histories(&mut text, &outcome.histories)?;
    Ok(text)
}
