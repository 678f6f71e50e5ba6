//! What a run tells: frames, answers and receipts.

ghost use Rattle.std.specs.Prelude.{◌≡◌, suc, [], ◌∷◌, ◌++◌, length, map, OnOk, OnErr};
ghost use Rattle.std.specs.Option.{option_to_list};
ghost use Rattle.signed_frames.specs.Outs.{sent_of};
ghost use Rattle.world_schedule.specs.Outcomes.{shown_frame, accepted_by};

use crate::effect::Effect;
use crate::outcome::{Accepted, History, Outcome, SentFrame};
use client_accept::Receipt;
use ids::{ClientId, Fault};
use replica::Sending;
use std::alloc::Global;

/// The record of sent frames, the answers and the receipts so far.
#[derive(Drop)]
pub(crate) struct Journal {
    pub(crate) frames: Vec<SentFrame>,
    pub(crate) answers: Vec<Option<Fault>>,
    receipts: Vec<Accepted>,
}

/// Appends a frame that was sent in an event.
fn note_frame(frames: &mut Vec<SentFrame>, event: u64, sending: Sending) -> Result<(), Fault>
    ensures noted { OnOk result (map shown_frame frames.new.items
        ≡ map shown_frame frames.old.items ++ (event, sent_of sending) ∷ []) }
    ensures memory { OnErr result (result ≡ Err Fault.Memory) }
{
    let Sending { to, kind, frame } = sending;
    frames.push(SentFrame {
        event,
        to,
        kind,
        frame,
    })?;
    Ok(())
}

/// Appends what was sent in an event.
fn note_frames(frames: &mut Vec<SentFrame>, event: u64, out: Vec<Sending>) -> Result<(), Fault>
    ensures noted { OnOk result (map shown_frame frames.new.items
        ≡ map shown_frame frames.old.items ++ map (λ o. (event, sent_of o)) out.items) }
    ensures memory { OnErr result (result ≡ Err Fault.Memory) }
{
    for sending in out {
        note_frame(frames, event, sending)?;
    }
    Ok(())
}

/// Appends what was accepted in an event, if anything.
fn note_receipt(
    receipts: &mut Vec<Accepted>,
    event: u64,
    accepted: Option<(ClientId, Receipt)>,
) -> Result<(), Fault>
    ensures noted { OnOk result (map accepted_by receipts.new.items ≡ map accepted_by receipts.old.items
        ++ map (λ a. record { event = event; client = a.0; receipt = a.1 }) (option_to_list accepted)) }
    ensures memory { OnErr result (result ≡ Err Fault.Memory) }
{
    if let Some((client, receipt)) = accepted {
        receipts.push(Accepted {
            event,
            client,
            receipt,
        })?;
    }
    Ok(())
}

impl Journal {
    /// Nothing happened yet.
    pub(crate) fn new(alloc: Global) -> Journal
        ensures frames { result.frames.items ≡ [] }
        ensures answers { result.answers.items ≡ [] }
        ensures receipts { result.receipts.items ≡ [] }
    {
        Journal {
            frames: Vec::new(alloc),
            answers: Vec::new(alloc),
            receipts: Vec::new(alloc),
        }
    }

    /// Appends what the next event comes to.
    pub(crate) fn note(&mut self, effect: Effect) -> Result<(), Fault>
        ensures frames { OnOk result
            (map shown_frame self.new.frames.items ≡ map shown_frame self.old.frames.items
            ++ map (λ o. (suc (length self.old.answers.items), sent_of o)) effect.out.items) }
        ensures receipts { OnOk result
            (map accepted_by self.new.receipts.items ≡ map accepted_by self.old.receipts.items
            ++ map
            (λ a. record { event = suc (length self.old.answers.items); client = a.0; receipt = a.1 })
            (option_to_list effect.accepted)) }
        ensures answers { OnOk result
            (self.new.answers.items ≡ self.old.answers.items ++ effect.answer ∷ []) }
        ensures memory { OnErr result (result ≡ Err Fault.Memory) }
    {
        let event = self.answers.len() as u64 + 1;
        let Effect {
            out,
            accepted,
            answer,
        } = effect;
        note_frames(&mut self.frames, event, out)?;
        note_receipt(&mut self.receipts, event, accepted)?;
        self.answers.push(answer)?;
        Ok(())
    }

    /// All that was told.
    pub(crate) fn into_outcome(self, histories: Vec<History>) -> Outcome
        ensures frames { result.frames ≡ self.frames }
        ensures answers { result.answers ≡ self.answers }
        ensures receipts { result.receipts ≡ self.receipts }
        ensures histories { result.histories ≡ histories }
    {
        let Journal {
            frames,
            answers,
            receipts,
        } = self;
        Outcome {
            frames,
            answers,
            receipts,
            histories,
        }
    }
}
