//! What an event does beside its change of a party.

ghost use Rattle.std.specs.Prelude.{◌≡◌, [], ◌∷◌, map, None, IfOk, OnErr};
ghost use Rattle.definitions.specs.Checks.{Identity};
ghost use Rattle.signed_frames.specs.Outs.{sent_of};
ghost use Rattle.world_schedule.specs.Asking.{TellsAnswer};

use client_accept::Receipt;
use ids::{ClientId, Fault};
use replica::{Out, Sending};
use std::alloc::Global;

/// What a party sends and accepts in an event, and the refusal that it is answered, if any.
#[derive(Drop)]
pub(crate) struct Effect {
    pub(crate) out: Vec<Sending>,
    pub(crate) accepted: Option<(ClientId, Receipt)>,
    pub(crate) answer: Option<Fault>,
}

impl Effect {
    /// Nothing but an answer.
    pub(crate) fn only(alloc: Global, answer: Option<Fault>) -> Effect
        ensures out { result.out.items ≡ [] }
        ensures accepted { result.accepted ≡ None }
        ensures answer { result.answer ≡ answer }
    {
        Effect {
            out: Vec::new(alloc),
            accepted: None,
            answer,
        }
    }

    /// What a step sends.
    pub(crate) fn sends(out: Out) -> Effect
        ensures out { map sent_of result.out.items ≡ out }
        ensures accepted { result.accepted ≡ None }
        ensures answer { result.answer ≡ None }
    {
        Effect {
            out: out.into_sendings(),
            accepted: None,
            answer: None,
        }
    }

    /// What is told of an answer, where nobody is asked for a block.
    pub(crate) fn answers(alloc: Global, answer: Result<Out, Fault>) -> Effect
        ensures { (self : Identity) → TellsAnswer self None answer result }
    {
        match answer {
            Ok(out) => Effect::sends(out),
            Err(fault) => Effect::only(alloc, Some(fault)),
        }
    }

    /// One frame, with an answer.
    pub(crate) fn one(
        alloc: Global,
        sending: Sending,
        answer: Option<Fault>,
    ) -> Result<Effect, Fault>
        ensures out { IfOk result (λ e. map sent_of e.out.items ≡ sent_of sending ∷ []) }
        ensures accepted { IfOk result (λ e. e.accepted ≡ None) }
        ensures answer { IfOk result (λ e. e.answer ≡ answer) }
        ensures memory { OnErr result (result ≡ Err Fault.Memory) }
    {
        let mut out = Vec::new(alloc);
        out.push(sending)?;
        Ok(Effect {
            out,
            accepted: None,
            answer,
        })
    }
}
