//! A run that is judged.

use ids::{ClientId, Fault, PartyId, ReplicaId, Seq};
use world_schedule::{Event, Outcome, World};

/// A run: the world that it began in, its events, and what came of them.
#[derive(Drop)]
pub(crate) struct Run<'a> {
    pub(crate) world: &'a World,
    pub(crate) events: &'a [Event],
    pub(crate) outcome: &'a Outcome,
}

/// A request that a client submitted: in which event, counted from 1, and what it asked.
#[derive(Drop)]
pub(crate) struct Submission<'a> {
    pub(crate) event: u64,
    pub(crate) payload: &'a [u8],
}

/// The number, from 1, of what has so many before it: of an event, or of a place.
pub(crate) fn number_of(before: usize) -> u64 {
    (before as u64).saturating_add(1)
}

impl<'a> Run<'a> {
    /// A run of these events.
    pub(crate) fn new(world: &'a World, events: &'a [Event], outcome: &'a Outcome) -> Run<'a> {
        Run {
            world,
            events,
            outcome,
        }
    }

    /// What the event with so many before it was answered.
    pub(crate) fn answer(&self, before: usize) -> Option<Fault> {
        match self.outcome.answers.get(before) {
            Some(answer) => *answer,
            None => None,
        }
    }

    /// Whether the event of this number, from 1, was refused memory.
    pub(crate) fn is_refused(&self, event: u64) -> bool {
        match usize::try_from(event.wrapping_sub(1)) {
            Ok(before) => self.answer(before) == Some(Fault::Memory),
            Err(_) => false,
        }
    }

    /// Whether a client is there, and isn't faulty.
    pub(crate) fn is_correct(&self, client: ClientId) -> bool {
        client.0 < self.world.config().clients() && !self.world.is_faulty(PartyId::from(client))
    }

    /// The correct replica that an event reaches, if any.
    pub(crate) fn reached(&self, event: &Event) -> Option<ReplicaId> {
        let party = match event {
            Event::Submit { .. } => return None,
            Event::Relay { to, .. } | Event::Inject { to, .. } => *to,
            Event::Offer { to, .. } | Event::Gather { to, .. } => PartyId::from(*to),
            Event::Timeout(replica)
            | Event::Beat(replica)
            | Event::Prune { replica, .. }
            | Event::Lead { replica, .. }
            | Event::Ask { replica, .. } => PartyId::from(*replica),
        };
        let number = u8::try_from(party.0).ok()?;
        if self.world.is_faulty(party) {
            return None;
        }
        Some(ReplicaId(number))
    }

    /// The request to which a client gave this number: it numbers what it sends, from 1.
    pub(crate) fn submission(&self, client: ClientId, seq: Seq) -> Option<Submission<'a>> {
        let mut sent = 0u64;
        for (before, event) in self.events.iter().enumerate() {
            if let Event::Submit {
                client: by,
                payload,
            } = event
            {
                if *by == client && self.answer(before).is_none() {
                    sent = sent.saturating_add(1);
                    if sent == seq.0 {
                        let event = number_of(before);
                        return Some(Submission { event, payload });
                    }
                }
            }
        }
        None
    }
}
