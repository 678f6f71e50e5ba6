//! Which clients are at which front.

use crate::refusal::Refusal;
use deployment::Deployment;
use ids::{ClientId, PartyId};
use key_file::Holder;
use std::alloc::{AllocError, Global};

/// The clients of one front: so many from one on.
#[derive(Clone, Copy)]
pub(crate) struct Front {
    pub(crate) first: ClientId,
    pub(crate) count: u8,
}

impl Front {
    /// As which party it is known: its first client's.
    pub(crate) fn party(&self) -> PartyId {
        PartyId::from(self.first)
    }

    /// Whether a client is at it.
    fn has(&self, client: ClientId) -> bool {
        client
            .0
            .checked_sub(self.first.0)
            .is_some_and(|place| place < self.count)
    }
}

/// All fronts of a deployment, by number.
#[derive(Drop)]
pub(crate) struct Fronts {
    all: Vec<Front>,
}

impl Fronts {
    /// Those of a deployment: they take the clients in order.
    pub(crate) fn of(alloc: Global, deployment: &Deployment<'_>) -> Result<Fronts, AllocError> {
        let mut all = Vec::new(alloc);
        let mut first = 0u8;
        for count in deployment.fronts() {
            all.push(Front {
                first: ClientId(first),
                count: *count,
            })?;
            first = first.saturating_add(*count);
        }
        Ok(Fronts { all })
    }

    /// How many there are.
    pub(crate) fn len(&self) -> u8 {
        u8::try_from(self.all.len()).unwrap_or(u8::MAX)
    }

    /// The front of a number, if there is one.
    pub(crate) fn get(&self, number: u8) -> Option<Front> {
        self.all.get(usize::from(number)).copied()
    }

    /// The number of the front that is known as this party, if one is.
    pub(crate) fn number_of(&self, party: PartyId) -> Option<u8> {
        let place = self.all.iter().position(|front| front.party() == party)?;
        u8::try_from(place).ok()
    }

    /// The front at which a client is.
    pub(crate) fn of_client(&self, client: ClientId) -> Option<Front> {
        self.all.iter().find(|front| front.has(client)).copied()
    }

    /// All of them.
    pub(crate) fn all(&self) -> &[Front] {
        &self.all
    }
}

/// Whose keys the front of a number holds: those of its clients.
pub fn holder_of_front(
    alloc: Global,
    deployment: &Deployment<'_>,
    number: u8,
) -> Result<Holder, Refusal> {
    match Fronts::of(alloc, deployment)?.get(number) {
        Some(front) => Ok(Holder::Clients(front.first, front.count)),
        None => Err(Refusal::NoSuchPlace),
    }
}
