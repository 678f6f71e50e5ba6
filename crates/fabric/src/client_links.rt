//! The links of a range of clients.

ghost use Rattle.std.specs.Prelude.{◌≡◌, IfOk, vec_len};

use crate::client_end::{ClientEnd, ClientStart, NotTold, client_link};
use bytes::Bytes;
use ids::{ClientId, Config, ReplicaId};
use std::alloc::{AllocError, Global};
use std::sync::Wait;
use std::sync::atomic::AtomicU64;

/// Where replies for clients in a row are handed in. Threads share them by reference.
#[derive(Drop)]
pub struct ClientLinks {
    first: ClientId,
    starts: Vec<ClientStart>,
}

/// So many counters at 0.
pub(crate) fn counters(alloc: Global, count: usize) -> Result<Vec<AtomicU64>, AllocError> {
    let mut counters = Vec::new(alloc);
    for _ in 0..count {
        counters.push(AtomicU64::new(0))?;
    }
    Ok(counters)
}

/// The two ends of so many clients' links.
fn both_ends(
    alloc: Global,
    config: Config,
    count: usize,
) -> Result<(Vec<ClientStart>, Vec<ClientEnd>), AllocError>
    ensures { IfOk result (λ r. (vec_len r.0 ≡ count) × (vec_len r.1 ≡ count)) }
{
    let mut starts = Vec::with_capacity(alloc, count)?;
    let mut ends = Vec::with_capacity(alloc, count)?;
    for _ in 0..count {
        let counters = counters(alloc, usize::from(config.n()))?;
        let (start, end) = client_link(alloc, counters, config.faults())?;
        starts.push_reserved(start);
        ends.push_reserved(end);
    }
    Ok((starts, ends))
}

impl ClientLinks {
    /// The links of so many clients from one on, in which nothing waits, and the ends at which their replies come out.
    pub fn new(
        alloc: Global,
        config: Config,
        first: ClientId,
        count: u8,
    ) -> Result<(ClientLinks, Vec<ClientEnd>), AllocError>
        ensures { IfOk result (λ r. vec_len r.1 ≡ count) }
    {
        let (starts, ends) = both_ends(alloc, config, usize::from(count))?;
        Ok((ClientLinks { first, starts }, ends))
    }

    /// The link of a client, if it is among these.
    fn of(&self, client: ClientId) -> Option<&ClientStart> {
        let place = client.0.checked_sub(self.first.0)?;
        self.starts.get(usize::from(place))
    }

    /// Hands in a replica's frame at a client's link. What can't be handed in is lost, as on any network.
    pub fn hand_in<R: Wait>(
        &self,
        rt: &R,
        from: ReplicaId,
        to: ClientId,
        frame: Bytes,
    ) -> Result<(), NotTold> {
        match self.of(to) {
            Some(start) => start.hand_in(rt, from, frame),
            None => Err(NotTold::NoSuchClient),
        }
    }
}
