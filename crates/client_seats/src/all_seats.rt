//! The seats of all clients of a deployment.

ghost use Rattle.std.specs.Prelude.{◌≡◌, ◌⊎◌, Err, IfOk, OnErr, map};
ghost use Rattle.std.specs.List.{range_with_len};
ghost use Rattle.ids.specs.declared.fault.Fault.TheVariants.{Memory, NoSuchParty};
ghost use Rattle.client_seats.specs.Seating.{seated, sits};

use crate::client_seat::{ClientSeat, seat};
use client_accept::Session;
use fabric::{ClientEnd, Requests};
use ids::{ClientId, Fault, Seq};
use key_file::PairKeys;
use std::sync::{Arc, Wait};
use std::time::Clock;
use tcp_front::Seats;

/// A seat for each client of a deployment, at the ends where their replies come out. So many of the lowest numbers lie.
/// `NoSuchParty` where there are fewer ends; `Memory`.
pub fn seats<R: Wait + Clock + AllocGlobal + Clone + Drop, Q: Requests + Drop>(
    rt: &R,
    requests: &Arc<Q>,
    keys: &PairKeys,
    ends: Vec<ClientEnd>,
    liars: u8,
) -> Result<Seats<ClientSeat<R, Q>>, Fault>
    ensures seated { IfOk result (λ seats. map sits seats
        ≡ map (seated keys.now liars) (range_with_len 0 keys.now.sizes.clients)) }
    ensures refused { OnErr result ((result ≡ Err Memory) ⊎ (result ≡ Err NoSuchParty)) }
{
    let (alloc, config) = (rt.alloc(), keys.config());
    let mut ends = ends.into_iter();
    let mut seats = Vec::new(alloc);
    for number in 0..config.clients() {
        let Some(frames) = ends.next() else {
            return Err(Fault::NoSuchParty);
        };
        seats.reserve(1)?;
        let (client, lies) = (ClientId(number), number < liars);
        let keyring = keys.keyring(alloc, client.into())?;
        let session = Session::resume(alloc, config, client, keyring, Seq(0));
        let seated = seat(rt, requests, session, frames, lies)?;
        seats.push_reserved(seated);
    }
    Seats::new(alloc, seats)
}
