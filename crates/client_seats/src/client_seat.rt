//! The seat of one client.

ghost use Rattle.std.specs.Prelude.{◌≡◌, Err, IfOk, OnErr};
ghost use Rattle.ids.specs.declared.fault.Fault.TheVariants.{Memory};

use crate::link::ClientLink;
use client_accept::Session;
use client_service::ClientService;
use fabric::{ClientEnd, Requests};
use ids::Fault;
use std::sync::{Arc, Wait};
use std::time::Clock;

/// What serves at a client's seat: its service, over whatever carries its requests.
pub type ClientSeat<R, Q> = ClientService<ClientLink<R, Q>>;

/// The seat of a client with this session, at the end where its replies come out. It lies, or doesn't. `Memory` is its one
/// refusal.
pub fn seat<R: Wait + Clock + AllocGlobal + Clone + Drop, Q: Requests>(
    rt: &R,
    requests: &Arc<Q>,
    session: Session,
    frames: ClientEnd,
    lies: bool,
) -> Result<ClientSeat<R, Q>, Fault>
    ensures session { IfOk result (λ seat. seat.session ≡ session) }
    ensures lies { IfOk result (λ seat. seat.link.lies ≡ lies) }
    ensures refused { OnErr result (result ≡ Err Memory) }
{
    let link = ClientLink::new(rt.clone()?, Arc::try_clone(requests)?, frames, lies);
    Ok(ClientService::new(rt.alloc(), session, link))
}
