//! What a process knows of its peers before they meet.

use crate::fronts::Fronts;
use crate::refusal::Refusal;
use deployment::Deployment;
use handshake::{Endpoint, Life};
use ids::{PartyId, ReplicaId};
use key_file::HeldKeys;
use std::alloc::{AllocError, Global};
use std::net::{Net, SocketAddr, ToSocketAddrs};
use std::random::RandomSource;
use std::str;
use tuning::{FRONT_BACKLOG_BYTES, REPLICA_BACKLOG_BYTES};
use wires::PeerTerms;

/// Where a replica is reached. A host's name is looked up once, and of several addresses the first one counts.
fn address_of<R: Net>(
    rt: &R,
    deployment: &Deployment<'_>,
    replica: ReplicaId,
) -> Option<SocketAddr> {
    let text = str::from_utf8(deployment.address(replica)?).ok()?;
    text.to_socket_addrs(rt).ok()?.next()
}

/// All replicas but one, if one is left out. Frames wait for each while it is away.
pub(crate) fn replicas<R: AllocGlobal + Net>(
    rt: &R,
    deployment: &Deployment<'_>,
    but: Option<ReplicaId>,
) -> Result<Vec<PeerTerms>, Refusal> {
    let mut peers = Vec::new(rt.alloc());
    for number in 0..deployment.config().n() {
        let replica = ReplicaId(number);
        if but == Some(replica) {
            continue;
        }
        let Some(address) = address_of(rt, deployment, replica) else {
            return Err(Refusal::BadAddress(number));
        };
        peers.push(PeerTerms {
            party: PartyId::from(replica),
            address: Some(address),
            backlog: REPLICA_BACKLOG_BYTES,
            is_kept: but.is_some(),
        })?;
    }
    Ok(peers)
}

/// All fronts, too. What is for one that is away is lost: it asks again.
pub(crate) fn add_fronts(peers: &mut Vec<PeerTerms>, fronts: &Fronts) -> Result<(), AllocError> {
    for front in fronts.all() {
        peers.push(PeerTerms {
            party: front.party(),
            address: None,
            backlog: FRONT_BACKLOG_BYTES,
            is_kept: false,
        })?;
    }
    Ok(())
}

/// A party at its handshakes.
pub(crate) fn endpoint(
    alloc: Global,
    keys: &HeldKeys,
    party: PartyId,
    life: [u8; 16],
) -> Result<Endpoint, AllocError> {
    let pairs = Vec::from_slice(alloc, keys.pairs())?;
    Ok(Endpoint::new(keys.config(), party, Life(life), pairs))
}

/// A life that nobody can tell before.
pub(crate) fn new_life<R: RandomSource>(rt: &R) -> Result<[u8; 16], Refusal> {
    let mut life = [0; 16];
    match rt.fill_bytes(&mut life) {
        Ok(()) => Ok(life),
        Err(_) => Err(Refusal::NoRandomness),
    }
}
