//! Parties that hear one another over loopback: four replicas and two fronts.

use crate::counts::{Count, Row, numbered};
use anyhow::Result;
use handshake::{Endpoint, Life};
use ids::{Config, PartyId};
use key_file::PairKey;
use std::alloc::Global;
use std::net::{Net, SocketAddr, TcpListener, TcpStream};
use std::random::RandomSource;
use std::sync::Wait;
use std::thread;
use std::thread::Threads;
use std::time::{Clock, Duration};
use wires::{Pace, PeerTerms, Wires};

/// All parties: replicas, then fronts by their first client.
pub(crate) const PARTIES: [PartyId; 6] = [
    PartyId(0),
    PartyId(1),
    PartyId(2),
    PartyId(3),
    PartyId(256),
    PartyId(257),
];

/// How many of them are replicas.
const REPLICAS: usize = 4;

/// What may wait for a peer.
const BACKLOG: usize = 64_000_000;

/// How often is looked whether something came, before a scene is given up.
const LOOKS: u32 = 6000;

/// Short waits, but for those that end a link: a machine may be busy.
fn pace() -> Pace {
    Pace {
        handshake: Duration::from_millis(1000),
        ping: Duration::from_millis(100),
        silence: Duration::from_millis(2000),
        stuck: Duration::from_millis(2000),
        redial: Duration::from_millis(10),
        most_redial: Duration::from_millis(100),
        bar: Duration::from_millis(2000),
        places: 32,
    }
}

/// The key of two parties.
fn key_of(one: PartyId, other: PartyId, seed: u8) -> PairKey {
    let [high, low] = (one.0 ^ other.0).to_be_bytes();
    PairKey {
        one: PartyId(one.0.min(other.0)),
        other: PartyId(one.0.max(other.0)),
        key: [seed ^ high ^ low; 32],
    }
}

/// A party at its handshakes, at sizes of so many clients. The keys of a seed are right for the same seed alone.
pub(crate) fn endpoint(alloc: Global, party: PartyId, clients: u8, seed: u8) -> Result<Endpoint> {
    let mut keys = Vec::new(alloc);
    for other in PARTIES {
        keys.push(key_of(party, other, seed))?;
    }
    let [_, low] = party.0.to_be_bytes();
    let life = Life([low; 16]);
    Ok(Endpoint::new(Config::new(1, clients)?, party, life, keys))
}

/// Where each replica is dialled.
#[derive(Clone, Copy)]
pub(crate) struct Places([SocketAddr; 4]);

impl Places {
    /// Where these listen.
    pub(crate) fn of(listeners: &[TcpListener]) -> Result<Places> {
        let mut at = [SocketAddr::from(([127, 0, 0, 1], 0)); REPLICAS];
        for (place, listener) in at.iter_mut().zip(listeners) {
            *place = listener.local_addr()?;
        }
        Ok(Places(at))
    }

    /// Where a party is dialled, if it is a replica.
    pub(crate) fn of_party(&self, party: PartyId) -> Option<SocketAddr> {
        self.0.get(usize::from(party.0)).copied()
    }
}

/// A listener for each replica, wherever the system has room.
pub(crate) fn listeners<R>(rt: &R) -> Result<Vec<TcpListener>>
where
    R: AllocGlobal + Net<Listener = TcpListener, Stream = TcpStream>,
{
    let mut all = Vec::new(rt.alloc());
    for _ in 0..REPLICAS {
        all.push(TcpListener::bind(rt, "127.0.0.1:0")?)?;
    }
    Ok(all)
}

/// A party with its links, and what it heard of each peer.
#[derive(Drop)]
pub(crate) struct Station {
    party: PartyId,
    wires: Wires,
    listener: Option<TcpListener>,
    peers: Vec<PartyId>,
    counts: Vec<Count>,
}

/// The peers of a party: all others, but no front of a front.
fn peers_of(alloc: Global, party: PartyId) -> Result<Vec<PartyId>> {
    let mut peers = Vec::new(alloc);
    for other in PARTIES {
        let is_met = party.client().is_none() || other.client().is_none();
        if other != party && is_met {
            peers.push(other)?;
        }
    }
    Ok(peers)
}

/// What a party knows of its peers.
fn terms_of(alloc: Global, peers: &[PartyId], places: &Places) -> Result<Vec<PeerTerms>> {
    let mut terms = Vec::new(alloc);
    for party in peers {
        terms.push(PeerTerms {
            party: *party,
            address: places.of_party(*party),
            backlog: BACKLOG,
            is_kept: party.client().is_none(),
        })?;
    }
    Ok(terms)
}

impl Station {
    /// A party with its listener, if it has one. Of each peer it hears the frames from this number on.
    pub(crate) fn new<R: AllocGlobal + Clock>(
        rt: &R,
        party: PartyId,
        places: &Places,
        listener: Option<TcpListener>,
        first: u64,
    ) -> Result<Station> {
        let alloc = rt.alloc();
        let peers = peers_of(alloc, party)?;
        let terms = terms_of(alloc, &peers, places)?;
        let endpoint = endpoint(alloc, party, 2, 0)?;
        let wires = Wires::new(rt, endpoint, pace(), &terms, listener.as_ref())?;
        let mut counts = Vec::new(alloc);
        for _ in peers.iter() {
            counts.push(Count::from(first))?;
        }
        Ok(Station {
            party,
            wires,
            listener,
            peers,
            counts,
        })
    }

    /// Its number.
    pub(crate) fn party(&self) -> PartyId {
        self.party
    }

    /// What it heard of a peer.
    pub(crate) fn count(&self, peer: PartyId) -> Option<&Count> {
        let place = self.peers.iter().position(|other| *other == peer)?;
        self.counts.get(place)
    }

    /// Keeps its links until it is closed.
    pub(crate) fn run<R>(&self, rt: &R) -> Result<()>
    where
        R: Threads
            + Wait
            + Clock
            + Sync
            + AllocGlobal
            + RandomSource
            + Net<Listener = TcpListener, Stream = TcpStream>,
    {
        let mut rows = Vec::new(rt.alloc());
        for (count, from) in self.counts.iter().zip(self.peers.iter()) {
            rows.reserve(1)?;
            rows.push_reserved(Row { count, from: *from });
        }
        wires::run(rt, &self.wires, self.listener.as_ref(), rows)?;
        Ok(())
    }

    /// Ends its links.
    pub(crate) fn close<R: Wait>(&self, rt: &R) {
        self.wires.close(rt);
    }

    /// Sends a peer its frames of these numbers. Those that are lost are lost.
    pub(crate) fn send<R>(&self, rt: &R, peer: PartyId, first: u64, end: u64) -> Result<()>
    where
        R: Wait + AllocGlobal,
    {
        for number in first..end {
            let _ = self
                .wires
                .send(rt, peer, numbered(rt.alloc(), self.party, number)?);
        }
        Ok(())
    }

    /// Sends each peer its frames of these numbers.
    pub(crate) fn send_all<R>(&self, rt: &R, first: u64, end: u64) -> Result<()>
    where
        R: Wait + AllocGlobal,
    {
        for peer in self.peers.iter() {
            self.send(rt, *peer, first, end)?;
        }
        Ok(())
    }

    /// Whether it heard so many frames of each of these peers.
    fn has_heard(&self, of: &[PartyId], end: u64) -> bool {
        self.peers
            .iter()
            .zip(self.counts.iter())
            .all(|(peer, count)| !of.contains(peer) || count.next() >= end)
    }

    /// Whether it is linked to a peer.
    pub(crate) fn is_linked<R: Wait>(&self, rt: &R, peer: PartyId) -> bool {
        self.wires.is_linked(rt, peer)
    }

    /// How many frames to a peer were lost, and how many asked at other sizes.
    pub(crate) fn wires(&self) -> &Wires {
        &self.wires
    }

    /// Prints how many frames came of each peer, and how many of them out of order.
    pub(crate) fn tell<R: Print>(&self, rt: &R) -> Result<()> {
        print!(rt; "{} heard", self.party)?;
        for (peer, count) in self.peers.iter().zip(self.counts.iter()) {
            print!(rt; " {} {}", *peer, count.next())?;
            if count.wrong() > 0 {
                print!(rt; " ({} wrong)", count.wrong())?;
            }
        }
        println!(rt; "")?;
        Ok(())
    }
}

/// Waits until each of these stations heard so many frames of each of these peers. False where it takes too long.
pub(crate) fn all_heard<R>(rt: &R, stations: &[Station], of: &[PartyId], end: u64) -> bool
where
    R: Clock,
{
    for _ in 0..LOOKS {
        if stations.iter().all(|station| station.has_heard(of, end)) {
            return true;
        }
        thread::sleep(rt, Duration::from_millis(5));
    }
    false
}

/// Waits until each of these stations is linked to a peer, or none is. False where it takes too long.
pub(crate) fn all_linked<R>(rt: &R, stations: &[Station], peer: PartyId, linked: bool) -> bool
where
    R: Wait + Clock,
{
    for _ in 0..LOOKS {
        let agree = stations.iter().all(|station| {
            station.party() == peer
                || station.count(peer).is_none()
                || station.is_linked(rt, peer) == linked
        });
        if agree {
            return true;
        }
        thread::sleep(rt, Duration::from_millis(5));
    }
    false
}

/// Waits until each of these stations is linked to all of its peers. False where it takes too long.
pub(crate) fn all_met<R: Wait + Clock>(rt: &R, stations: &[Station]) -> bool {
    PARTIES
        .iter()
        .all(|peer| all_linked(rt, stations, *peer, true))
}
