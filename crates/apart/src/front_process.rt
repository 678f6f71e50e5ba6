//! A front in a process of its own.

use crate::front_desk::Desk;
use crate::fronts::{Front, Fronts};
use crate::holding::hold;
use crate::numbering::{Clerk, Numbering};
use crate::peers::{endpoint, new_life, replicas};
use crate::refusal::Refusal;
use crate::replies::Replies;
use crate::wire_requests::WireRequests;
use client_accept::Session;
use client_seats::{ClientSeat, seat};
use deployment::Deployment;
use fabric::{ClientEnd, ClientLinks};
use ids::{ClientId, Fault, ReplicaId, Seq};
use key_file::HeldKeys;
use state_marks::{Directory, Numbers};
use station::Runtime;
use std::alloc::Global;
use std::fs::File;
use std::net::{Net, TcpListener, TcpStream};
use std::random::RandomSource;
use std::rt::Files;
use std::sync::atomic::AtomicBool;
use std::sync::atomic::Ordering::SeqCst;
use std::sync::{Arc, Wait};
use std::thread;
use std::time::Clock;
use tcp_front::{Seats, front};
use wires::{Pace, Wires};

/// How a front is to run.
#[derive(Clone, Copy, Debug)]
pub struct FrontTerms {
    /// Which front of the deployment it is.
    pub number: u8,
    /// How many connections are served.
    pub most: u64,
    /// Each how many seconds a line is logged that tells how it goes. None for no lines.
    pub watch: Option<u64>,
}

/// A front that has its wires, and serves nobody yet.
#[derive(Drop)]
struct Begun<'d, R> {
    requests: Arc<WireRequests>,
    clerk: Clerk<'d, R>,
    /// Behind which number its clients go on.
    behind: Seq,
}

/// The wires of a front's process, and its numbers, behind all that it may have given before.
fn begin<'d, R: AllocGlobal + Clock + RandomSource + Files + Net>(
    rt: &'d R,
    deployment: &Deployment<'_>,
    keys: &HeldKeys,
    place: Front,
    state: &'d str,
) -> Result<Begun<'d, R>, Refusal> {
    let (alloc, party) = (rt.alloc(), place.party());
    let directory = Directory::new(rt, state, party);
    let numbers = Numbers::begin(party, directory.mark()?)?;
    let behind = numbers.behind();
    let life = directory.life(new_life(rt)?)?;
    let peers = replicas(rt, deployment, None)?;
    let endpoint = endpoint(alloc, keys, party, life)?;
    let wires = Wires::new(rt, endpoint, Pace::usual(), &peers, None)?;
    let requests = WireRequests::new(rt, keys.config(), wires, Numbering::of(&numbers));
    Ok(Begun {
        requests: Arc::new(alloc, requests)?,
        clerk: Clerk { numbers, directory },
        behind,
    })
}

/// A seat for each client of a front, at the ends where their replies come out.
fn seats<R: Wait + Clock + AllocGlobal + Clone + Drop>(
    rt: &R,
    requests: &Arc<WireRequests>,
    behind: Seq,
    keys: &HeldKeys,
    place: Front,
    ends: Vec<ClientEnd>,
) -> Result<Seats<ClientSeat<R, WireRequests>>, Refusal> {
    let (alloc, config) = (rt.alloc(), keys.config());
    let mut seats = Vec::new(alloc);
    for (client, frames) in (place.first.0..config.clients()).zip(ends) {
        let client = ClientId(client);
        let keyring = keys.keyring(alloc, client.into())?;
        seats.reserve(1)?;
        let session = Session::resume(alloc, config, client, keyring, behind);
        let seated = seat(rt, requests, session, frames, false)?;
        seats.push_reserved(seated);
    }
    Ok(Seats::new(alloc, seats)?)
}

/// Where the replies of each replica are handed in.
fn rows<'a, R: Wait>(
    rt: &'a R,
    alloc: Global,
    keys: &HeldKeys,
    links: &'a ClientLinks,
) -> Result<Vec<Replies<'a, R>>, Refusal> {
    let config = keys.config();
    let mut rows = Vec::new(alloc);
    for number in 0..config.n() {
        rows.reserve(1)?;
        rows.push_reserved(Replies {
            rt,
            alloc,
            config,
            links,
            from: ReplicaId(number),
        });
    }
    Ok(rows)
}

/// Keeps a front's wires, and serves so many connections, while this thread sits at its desk.
fn serve<R>(
    rt: &R,
    desk: Desk<'_, R>,
    rows: Vec<Replies<'_, R>>,
    listener: &TcpListener,
    seats: &Seats<ClientSeat<R, WireRequests>>,
    most: u64,
) -> Result<u64, Fault>
where
    R: Runtime + RandomSource + Files,
    R: Net<Listener = TcpListener, Stream = TcpStream>,
{
    let is_done = AtomicBool::new(false);
    let (is_done, wires) = (&is_done, desk.requests.wires());
    thread::scope(thread::scope_env(), rt, |scope| {
        let wired = scope.spawn(move || wires::run(rt, wires, None, rows));
        let served = scope.spawn(move || {
            let served = front(rt, listener, seats, most);
            is_done.store(true, SeqCst);
            served
        });
        let (Ok(_), Ok(served)) = (wired, served) else {
            wires.close(rt);
            return Err(Fault::Memory);
        };
        desk.keep(rt, is_done);
        wires.close(rt);
        served.join(rt)
    })
}

/// Runs a front of a deployment in this process: it serves memcached's clients at this listener, so many connections, as the
/// clients of replicas that are its own. How many were served.
///
/// A front that comes back goes on behind all numbers that it may have given, as the directory of this path keeps them.
pub fn run_front<R>(
    rt: &R,
    deployment: &Deployment<'_>,
    keys: &HeldKeys,
    terms: FrontTerms,
    state: &str,
    listener: &TcpListener,
) -> Result<u64, Refusal>
where
    R: Runtime + RandomSource,
    R: Files<File = File> + Net<Listener = TcpListener, Stream = TcpStream>,
{
    let alloc = rt.alloc();
    let _held = hold(rt, state)?;
    let fronts = Fronts::of(alloc, deployment)?;
    let Some(place) = fronts.get(terms.number) else {
        return Err(Refusal::NoSuchPlace);
    };
    let Begun {
        requests,
        mut clerk,
        behind,
    } = begin(rt, deployment, keys, place, state)?;
    clerk.look(rt, requests.numbering());
    let (links, ends) = ClientLinks::new(alloc, keys.config(), place.first, place.count)?;
    let rows = rows(rt, alloc, keys, &links)?;
    let seats = seats(rt, &requests, behind, keys, place, ends)?;
    let desk = Desk {
        clerk,
        requests: &requests,
        front: terms.number,
        each: terms.watch,
    };
    Ok(serve(rt, desk, rows, listener, &seats, terms.most)?)
}
