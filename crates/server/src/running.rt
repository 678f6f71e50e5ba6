//! From keys to a running deployment, and to its end.

ghost use Rattle.std.specs.Prelude.{◌≡◌, ◌⊎◌, Err, IfOk, IfErr, OnErr, None};
ghost use Rattle.ids.specs.declared.fault.Fault.TheVariants.{AcceptFailed, Memory, NoSuchParty};
ghost use Rattle.server.specs.Ends.{IsEnd, IsAudited, IsNoRun};
ghost use Rattle.station.specs.Workers.{liar_count};

use crate::ending::{EndAudit, judge_by_terms};
use crate::local::Local;
use crate::roll::Roll;
use crate::watching::Board;
use client_seats::{ClientSeat, seats};
use fabric::{ClientEnd, Ends, Links};
use ids::Fault;
use key_file::PairKeys;
use log::{Log, warn};
use marks::{Marks, Watcher};
use station::{Runtime, Sights, Station, Terms, WorkerStart, run_worker, stations, watch};
use std::net::TcpListener;
use std::sync::atomic::AtomicBool;
use std::sync::atomic::Ordering::SeqCst;
use std::sync::{Arc, Wait};
use std::thread;
use std::thread::Scope;
use std::time::Clock;
use tcp_front::{Closer, Seats, front};

/// How a deployment ended.
#[derive(Clone, Copy, Debug)]
pub struct Ended {
    /// How many connections were served; or why not so many as were to be: `AcceptFailed`, the refusal
    /// that stopped more than f replicas, or `Memory` where not all threads could be had.
    pub served: Result<u64, Fault>,
    /// What is said of the replicas, without those that were to lie.
    pub audit: EndAudit,
}

/// Tells the workers of all replicas to end.
fn stop_all<R: Wait>(rt: &R, stations: &[Station<'_>]) {
    for station in stations {
        station.stop(rt);
    }
}

/// A deployment without its replicas: what its threads share.
#[derive(Drop)]
struct Deployment<'a, S> {
    listener: &'a TcpListener,
    closer: Closer,
    local: Arc<Local>,
    sights: Sights,
    seats: Seats<S>,
}

impl<'a, R: Wait + Clock + AllocGlobal + Clone + Drop> Deployment<'a, ClientSeat<R, Local>> {
    /// A deployment over these links, with a seat for each client at the end where its replies come out. So many clients
    /// lie.
    fn new(
        rt: &R,
        keys: &PairKeys,
        listener: &'a TcpListener,
        links: Links,
        clients: Vec<ClientEnd>,
        liar_clients: u8,
    ) -> Result<Deployment<'a, ClientSeat<R, Local>>, Fault>
        ensures { OnErr result
            ((result ≡ Err AcceptFailed) ⊎ (result ≡ Err Memory) ⊎ (result ≡ Err NoSuchParty)) }
    {
        let alloc = rt.alloc();
        let closer = Closer::new(listener)?;
        let sights = Sights::none(alloc, keys.config())?;
        let roll = Roll::new(alloc, keys.config())?;
        let local = Arc::new(alloc, Local { links, roll })?;
        let seats = seats(rt, &local, keys, clients, liar_clients)?;
        Ok(Deployment {
            listener,
            closer,
            local,
            sights,
            seats,
        })
    }
}

impl<'a, S: Drop> Deployment<'a, S> {
    /// Gives one of the stations its beats and timeouts until it is told to stop. Where its replica stops, that is
    /// told; and where no request can be answered any more, the front is closed.
    fn keep<R: Wait + Clock + Log>(&self, rt: &R, station: &Station<'_>, stop: &AtomicBool) {
        let Some(fault) = watch(rt, station, &self.sights, stop) else {
            return;
        };
        let roll = &self.local.roll;
        roll.strike(rt, fault);
        let (number, n) = (station.number().0, self.local.config().n());
        let going = roll.going(rt);
        warn!(rt; "replica {number} stopped: {fault}; {going} of {n} go on");
        if !roll.is_open(rt) {
            self.closer.close(&self.seats);
        }
    }
}

/// Starts the threads of one of the stations: its workers and its clock. Whether all could be had.
fn start_station<'s, E, R: Runtime>(
    rt: &'s R,
    scope: &Scope<'s, E>,
    station: &'s Station<'_>,
    workers: Vec<WorkerStart>,
    deployment: &'s Deployment<'_, ClientSeat<R, Local>>,
    stop: &'s AtomicBool,
) -> bool {
    let links: &Links = &deployment.local.links;
    let mut all_started = true;
    for worker in workers {
        let started = scope.spawn(move || run_worker(rt, station, links, worker, stop));
        all_started = all_started && started.is_ok();
    }
    let timed = scope.spawn(move || deployment.keep(rt, station, stop));
    all_started && timed.is_ok()
}

/// Starts the threads of all stations. Whether all could be had.
fn start_stations<'s, E, R: Runtime>(
    rt: &'s R,
    scope: &Scope<'s, E>,
    stations: &'s [Station<'_>],
    workers: Vec<Vec<WorkerStart>>,
    deployment: &'s Deployment<'_, ClientSeat<R, Local>>,
    stop: &'s AtomicBool,
) -> bool {
    let mut all_started = true;
    for (station, workers) in stations.iter().zip(workers) {
        let started = start_station(rt, scope, station, workers, deployment, stop);
        all_started = all_started && started;
    }
    all_started
}

/// Starts all stations, and serves as many connections as the terms say. All threads have ended when it returns.
fn serve_at<R: Runtime>(
    rt: &R,
    deployment: &Deployment<'_, ClientSeat<R, Local>>,
    stations: &[Station<'_>],
    workers: Vec<Vec<WorkerStart>>,
    watcher: Watcher<'_>,
    terms: Terms,
) -> Result<(), Fault> {
    let stop = AtomicBool::new(false);
    let stop = &stop;
    let local: &Local = &deployment.local;
    let seats = &deployment.seats;
    let board = Board {
        stations,
        local,
        seats,
        watcher,
    };
    let served = thread::scope(thread::scope_env(), rt, |scope| {
        let watched = scope.spawn(move || board.keep(rt, terms.watch, stop));
        let started = start_stations(rt, scope, stations, workers, deployment, stop);
        let served = if started && watched.is_ok() {
            front(rt, deployment.listener, seats, terms.most)
        } else {
            Err(Fault::Memory)
        };
        stop.store(true, SeqCst);
        stop_all(rt, stations);
        served
    });
    match served {
        Ok(_) => Ok(()),
        Err(fault) => Err(local.roll.cause(rt).unwrap_or(fault)),
    }
}

/// Runs replicas with these keys, and serves as many connections as the terms say that come to the
/// listener. When all threads have ended, the replicas are judged.
///
/// It ends early where accepting fails, and where more than f replicas have stopped, so that no request can
/// be answered any more: services refuse at once then, requests that are out get two seconds, and no
/// connection is accepted. `Memory` where memory was refused before a thread began, `AcceptFailed`
/// where the listener can't be had twice; the other refusals aren't expected.
pub fn run<R: Runtime>(
    rt: &R,
    keys: &PairKeys,
    listener: &TcpListener,
    terms: Terms,
) -> Result<Ended, Fault>
    ensures served { IfOk result (λ ended. IfOk ended.served (λ served. served ≡ terms.most)) }
    ensures audit { IfOk result (λ ended. IsEnd keys.now.sizes (liar_count terms.liars) ended.audit) }
    ensures audited { IfOk result (λ ended. terms.window ≡ None → IsAudited ended.audit) }
    ensures refused { IfErr result IsNoRun }
{
    let (alloc, config) = (rt.alloc(), keys.config());
    let (marks, mut eyes) = Marks::new(alloc, config.n())?;
    let watcher = Watcher::new(&marks, config.n(), &mut eyes);
    let (links, ends) = Links::new(alloc, config)?;
    let Ends { replicas, clients } = ends;
    let deployment = Deployment::new(rt, keys, listener, links, clients, terms.liar_clients)?;
    let (stations, workers) = stations(alloc, keys, &marks, eyes, replicas, &terms)?;
    let room = Vec::with_capacity(alloc, stations.len())?;
    let served = match serve_at(
        rt,
        &deployment,
        stations.as_slice(),
        workers,
        watcher,
        terms,
    ) {
        Ok(()) => Ok(terms.most),
        Err(fault) => Err(fault),
    };
    let audit = judge_by_terms(stations, config, terms, room)?;
    Ok(Ended { served, audit })
}
