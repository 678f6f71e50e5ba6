//! A replica in a process of its own.

ghost use Rattle.std.specs.Prelude.{◌≡◌, ◌<◌, map};
ghost use Rattle.std.specs.List.{range_with_len};
ghost use Rattle.ids.specs.Sizes.{replicas};
ghost use Rattle.marks.specs.Eyes.{first_eye};

use crate::attending::Attendant;
use crate::fronts::Fronts;
use crate::holding::hold;
use crate::peers::{add_fronts, endpoint, new_life, replicas};
use crate::pending::Pending;
use crate::refusal::Refusal;
use crate::replica_rows::Row;
use crate::telling::Teller;
use crate::wire_post::WirePost;
use authenticators::ReplicaKeyring;
use deployment::Deployment;
use fabric::{Inbox, Sender};
use ids::{Fault, PartyId, ReplicaId, Seq};
use key_file::HeldKeys;
use log::Log;
use marks::{Eye, Marks, Watcher};
use state_marks::{Directory, Numbers};
use station::{Runtime, Sights, Station, Terms, WorkerStart, build_station, run_worker, watch};
use std::alloc::Global;
use std::fs::File;
use std::net::{Net, TcpListener, TcpStream};
use std::random::RandomSource;
use std::rt::Files;
use std::sync::atomic::AtomicBool;
use std::sync::atomic::Ordering::SeqCst;
use std::sync::{Arc, Wait};
use std::thread;
use std::thread::Scope;
use std::time::Clock;
use wires::{Pace, PeerTerms, Wires};

/// All that a replica says stands for one number.
const ITS_WORD: Seq = Seq(1);

/// How a replica is to run.
#[derive(Clone, Copy, Debug)]
pub struct ReplicaTerms {
    /// Which replica of the deployment it is.
    pub number: ReplicaId,
    /// How its station is to run.
    pub station: Terms,
}

/// The wires of a replica's process.
#[derive(Drop)]
struct Wired<'a> {
    wires: Wires,
    /// Where peers come in.
    listener: &'a TcpListener,
    peers: Vec<PeerTerms>,
    fronts: Fronts,
}

/// What lies around the station of a replica's process.
#[derive(Drop)]
struct Around<'a> {
    number: ReplicaId,
    wired: Wired<'a>,
    inbox: Arc<Inbox>,
    sights: Sights,
    stop: AtomicBool,
}

/// What the threads of a replica's process share.
#[derive(Drop)]
struct Place<'p, 'm> {
    station: Station<'m>,
    around: &'p Around<'p>,
    /// Each how many seconds a line tells how it goes. None for no lines.
    each: Option<u64>,
}

impl Wired<'_> {
    /// Who is at the other end of a peer's wire.
    fn sender_of(&self, peer: PartyId) -> Sender {
        match self.fronts.number_of(peer) {
            Some(front) => Sender::Front(front),
            None => Sender::Replica(ReplicaId(u8::try_from(peer.0).unwrap_or(u8::MAX))),
        }
    }
}

impl Around<'_> {
    /// The row of each peer, in their order.
    fn rows<'p, R: Wait>(&'p self, rt: &'p R, alloc: Global) -> Result<Vec<Row<'p, R>>, Refusal> {
        let mut rows = Vec::new(alloc);
        for peer in &self.wired.peers {
            rows.reserve(1)?;
            rows.push_reserved(Row {
                rt,
                alloc,
                own: self.number,
                inbox: &self.inbox,
                sights: &self.sights,
                from: self.wired.sender_of(peer.party),
                pending: Pending::none(alloc),
            });
        }
        Ok(rows)
    }

    /// Where what the replica says goes.
    fn post(&self, alloc: Global) -> WirePost<'_> {
        WirePost::new(
            alloc,
            self.number,
            self.sights.config(),
            &self.wired.wires,
            &self.wired.fronts,
        )
    }
}

impl Place<'_, '_> {
    /// Gives the replica its beats and timeouts until it is told to stop or has stopped. Then all threads are to end. Why it
    /// stopped.
    fn watch<R: Wait + Clock>(&self, rt: &R) -> Option<Fault> {
        let around = self.around;
        let fault = watch(rt, &self.station, &around.sights, &around.stop);
        around.stop.store(true, SeqCst);
        fault
    }

    /// Tells all threads to end.
    fn end<R: Wait>(&self, rt: &R) {
        let around = self.around;
        around.stop.store(true, SeqCst);
        self.station.stop(rt);
        around.wired.wires.close(rt);
    }
}

/// Starts the workers of a replica, and who tells of it. Whether all threads could be had.
fn start_station<'s, E, R>(
    rt: &'s R,
    scope: &Scope<'s, E>,
    place: &'s Place<'_, '_>,
    post: &'s WirePost<'s>,
    workers: Vec<WorkerStart>,
    watcher: Watcher<'s>,
) -> bool
where
    R: Wait + Clock + Sync + AllocGlobal + Log,
{
    let around = place.around;
    let (station, stop, each) = (&place.station, &around.stop, place.each);
    let mut all_started = true;
    for worker in workers {
        let started = scope.spawn(move || run_worker(rt, station, post, worker, stop));
        all_started = all_started && started.is_ok();
    }
    let teller = Teller::new(station, &around.wired.wires, post, watcher);
    let told = scope.spawn(move || teller.keep(rt, each, stop));
    all_started && told.is_ok()
}

/// Runs all threads of a replica's process until the replica stops, or is asked to in its state directory. Why it did.
fn run_all<R>(
    rt: &R,
    place: &Place<'_, '_>,
    rows: Vec<Row<'_, R>>,
    workers: Vec<WorkerStart>,
    watcher: Watcher<'_>,
    attendant: &Attendant<'_>,
) -> Option<Fault>
where
    R: Runtime + RandomSource + Files,
    R: Net<Listener = TcpListener, Stream = TcpStream>,
{
    let around = place.around;
    let post = around.post(rt.alloc());
    let post = &post;
    let (wires, listener) = (&around.wired.wires, around.wired.listener);
    thread::scope(thread::scope_env(), rt, |scope| {
        let linked = scope.spawn(move || wires::run(rt, wires, Some(listener), rows));
        let started = start_station(rt, scope, place, post, workers, watcher);
        let watched = scope.spawn(move || place.watch(rt));
        if started && linked.is_ok() && watched.is_ok() {
            attendant.keep(rt, &place.station, &around.stop);
        }
        place.end(rt);
        match watched {
            Ok(watched) if started && linked.is_ok() => watched.join(rt),
            _ => Some(Fault::Memory),
        }
    })
}

/// The eye that owns the word of a replica.
fn eye_of(marks: &Marks, eyes: Vec<Eye>, number: ReplicaId) -> Eye
    requires eyes { eyes.items ≡ map (first_eye marks.now) (range_with_len 0 marks.now.words) }
    requires number { number < marks.now.words }
    ensures { result ≡ first_eye marks.now number }
{
    let mut eyes = eyes;
    eyes.swap_remove(usize::from(number.0))
}

/// The station of the keyring's replica, which has the eye of its number.
fn station_of<'m>(
    alloc: Global,
    keyring: &ReplicaKeyring,
    marks: &'m Marks,
    eyes: Vec<Eye>,
    inbox: Arc<Inbox>,
    terms: &Terms,
) -> Result<(Station<'m>, Vec<WorkerStart>), Refusal>
    requires words { marks.now.words ≡ replicas keyring.now.sizes }
    requires eyes { eyes.items ≡ map (first_eye marks.now) (range_with_len 0 marks.now.words) }
{
    let eye = eye_of(marks, eyes, keyring.replica());
    Ok(build_station(alloc, keyring, eye, marks, inbox, terms)?)
}

/// The replica's life. From now on its directory says that it has spoken. `State` where it said so before.
fn begin<R: AllocGlobal + RandomSource + Files>(
    rt: &R,
    party: PartyId,
    state: &str,
) -> Result<[u8; 16], Refusal> {
    let mut directory = Directory::new(rt, state, party);
    let mut numbers = Numbers::begin(party, directory.mark()?)?;
    let life = directory.life(new_life(rt)?)?;
    numbers.mark(&mut directory, ITS_WORD, 0)?;
    Ok(life)
}

/// The wires of a replica's process.
fn wire<'a, R: AllocGlobal + Clock + Net>(
    rt: &R,
    deployment: &Deployment<'_>,
    keys: &HeldKeys,
    number: ReplicaId,
    life: [u8; 16],
    listener: &'a TcpListener,
) -> Result<Wired<'a>, Refusal> {
    let alloc = rt.alloc();
    let fronts = Fronts::of(alloc, deployment)?;
    let mut peers = replicas(rt, deployment, Some(number))?;
    add_fronts(&mut peers, &fronts)?;
    let endpoint = endpoint(alloc, keys, PartyId::from(number), life)?;
    let wires = Wires::new(rt, endpoint, Pace::usual(), &peers, Some(listener))?;
    Ok(Wired {
        wires,
        listener,
        peers,
        fronts,
    })
}

/// What lies around the station of a replica, at these wires.
fn surrounded<'a>(
    alloc: Global,
    keys: &HeldKeys,
    number: ReplicaId,
    wired: Wired<'a>,
) -> Result<Around<'a>, Refusal> {
    let config = keys.config();
    let inbox = Inbox::new(alloc, config, wired.fronts.len())?;
    Ok(Around {
        number,
        wired,
        inbox: Arc::new(alloc, inbox)?,
        sights: Sights::none(alloc, config)?,
        stop: AtomicBool::new(false),
    })
}

/// Runs a station amid what lies around it, until its replica stops. Why it did.
fn run_station<R>(
    rt: &R,
    around: &Around<'_>,
    keyring: &ReplicaKeyring,
    attendant: &Attendant<'_>,
    terms: &Terms,
) -> Result<Option<Fault>, Refusal>
where
    R: Runtime + RandomSource + Files,
    R: Net<Listener = TcpListener, Stream = TcpStream>,
{
    let (alloc, replicas) = (rt.alloc(), keyring.config().n());
    let link = Arc::try_clone(&around.inbox)?;
    let (marks, mut eyes) = Marks::new(alloc, replicas)?;
    let watcher = Watcher::new(&marks, replicas, &mut eyes);
    let (station, workers) = station_of(alloc, keyring, &marks, eyes, link, terms)?;
    let place = Place {
        station,
        around,
        each: terms.watch,
    };
    let rows = around.rows(rt, alloc)?;
    let fault = run_all(rt, &place, rows, workers, watcher, attendant);
    let kept = attendant.end(rt, &place.station);
    match (fault, kept) {
        (None, Err(refusal)) => Err(refusal),
        _ => Ok(fault),
    }
}

/// Runs a replica of a deployment in this process, which its peers reach by this listener, until it stops, or is asked to in its
/// state directory. Why it did.
///
/// It begins without memory, and so once only: the directory of this path says from its start on that it has spoken, and `State`
/// comes where it said so before; and at the end, where its window can't be kept there.
pub fn run_replica<R>(
    rt: &R,
    deployment: &Deployment<'_>,
    keys: &HeldKeys,
    terms: ReplicaTerms,
    state: &str,
    listener: &TcpListener,
) -> Result<Option<Fault>, Refusal>
where
    R: Runtime + RandomSource,
    R: Files<File = File> + Net<Listener = TcpListener, Stream = TcpStream>,
{
    let (alloc, number) = (rt.alloc(), terms.number);
    let _held = hold(rt, state)?;
    let keyring = keys.replica_keyring(alloc, number)?.remembering(alloc)?;
    let life = begin(rt, PartyId::from(number), state)?;
    let wired = wire(rt, deployment, keys, number, life, listener)?;
    let around = surrounded(alloc, keys, number, wired)?;
    let attendant = Attendant::new(rt, state, PartyId::from(number));
    run_station(rt, &around, &keyring, &attendant, &terms.station)
}
