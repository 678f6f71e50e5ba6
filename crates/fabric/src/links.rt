//! The links of all parties: what goes to whom.

ghost use Rattle.std.specs.Prelude.{◌≡◌, ◌⊎◌, IfOk, OnErr, vec_len};
ghost use Rattle.std.specs.Prelude.{count_by, nat_lt};
ghost use Rattle.ids.specs.Sizes.{replicas};
ghost use Rattle.tuning.specs.declared.clients.TheConstants.{CLIENT_CROWD};
ghost use Rattle.fabric.specs.Parcels.{is_request};

use crate::client_end::{ClientEnd, NotTold};
use crate::client_links::{ClientLinks, counters};
use crate::inbox::Inbox;
use crate::parcel::{Answer, Parcel};
use crate::post::Post;
use crate::rows::Sender;
use bytes::Bytes;
use catching_up::Question;
use fair_queue::Refusal;
use frames_view::version;
use ids::{ClientId, Config, Fault, Kind, MOST_REPLICAS, ReplicaId};
use signed_frames::To;
use std::alloc::{AllocError, Global};
use std::marker::Model;
use std::sync::atomic::AtomicU64;
use std::sync::atomic::Ordering::SeqCst;
use std::sync::{Arc, Wait};
use suspicion::ReplicaSet;
use tuning::CLIENT_CROWD;

/// The ends at which parcels are handed in, of the links of all parties. Threads share them by reference.
///
/// At a replica's link each replica has a share of its own, and so have the replica's clock and the clients; what
/// doesn't fit in its sender's share is lost, as on any network, and counted. At a client's link each replica has a
/// share, too. A call waits for nobody but those that use the same link just then.
#[derive(Drop)]
pub struct Links {
    config: Config,
    replicas: Vec<Arc<Inbox>>,
    clients: ClientLinks,
    /// How many frames couldn't be handed in.
    lost: AtomicU64,
    /// How many frames of each replica didn't fit in its share.
    turned_away: Vec<AtomicU64>,
    /// How many of them were the same as the one before that didn't fit at that link.
    repeated: Vec<AtomicU64>,
    /// By sender and then by receiver, the last bytes of the frame that didn't fit there last.
    last_turned_away: Vec<AtomicU64>,
}

impl Model for Links {
    ghost use Rattle.ids.specs.Sizes.{Sizes};

    ghost Value = { Sizes };

    ghost view = { λ l. l.config };
}

/// The ends at which parcels come out, by number of party.
///
/// A replica's workers share the one of their replica. A client waits at its own until a moment at most; once
/// `Links` is dropped and all is taken, nothing comes out.
#[derive(Drop)]
pub struct Ends {
    pub replicas: Vec<Arc<Inbox>>,
    pub clients: Vec<ClientEnd>,
}

/// The inboxes of all replicas, twice.
fn inboxes(alloc: Global, config: Config) -> Result<(Vec<Arc<Inbox>>, Vec<Arc<Inbox>>), AllocError>
    ensures { IfOk result (λ r. (vec_len r.0 ≡ replicas config) × (vec_len r.1 ≡ replicas config)) }
{
    let count = usize::from(config.n());
    let mut links = Vec::with_capacity(alloc, count)?;
    let mut ends = Vec::with_capacity(alloc, count)?;
    for _ in 0..count {
        let inbox = Inbox::new(alloc, config, 1)?;
        let inbox = Arc::new(alloc, inbox)?;
        ends.push_reserved(Arc::try_clone(&inbox)?);
        links.push_reserved(inbox);
    }
    Ok((links, ends))
}

/// The last bytes of a frame as a number. They are of a tag: two frames don't end alike but by chance.
fn last_bytes(frame: &[u8]) -> u64 {
    match frame.last_chunk() {
        Some(bytes) => u64::from_be_bytes(*bytes),
        None => 0,
    }
}

/// Whether a frame is a client's request, by its kind.
pub fn is_request(frame: &[u8]) -> bool
    ensures { result ≡ is_request frame.now }
{
    let place = if version(frame) == Some(2) { 1 } else { 0 };
    frame.get(place).copied() == Some(Kind::Request.number())
}

/// Whether more than `CLIENT_CROWD` requests wait at the links of more replicas than may be faulty, where so many wait at
/// each.
fn are_crowded(counts: &[u64], faults: u8) -> bool
    ensures { result ≡ nat_lt faults (count_by (λ count. nat_lt CLIENT_CROWD count) counts.now) }
{
    let crowded = counts.iter().filter(|count| **count > CLIENT_CROWD as u64);
    crowded.count() > usize::from(faults)
}

/// Each call refuses with `NoSuchParty` where there is no such party, or the end of a client's link was dropped,
/// and with `Memory` where memory was refused; what was to be handed in is then lost, as on any
/// network.
impl Links {
    /// The links of all replicas and clients, with nothing in them.
    pub fn new(alloc: Global, config: Config) -> Result<(Links, Ends), AllocError>
        ensures made { IfOk result (λ r. r.0 ≡ config) }
        ensures replicas { IfOk result (λ r. vec_len r.1.replicas ≡ replicas config) }
        ensures clients { IfOk result (λ r. vec_len r.1.clients ≡ config.clients) }
    {
        let count = usize::from(config.n());
        let turned_away = counters(alloc, count)?;
        let repeated = counters(alloc, count)?;
        let last_turned_away = counters(alloc, count * count)?;
        let (replicas, replica_ends) = inboxes(alloc, config)?;
        let (clients, client_ends) = ClientLinks::new(
            alloc,
            config,
            ClientId(0),
            config.clients(),
        )?;
        let links = Links {
            config,
            replicas,
            clients,
            lost: AtomicU64::new(0),
            turned_away,
            repeated,
            last_turned_away,
        };
        let ends = Ends {
            replicas: replica_ends,
            clients: client_ends,
        };
        Ok((links, ends))
    }

    /// The sizes of the deployment.
    pub fn config(&self) -> Config
        ensures { result ≡ self.now }
    {
        self.config
    }

    /// How many frames were to be sent and are lost: for want of memory, where one that is for all counts once; or
    /// since they didn't fit in their sender's share, where each counts that didn't come to a replica. What a replica
    /// sends to itself goes over no link, and isn't counted.
    pub fn lost(&self) -> u64 {
        self.lost.load(SeqCst)
    }

    /// How many of them didn't fit in the share of this replica at some link, a client's too. 0 where there is no such replica.
    pub fn turned_away(&self, from: ReplicaId) -> u64 {
        match self.turned_away.get(usize::from(from.0)) {
            Some(count) => count.load(SeqCst),
            None => 0,
        }
    }

    /// How many of these were the same as the frame before that didn't fit at that link. Who sends the same again and again
    /// floods; of who answers a replica that is far behind no frame is like the last.
    pub fn repeated(&self, from: ReplicaId) -> u64 {
        match self.repeated.get(usize::from(from.0)) {
            Some(count) => count.load(SeqCst),
            None => 0,
        }
    }

    /// A frame that was to be sent is lost.
    pub(crate) fn lose(&self) {
        self.lost.fetch_add(1, SeqCst);
    }

    /// A frame of this sender didn't fit in its share.
    fn turn_away(&self, from: &Sender) {
        self.lose();
        let Sender::Replica(from) = *from else {
            return;
        };
        if let Some(count) = self.turned_away.get(usize::from(from.0)) {
            count.fetch_add(1, SeqCst);
        }
    }

    /// A replica's frame that ends so didn't fit at a replica's link. Whether it is like the last such frame is noted.
    fn compare(&self, from: &Sender, to: ReplicaId, ends: u64) {
        let Sender::Replica(from) = *from else {
            return;
        };
        let (sender, n) = (usize::from(from.0), usize::from(self.config.n()));
        if sender >= n {
            return;
        }
        let place = sender * n + usize::from(to.0);
        let is_same = match self.last_turned_away.get(place) {
            Some(last) => last.swap(ends, SeqCst) == ends,
            None => false,
        };
        if let (true, Some(count)) = (is_same, self.repeated.get(sender)) {
            count.fetch_add(1, SeqCst);
        }
    }

    /// Whether more than `CLIENT_CROWD` requests of clients wait at the links of more than f replicas. No replica can
    /// raise these numbers, and f that are slow hold up nobody.
    pub fn are_crowded(&self) -> bool {
        let mut counts = [0; MOST_REPLICAS];
        for (count, inbox) in counts.iter_mut().zip(&self.replicas) {
            *count = inbox.requests();
        }
        are_crowded(&counts, self.config.faults())
    }

    /// What a call at a replica's link came to.
    fn handed(&self, from: &Sender, answer: Result<(), Refusal>) -> Result<(), Fault>
        ensures { OnErr result (result ≡ Err Fault.Memory) }
    {
        match answer {
            Ok(()) => Ok(()),
            Err(Refusal::Memory) => Err(Fault::Memory),
            Err(Refusal::Full) => {
                self.turn_away(from);
                Ok(())
            }
        }
    }

    /// Hands in at a replica's link what another says that is no frame.
    fn hand_in<R: Wait>(
        &self,
        rt: &R,
        from: ReplicaId,
        to: ReplicaId,
        parcel: Parcel,
    ) -> Result<(), Fault>
        ensures { OnErr result ((result ≡ Err Fault.Memory) ⊎ (result ≡ Err Fault.NoSuchParty)) }
    {
        match self.replicas.get(usize::from(to.0)) {
            Some(inbox) => self.handed(&Sender::Replica(from), inbox.hand_in(rt, from, parcel)),
            None => Err(Fault::NoSuchParty),
        }
    }

    /// Hands in a frame at a replica's link.
    fn hand_in_frame<R: Wait>(
        &self,
        rt: &R,
        from: &Sender,
        to: ReplicaId,
        frame: Bytes,
    ) -> Result<(), Fault>
        ensures { OnErr result ((result ≡ Err Fault.Memory) ⊎ (result ≡ Err Fault.NoSuchParty)) }
    {
        let Some(inbox) = self.replicas.get(usize::from(to.0)) else {
            return Err(Fault::NoSuchParty);
        };
        let ends = last_bytes(frame.as_slice());
        let answer = inbox.hand_in_frame(rt, from, frame);
        if matches!(answer, Err(Refusal::Full)) {
            self.compare(from, to, ends);
        }
        self.handed(from, answer)
    }

    /// Hands in one more copy of a frame at a replica's link. Its bytes are shared.
    fn share_with<R: Wait>(
        &self,
        rt: &R,
        from: &Sender,
        to: ReplicaId,
        frame: &Bytes,
    ) -> Result<(), Fault>
        ensures { OnErr result ((result ≡ Err Fault.Memory) ⊎ (result ≡ Err Fault.NoSuchParty)) }
    {
        let copy = frame.clone()?;
        self.hand_in_frame(rt, from, to, copy)
    }

    /// Hands in a frame at each replica's link, but its sender's, where a replica sent it. One that can't take it
    /// doesn't keep it from the others.
    fn share_with_all<R: Wait>(&self, rt: &R, from: &Sender, frame: Bytes) -> Result<(), Fault>
        ensures { OnErr result ((result ≡ Err Fault.Memory) ⊎ (result ≡ Err Fault.NoSuchParty)) }
    {
        let mut all = Ok(());
        for number in 0..self.config.n() {
            let to = ReplicaId(number);
            if *from == Sender::Replica(to) {
                continue;
            }
            if let Err(fault) = self.share_with(rt, from, to, &frame) {
                all = Err(fault);
            }
        }
        all
    }

    /// Hands in a client's frame at a replica's link, which numbers it.
    pub fn to_replica<R: Wait>(&self, rt: &R, to: ReplicaId, frame: Bytes) -> Result<(), Fault>
        ensures { OnErr result ((result ≡ Err Fault.Memory) ⊎ (result ≡ Err Fault.NoSuchParty)) }
    {
        self.hand_in_frame(rt, &Sender::Front(0), to, frame)
    }

    /// Hands in a client's frame at each replica's link.
    pub fn to_all<R: Wait>(&self, rt: &R, frame: Bytes) -> Result<(), Fault>
        ensures { OnErr result ((result ≡ Err Fault.Memory) ⊎ (result ≡ Err Fault.NoSuchParty)) }
    {
        self.share_with_all(rt, &Sender::Front(0), frame)
    }

    /// Hands in a frame of a replica where it goes. What goes to itself goes over no link. A request is lost: it comes over
    /// its client's own link alone, so that no replica overtakes it with a copy that others can't check.
    pub(crate) fn send_from<R: Wait>(
        &self,
        rt: &R,
        from: ReplicaId,
        to: To,
        frame: Bytes,
    ) -> Result<(), Fault>
        ensures { OnErr result ((result ≡ Err Fault.Memory) ⊎ (result ≡ Err Fault.NoSuchParty)) }
    {
        let sender = &Sender::Replica(from);
        if is_request(frame.as_slice()) {
            self.turn_away(sender);
            return Ok(());
        }
        match to {
            To::All => self.share_with_all(rt, sender, frame),
            To::Replica(to) => {
                if to == from {
                    return Ok(());
                }
                self.hand_in_frame(rt, sender, to, frame)
            }
            To::Client(client) => self.to_client(rt, from, client, frame),
        }
    }

    /// Hands in a client's request at another replica's link, or at all others', as passed on by this replica.
    pub(crate) fn pass_request<R: Wait>(
        &self,
        rt: &R,
        from: ReplicaId,
        to: Option<ReplicaId>,
        frame: Bytes,
    ) -> Result<(), Fault>
        ensures { OnErr result ((result ≡ Err Fault.Memory) ⊎ (result ≡ Err Fault.NoSuchParty)) }
    {
        let Some(to) = to else {
            return self.pass_to_all(rt, from, &frame);
        };
        let parcel = Parcel::Passed { from, bytes: frame };
        self.hand_in(rt, from, to, parcel)
    }

    /// Hands it in at all others' links. One that can't take it doesn't keep it from the others.
    fn pass_to_all<R: Wait>(&self, rt: &R, from: ReplicaId, frame: &Bytes) -> Result<(), Fault>
        ensures { OnErr result ((result ≡ Err Fault.Memory) ⊎ (result ≡ Err Fault.NoSuchParty)) }
    {
        let mut all = Ok(());
        for number in 0..self.config.n() {
            let to = ReplicaId(number);
            if to == from {
                continue;
            }
            let bytes = frame.clone()?;
            let parcel = Parcel::Passed { from, bytes };
            if let Err(fault) = self.hand_in(rt, from, to, parcel) {
                all = Err(fault);
            }
        }
        all
    }

    /// Hands in at a replica's link what another answers to its question.
    fn hand_in_answer<R: Wait>(
        &self,
        rt: &R,
        from: ReplicaId,
        to: ReplicaId,
        answer: Answer,
    ) -> Result<(), Fault>
        ensures { OnErr result ((result ≡ Err Fault.Memory) ⊎ (result ≡ Err Fault.NoSuchParty)) }
    {
        match self.replicas.get(usize::from(to.0)) {
            Some(inbox) => {
                let handed = inbox.hand_in_answer(rt, from, answer);
                self.handed(&Sender::Replica(from), handed)
            }
            None => Err(Fault::NoSuchParty),
        }
    }

    /// Counts what couldn't be handed in.
    fn count(&self, answer: Result<(), Fault>) {
        if answer.is_err() {
            self.lose();
        }
    }

    /// Hands in a frame of a replica at a client's link.
    fn to_client<R: Wait>(
        &self,
        rt: &R,
        from: ReplicaId,
        to: ClientId,
        frame: Bytes,
    ) -> Result<(), Fault>
        ensures { OnErr result ((result ≡ Err Fault.Memory) ⊎ (result ≡ Err Fault.NoSuchParty)) }
    {
        match self.clients.hand_in(rt, from, to, frame) {
            Ok(()) => Ok(()),
            Err(NotTold::Memory) => Err(Fault::Memory),
            Err(NotTold::NoSuchClient | NotTold::Closed) => Err(Fault::NoSuchParty),
            Err(NotTold::Full) => {
                self.turn_away(&Sender::Replica(from));
                Ok(())
            }
        }
    }
}

/// What couldn't be handed in counts as lost.
impl Post for Links {
    fn config(&self) -> Config {
        self.config
    }

    fn doubt<R: Wait>(&self, rt: &R, from: ReplicaId, to: ReplicaId, voters: ReplicaSet) {
        let parcel = Parcel::Doubted { from, voters };
        self.count(self.hand_in(rt, from, to, parcel));
    }

    fn ask<R: Wait>(&self, rt: &R, from: ReplicaId, question: Question) {
        let to = question.to;
        let parcel = Parcel::Asked { from, question };
        self.count(self.hand_in(rt, from, to, parcel));
    }

    fn answer<R: Wait>(&self, rt: &R, from: ReplicaId, to: ReplicaId, answer: Answer) {
        self.count(self.hand_in_answer(rt, from, to, answer));
    }

    fn refused(&self, from: ReplicaId) -> u64 {
        self.turned_away(from)
    }
}
