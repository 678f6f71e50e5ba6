//! What a replica says, over wires.

use crate::fronts::Fronts;
use bytes::Bytes;
use catching_up::Question;
use fabric::{Answer, Outgoing, Post, Questioned, Recording, is_request};
use ids::{ClientId, Config, MOST_REPLICAS, PartyId, ReplicaId};
use letters::{Letter, Progress, write};
use signed_frames::{Sending, To};
use std::alloc::Global;
use std::sync::Wait;
use std::sync::atomic::AtomicU64;
use std::sync::atomic::Ordering::SeqCst;
use suspicion::ReplicaSet;
use wires::Wires;

/// The wires of a replica's process. What can't go out is lost and counted.
#[derive(Drop)]
pub(crate) struct WirePost<'a> {
    alloc: Global,
    own: ReplicaId,
    config: Config,
    wires: &'a Wires,
    fronts: &'a Fronts,
    lost: AtomicU64,
}

impl<'a> WirePost<'a> {
    /// The wires of this replica.
    pub(crate) fn new(
        alloc: Global,
        own: ReplicaId,
        config: Config,
        wires: &'a Wires,
        fronts: &'a Fronts,
    ) -> WirePost<'a> {
        WirePost {
            alloc,
            own,
            config,
            wires,
            fronts,
            lost: AtomicU64::new(0),
        }
    }

    /// The sizes of the deployment.
    pub(crate) fn config(&self) -> Config {
        self.config
    }
}

/// Some replicas, as a letter has them.
fn bits_of(replicas: &ReplicaSet) -> u32 {
    let mut bits = 0u32;
    for number in 0..MOST_REPLICAS as u8 {
        if replicas.has(ReplicaId(number)) {
            bits |= 1u32 << number;
        }
    }
    bits
}

impl WirePost<'_> {
    /// How many frames and letters couldn't go out.
    pub(crate) fn lost(&self) -> u64 {
        self.lost.load(SeqCst)
    }

    fn lose(&self) {
        self.lost.fetch_add(1, SeqCst);
    }

    /// Sends bytes to a party.
    fn put<R: Wait>(&self, rt: &R, to: PartyId, bytes: Bytes) {
        if self.wires.send(rt, to, bytes).is_err() {
            self.lose();
        }
    }

    /// Sends the same bytes to each other replica.
    fn put_to_all<R: Wait>(&self, rt: &R, bytes: &Bytes) {
        for number in 0..self.config.n() {
            let to = ReplicaId(number);
            if to == self.own {
                continue;
            }
            match bytes.clone() {
                Ok(copy) => self.put(rt, PartyId::from(to), copy),
                Err(_) => self.lose(),
            }
        }
    }

    /// Sends a frame to the front of a client.
    fn put_to_client<R: Wait>(&self, rt: &R, client: ClientId, bytes: Bytes) {
        match self.fronts.of_client(client) {
            Some(front) => self.put(rt, front.party(), bytes),
            None => self.lose(),
        }
    }

    /// The bytes of a letter. None for want of memory: then it is lost.
    fn spell(&self, letter: &Letter<'_>) -> Option<Bytes> {
        let bytes = write(self.alloc, letter).ok()?;
        Bytes::from_vec(bytes).ok()
    }

    /// Sends a letter to a replica.
    fn tell<R: Wait>(&self, rt: &R, to: ReplicaId, letter: &Letter<'_>) {
        match self.spell(letter) {
            Some(bytes) => self.put(rt, PartyId::from(to), bytes),
            None => self.lose(),
        }
    }

    /// Tells each other replica how far this one is.
    pub(crate) fn tell_all<R: Wait>(&self, rt: &R, progress: Progress) {
        match self.spell(&Letter::Told(progress)) {
            Some(bytes) => self.put_to_all(rt, &bytes),
            None => self.lose(),
        }
    }
}

impl Outgoing for WirePost<'_> {
    /// A request goes nowhere: it comes over its client's own wire alone.
    fn send<R: Wait>(&self, rt: &R, _from: ReplicaId, sending: Sending) {
        let Sending { to, frame, .. } = sending;
        let Ok(bytes) = Bytes::from_vec(frame) else {
            self.lose();
            return;
        };
        if is_request(bytes.as_slice()) {
            self.lose();
            return;
        }
        match to {
            To::All => self.put_to_all(rt, &bytes),
            To::Replica(to) => self.put(rt, PartyId::from(to), bytes),
            To::Client(client) => self.put_to_client(rt, client, bytes),
        }
    }

    fn pass_on<R: Wait>(&self, rt: &R, _from: ReplicaId, to: Option<ReplicaId>, frame: Bytes) {
        let Some(bytes) = self.spell(&Letter::Passed(frame.as_slice())) else {
            self.lose();
            return;
        };
        match to {
            Some(to) => self.put(rt, PartyId::from(to), bytes),
            None => self.put_to_all(rt, &bytes),
        }
    }
}

impl Post for WirePost<'_> {
    fn config(&self) -> Config {
        self.config
    }

    fn doubt<R: Wait>(&self, rt: &R, _from: ReplicaId, to: ReplicaId, voters: ReplicaSet) {
        self.tell(rt, to, &Letter::Doubted(bits_of(&voters)));
    }

    fn ask<R: Wait>(&self, rt: &R, _from: ReplicaId, question: Question) {
        let letter = Letter::Asked {
            from: question.from,
            bytes: question.bytes,
        };
        self.tell(rt, question.to, &letter);
    }

    /// An answer goes frame by frame.
    fn answer<R: Wait>(&self, rt: &R, _from: ReplicaId, to: ReplicaId, answer: Answer) {
        let Answer {
            question,
            frames,
            announced,
            is_last,
        } = answer;
        let from = question.from;
        for frame in &frames {
            let frame = frame.as_slice();
            self.tell(rt, to, &Letter::Recorded { from, frame });
        }
        for frame in &announced {
            let frame = frame.as_slice();
            self.tell(rt, to, &Letter::Announced { from, frame });
        }
        let end = Letter::Answered {
            from,
            bytes: question.bytes,
            is_last,
        };
        self.tell(rt, to, &end);
    }
}

/// It keeps no questions.
impl Questioned for WirePost<'_> {}

/// It keeps no record.
impl Recording for WirePost<'_> {}
