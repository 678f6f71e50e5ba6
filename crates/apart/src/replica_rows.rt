//! What comes to a replica over the wire of one peer.

use crate::pending::Pending;
use bytes::Bytes;
use catching_up::Question;
use fabric::{Inbox, Parcel, Sender, is_request};
use ids::{Height, MOST_REPLICAS, PartyId, ReplicaId};
use letters::{Letter, Progress, read};
use station::Sights;
use std::alloc::Global;
use std::sync::Wait;
use suspicion::ReplicaSet;
use wires::Arrivals;

/// The row of one peer at a replica's inbox. What comes over its wire is charged to it, whatever frames say. What doesn't fit is
/// lost, as on any network.
#[derive(Drop)]
pub(crate) struct Row<'a, R> {
    pub(crate) rt: &'a R,
    pub(crate) alloc: Global,
    pub(crate) own: ReplicaId,
    pub(crate) inbox: &'a Inbox,
    pub(crate) sights: &'a Sights,
    pub(crate) from: Sender,
    pub(crate) pending: Pending,
}

/// Some replicas, of how a letter has them.
fn replicas_of(bits: u32) -> ReplicaSet {
    let mut replicas = ReplicaSet::none();
    for number in 0..MOST_REPLICAS as u8 {
        if bits & (1u32 << number) != 0 {
            replicas.add(ReplicaId(number));
        }
    }
    replicas
}

/// Which replica a sender is, if it is one.
fn replica_of(sender: &Sender) -> Option<ReplicaId> {
    match *sender {
        Sender::Replica(from) => Some(from),
        Sender::Front(_) => None,
    }
}

impl<R: Wait> Row<'_, R> {
    /// A letter of a front came: a frame, or it is lost.
    fn take_of_front(&self, letter: &Letter<'_>) {
        if let Letter::Frame(frame) = *letter {
            self.take_frame(frame);
        }
    }

    /// A frame came. A replica's wire brings no request, and a front's nothing else.
    fn take_frame(&self, frame: &[u8]) {
        let is_front = matches!(self.from, Sender::Front(_));
        if is_request(frame) != is_front {
            return;
        }
        if let Ok(bytes) = Bytes::copy_from_slice(self.alloc, frame) {
            let _lost = self.inbox.hand_in_frame(self.rt, &self.from, bytes);
        }
    }

    /// A replica says what is no frame.
    fn hear(&self, from: ReplicaId, parcel: Parcel) {
        let _lost = self.inbox.hand_in(self.rt, from, parcel);
    }

    /// A replica passes a request on.
    fn take_passed(&self, from: ReplicaId, frame: &[u8]) {
        if let Ok(bytes) = Bytes::copy_from_slice(self.alloc, frame) {
            let parcel = Parcel::Passed { from, bytes };
            self.hear(from, parcel);
        }
    }

    /// A replica tells how far it is.
    fn see(&self, from: ReplicaId, progress: Progress) {
        self.sights.show_height(from, progress.height);
        self.sights.show_view(from, progress.view);
    }

    /// A replica doubts votes of these.
    fn hear_doubt(&self, from: ReplicaId, bits: u32) {
        let voters = replicas_of(bits);
        let parcel = Parcel::Doubted { from, voters };
        self.hear(from, parcel);
    }

    /// A replica asks for what this one recorded.
    fn hear_question(&self, from: ReplicaId, height: Height, bytes: u64) {
        let question = Question {
            to: self.own,
            from: height,
            bytes,
        };
        let parcel = Parcel::Asked { from, question };
        self.hear(from, parcel);
    }

    /// All of a replica's answer came.
    fn end_answer(&mut self, from: ReplicaId, height: Height, bytes: u64, is_last: bool) {
        let answer = self.pending.end(from, height, bytes, is_last);
        let _lost = self.inbox.hand_in_answer(self.rt, from, answer);
    }

    /// A letter of a replica came.
    fn take_letter(&mut self, from: ReplicaId, letter: &Letter<'_>) {
        match *letter {
            Letter::Frame(frame) => self.take_frame(frame),
            Letter::Passed(frame) => self.take_passed(from, frame),
            Letter::Doubted(bits) => self.hear_doubt(from, bits),
            Letter::Asked {
                from: height,
                bytes,
            } => self.hear_question(from, height, bytes),
            Letter::Recorded {
                from: height,
                frame,
            } => self.pending.record(height, frame),
            Letter::Announced {
                from: height,
                frame,
            } => self.pending.announce(height, frame),
            Letter::Answered {
                from: height,
                bytes,
                is_last,
            } => self.end_answer(from, height, bytes, is_last),
            Letter::Told(progress) => self.see(from, progress),
        }
    }
}

impl<R: Wait> Arrivals for Row<'_, R> {
    ghost use Rattle.std.specs.Prelude.{⊤};

    // threads tell nothing of what they took
    ghost takes = { λ before from frame after. ⊤ };

    fn has_room(&self) -> bool {
        self.inbox.has_room(self.rt, &self.from)
    }

    fn take(&mut self, _from: PartyId, frame: &[u8]) {
        let Some(letter) = read(frame) else {
            return;
        };
        match replica_of(&self.from) {
            Some(from) => self.take_letter(from, &letter),
            None => self.take_of_front(&letter),
        }
    }
}
