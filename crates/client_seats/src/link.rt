//! A client's link over whatever carries its requests.

ghost use Rattle.std.specs.Prelude.{◌≡◌, ⊤};

use bytes::Bytes;
use client_service::Link;
use fabric::{ClientEnd, Requests};
use ids::ReplicaId;
use liars::for_each_alone;
use std::marker::Model;
use std::sync::{Arc, Wait};
use std::thread;
use std::time::{Clock, Duration, Instant};
use tuning::{CLIENT_HELD_MILLIS, REPLY_WAIT_MILLIS};

/// The link of one client: where it hands in frames for all replicas, and where its replies come out.
#[derive(Drop)]
pub struct ClientLink<R, Q> {
    rt: R,
    requests: Arc<Q>,
    frames: ClientEnd,
    /// Whether it sends each replica what is right for that one alone.
    lies: bool,
    /// Until when the client waits. None before its first request, and where the clock can't be read.
    until: Option<Instant>,
}

impl<R, Q> Model for ClientLink<R, Q> {
    ghost use Rattle.client_seats.specs.Seating as seating;

    ghost Value = { seating.Link };

    ghost view = { λ link. record { lies = link.lies } };
}

impl<R: Wait + Clock + AllocGlobal, Q: Requests> ClientLink<R, Q> {
    /// A link on which nothing was sent, of a client that lies or doesn't.
    pub(crate) fn new(rt: R, requests: Arc<Q>, frames: ClientEnd, lies: bool) -> ClientLink<R, Q>
        ensures { result.lies ≡ lies }
    {
        ClientLink {
            rt,
            requests,
            frames,
            lies,
            until: None,
        }
    }

    /// While more requests wait than replicas get on with, lets them catch up, where processors are too few for all. Not for
    /// long: they might not.
    fn hold_back(&self) {
        for _ in 0..CLIENT_HELD_MILLIS {
            if !self.requests.are_crowded(&self.rt) {
                break;
            }
            thread::sleep(&self.rt, Duration::from_millis(1));
        }
    }

    /// Hands in a frame for all replicas.
    fn tell_all(&self, frame: &[u8]) {
        if let Ok(bytes) = Bytes::copy_from_slice(self.rt.alloc(), frame) {
            self.requests.to_all(&self.rt, bytes);
        }
    }

    /// Hands in a frame, rightly or as a client that lies does.
    fn tell(&self, frame: &[u8]) {
        if self.lies {
            self.tell_each_alone(frame);
        } else {
            self.tell_all(frame);
        }
    }

    /// Hands in a frame for each replica, of whose tags that one's alone is left.
    fn tell_each_alone(&self, frame: &[u8]) {
        let config = self.requests.config();
        let Ok(frames) = for_each_alone(self.rt.alloc(), config, frame) else {
            return;
        };
        for (number, frame) in (0..config.n()).zip(frames) {
            if let Ok(bytes) = Bytes::from_vec(frame) {
                self.requests.to_replica(&self.rt, ReplicaId(number), bytes);
            }
        }
    }
}

/// A request that may not go out is lost, as on any network.
impl<R: Wait + Clock + AllocGlobal, Q: Requests> Link for ClientLink<R, Q> {
    // threads and channels tell nothing of what went over them
    ghost carries = { λ before traffic after. ⊤ };

    fn is_open(&self) -> bool {
        self.requests.are_open(&self.rt)
    }

    fn send(&mut self, frame: &[u8]) {
        self.hold_back();
        if self.requests.may_go(&self.rt, frame) {
            self.tell(frame);
        }
        self.until = match Instant::now(&self.rt) {
            Ok(now) => now.checked_add(Duration::from_millis(REPLY_WAIT_MILLIS)),
            Err(_) => None,
        };
    }

    fn receive(&mut self, frame: &mut Vec<u8>) -> bool {
        let Some(until) = self.until else {
            return false;
        };
        match self.frames.recv_deadline(&self.rt, until) {
            Some(bytes) => frame.extend_from_slice(bytes.as_slice()).is_ok(),
            None => false,
        }
    }
}
