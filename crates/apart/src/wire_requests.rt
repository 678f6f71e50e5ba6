//! What clients of a front send, over wires.

use crate::numbering::Numbering;
use bytes::Bytes;
use fabric::Requests;
use frames_view::{Frame, read};
use ids::{Config, PartyId, ReplicaId};
use std::sync::Wait;
use std::sync::atomic::AtomicU64;
use std::sync::atomic::Ordering::SeqCst;
use std::time::{Clock, Instant};
use tuning::UNREACHED_MILLIS;
use wires::Wires;

/// The wires of a front's process. What can't go out is lost; and no number goes out before it is marked.
#[derive(Drop)]
pub(crate) struct WireRequests {
    config: Config,
    wires: Wires,
    numbering: Numbering,
    /// When it began. None where the clock can't be read.
    began: Option<Instant>,
    /// When a quorum was linked last, in milliseconds since it began.
    met: AtomicU64,
}

impl WireRequests {
    /// Over these wires, where no replica is linked yet.
    pub(crate) fn new<R: Clock>(
        rt: &R,
        config: Config,
        wires: Wires,
        numbering: Numbering,
    ) -> WireRequests {
        WireRequests {
            config,
            wires,
            numbering,
            began: Instant::now(rt).ok(),
            met: AtomicU64::new(0),
        }
    }

    /// The wires.
    pub(crate) fn wires(&self) -> &Wires {
        &self.wires
    }

    /// Which numbers may go out.
    pub(crate) fn numbering(&self) -> &Numbering {
        &self.numbering
    }

    /// The milliseconds since it began.
    fn now<R: Clock>(&self, rt: &R) -> u64 {
        let passed = self.began.and_then(|began| began.elapsed(rt).ok());
        passed.map_or(
            0,
            |passed| u64::try_from(passed.as_millis()).unwrap_or(u64::MAX),
        )
    }

    /// How many replicas there are.
    pub(crate) fn replicas(&self) -> u8 {
        self.config.n()
    }

    /// How many replicas are linked.
    pub(crate) fn linked<R: Wait>(&self, rt: &R) -> usize {
        (0..self.config.n())
            .filter(|number| self.wires.is_linked(rt, PartyId::from(ReplicaId(*number))))
            .count()
    }
}

/// A front is open while a quorum of replicas is linked, and for a moment longer.
impl Requests for WireRequests {
    fn config(&self) -> Config {
        self.config
    }

    fn are_open<R: Wait + Clock>(&self, rt: &R) -> bool {
        let now = self.now(rt);
        if self.linked(rt) >= usize::from(self.config.quorum()) {
            self.met.store(now, SeqCst);
            return true;
        }
        now.saturating_sub(self.met.load(SeqCst)) <= UNREACHED_MILLIS
    }

    fn are_crowded<R: Wait>(&self, _rt: &R) -> bool {
        false
    }

    fn may_go<R: Wait>(&self, rt: &R, frame: &[u8]) -> bool {
        match read(&self.config, frame) {
            Ok(Frame::Request(request)) => self.numbering.may_give(rt, request.seq()),
            _ => false,
        }
    }

    fn to_all<R: Wait>(&self, rt: &R, frame: Bytes) {
        for number in 0..self.config.n() {
            if let Ok(copy) = frame.clone() {
                self.to_replica(rt, ReplicaId(number), copy);
            }
        }
    }

    fn to_replica<R: Wait>(&self, rt: &R, to: ReplicaId, frame: Bytes) {
        let _lost = self.wires.send(rt, PartyId::from(to), frame);
    }
}
