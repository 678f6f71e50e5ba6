//! What comes to a front over the wire of one replica.

use bytes::Bytes;
use fabric::ClientLinks;
use frames_view::{Frame, read};
use ids::{Config, PartyId, ReplicaId};
use letters::Letter;
use std::alloc::Global;
use std::sync::Wait;
use wires::Arrivals;

/// Where one replica's replies are handed in. What comes over its wire is charged to it, whatever frames say. What doesn't fit is
/// lost: its client asks again.
#[derive(Drop)]
pub(crate) struct Replies<'a, R> {
    pub(crate) rt: &'a R,
    pub(crate) alloc: Global,
    pub(crate) config: Config,
    pub(crate) links: &'a ClientLinks,
    pub(crate) from: ReplicaId,
}

impl<R: Wait> Arrivals for Replies<'_, R> {
    ghost use Rattle.std.specs.Prelude.{⊤};

    // threads tell nothing of what they took
    ghost takes = { λ before from frame after. ⊤ };

    fn has_room(&self) -> bool {
        true
    }

    fn take(&mut self, _from: PartyId, frame: &[u8]) {
        let Some(Letter::Frame(frame)) = letters::read(frame) else {
            return;
        };
        let Ok(Frame::Reply(reply)) = read(&self.config, frame) else {
            return;
        };
        if let Ok(bytes) = Bytes::copy_from_slice(self.alloc, frame) {
            let _lost = self
                .links
                .hand_in(self.rt, self.from, reply.client(), bytes);
        }
    }
}
