//! How frames go out to a peer.

use crate::slot::Slot;
use crate::wires::Wires;
use crate::writing::write_frames;
use bytes::Bytes;
use connection::Counted;
use std::sync::Wait;
use std::time::Clock;
use tuning::WIRE_PIECE_BYTES;

/// Writes what waits for a peer, over one link after the other, until all is told to end.
pub(crate) fn keep_writing<R: Wait + Clock + AllocGlobal>(rt: &R, wires: &Wires, slot: &Slot) {
    let mut batch = Vec::new(rt.alloc());
    let mut room = Vec::new(rt.alloc());
    let ping = [Bytes::new()];
    for _ in rt.forever() {
        let turn = slot.next_turn(rt, wires.pace.ping, WIRE_PIECE_BYTES, &mut batch);
        let Some(link) = turn else {
            break;
        };
        let frames = if batch.is_empty() {
            ping.as_slice()
        } else {
            batch.as_slice()
        };
        let mut writer = Counted::new(&link.stream);
        if write_frames(wires.config(), frames, &mut room, &mut writer).is_err() {
            slot.leave(rt, &link);
        }
        batch.clear();
    }
}
