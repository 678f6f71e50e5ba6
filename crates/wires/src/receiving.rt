//! From a connection's bytes to frames that are handed on.

ghost use Rattle.std.specs.Prelude.{◌≡◌, ◌≤◌, length, OnOk, OnErr, MatchResult};
ghost use Rattle.wire_frames.specs.Framing.{IsUnfinished, IsTooLong};
ghost use Rattle.wire_frames.specs.Longest.{longest_item};
ghost use Rattle.wires.specs.Receiving.{Passes, Receives, ReceivesMore, IsLeft};

use crate::arrivals::Arrivals;
use crate::end::End;
use connection::Counted;
use handshake::Peer;
use ids::{Config, PartyId};
use std::io::Read;
use std::sync::atomic::AtomicBool;
use std::sync::atomic::Ordering::SeqCst;
use std::thread;
use std::time::{Clock, Duration};
use tuning::{ROOM_LOOK_MILLIS, WIRE_PIECE_BYTES};
use wire_frames::{Feed, Item, WireFault};

/// Hands on all whole frames that are held, as this party's.
fn hand_on<A: Arrivals>(feed: &mut Feed, from: PartyId, rows: &mut A) -> Result<(), WireFault>
    ensures passes { Passes A.takes from rows.old rows.new feed.old.held feed.new.held }
    ensures sizes { (feed.new.longest ≡ feed.old.longest) × (feed.new.piece ≡ feed.old.piece) }
    ensures all { OnOk result (IsUnfinished feed.old.longest feed.new.held) }
    ensures refused { OnErr result (IsTooLong feed.old.longest feed.new.held) }
{
    loop {
        match feed.next()? {
            None => return Ok(()),
            Some(Item::Ping) => {}
            Some(Item::Frame(frame)) => rows.take(from, frame),
        }
    }
}

/// Reads once, and hands on all whole frames that are held then, as this party's. Says whether something came.
fn receive_some<D: Read, A: Arrivals>(
    reader: &mut Counted<D>,
    piece: &mut [u8],
    feed: &mut Feed,
    from: PartyId,
    rows: &mut A,
) -> Result<(), End>
    requires unfinished { IsUnfinished feed.old.longest feed.old.held }
    requires piece { length piece.old ≤ feed.old.piece }
    ensures read { ReceivesMore A.takes from rows.old rows.new (D.remaining reader.old.device)
        (D.remaining reader.new.device) feed.old feed.new }
    ensures sizes { (feed.new.longest ≡ feed.old.longest) × (feed.new.piece ≡ feed.old.piece) }
    ensures left { MatchResult result (λ _. IsUnfinished feed.old.longest feed.new.held)
        (IsLeft feed.old.longest feed.new.held) }
{
    let Ok(count) = reader.read(piece) else {
        return Err(End::Failed);
    };
    if count == 0 {
        return Err(End::Closed);
    }
    feed.push(&piece[..count]).unwrap();
    match hand_on(feed, from, rows) {
        Ok(()) => Ok(()),
        Err(_) => Err(End::BadLength),
    }
}

/// Whether there is room for what a read brings, as soon as there is some. False where it is told to end before.
fn finds_room<R: Clock, A: Arrivals>(rt: &R, rows: &A, is_over: &AtomicBool) -> bool {
    for _ in 0..u64::MAX {
        if is_over.load(SeqCst) {
            return false;
        }
        if rows.has_room() {
            return true;
        }
        thread::sleep(rt, Duration::from_millis(ROOM_LOOK_MILLIS));
    }
    false
}

/// Reads a peer's connection to its end, and hands on each frame that comes whole, in order, as the party's that the
/// handshake named. Says why nothing more is read. While there is no room for what a read brings, nothing is read.
pub fn receive<R: Clock + AllocGlobal, D: Read, A: Arrivals>(
    rt: &R,
    config: &Config,
    peer: &Peer,
    reader: &mut Counted<D>,
    rows: &mut A,
    is_over: &AtomicBool,
) -> End
    ensures { Receives A.takes peer.now.party rows.old rows.new (D.remaining reader.old.device)
        (D.remaining reader.new.device) (longest_item config.now) result }
{
    let (alloc, from) = (rt.alloc(), peer.party());
    let Ok(mut feed) = Feed::new(alloc, config, WIRE_PIECE_BYTES) else {
        return End::Memory;
    };
    let Ok(mut piece) = vec![in alloc; 0; WIRE_PIECE_BYTES] else {
        return End::Memory;
    };
    for _ in 0..u64::MAX {
        if !finds_room(rt, rows, is_over) {
            break;
        }
        if let Err(end) = receive_some(reader, &mut piece, &mut feed, from, rows) {
            return end;
        }
    }
    End::Closed
}
