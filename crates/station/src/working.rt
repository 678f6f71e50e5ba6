//! What each worker thread of a station does.

use crate::lying::LyingOut;
use crate::outside::Outside;
use crate::station::Station;
use crate::worker::WorkerStart;
use fabric::{Post, Worker};
use std::sync::Wait;
use std::sync::atomic::AtomicBool;
use std::sync::atomic::Ordering::SeqCst;
use std::thread;
use std::time::{Clock, Duration};
use tuning::LOOK_MILLIS;
use turns::Open;

/// Waits until others are as far as they are to be before a station's workers begin, or it is told to stop. What comes
/// meanwhile is lost.
fn wait_for_others<R: Wait + Clock>(rt: &R, station: &Station<'_>, stop: &AtomicBool) {
    let Some(height) = station.late else {
        return;
    };
    for _ in rt.forever() {
        if station.comeback.foremost().0 >= height.0 || stop.load(SeqCst) {
            break;
        }
        station.inbox.lose(rt);
        thread::sleep(rt, Duration::from_millis(LOOK_MILLIS));
    }
}

/// Works at a station until it is told to stop, with a share of its replica. What the replica says goes out by this post.
pub fn run_worker<'s, R: Wait + Clock + AllocGlobal, P: Post>(
    rt: &'s R,
    station: &'s Station<'_>,
    post: &'s P,
    worker: WorkerStart,
    stop: &AtomicBool,
) {
    let WorkerStart { keyring, liar } = worker;
    wait_for_others(rt, station, stop);
    let Some(share) = station.take_share(rt) else {
        return;
    };
    let (alloc, gate) = (rt.alloc(), Open);
    let mut steps = &station.locked;
    let share = match liar {
        None => {
            let out = Outside::new(rt, post, station);
            let worker = Worker::new(alloc, keyring, &gate, &station.inbox, &out, &station.room);
            worker.run(rt, &mut steps, share)
        }
        Some(liar) => {
            let out = LyingOut::new(rt, liar, post, station);
            let worker = Worker::new(alloc, keyring, &gate, &station.inbox, &out, &station.room);
            worker.run(rt, &mut steps, share)
        }
    };
    station.put_back(rt, share);
}
