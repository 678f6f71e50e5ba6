//! The thread that looks at a replica.

ghost use Rattle.std.specs.Prelude.{◌≡◌};
ghost use Rattle.clock.specs.Pruning as pruning;

use crate::forgetting::{Keep, prune_at, shown_by};
use crate::trouble::Trouble;
use crate::watch::{Due, Pulse, Watch};
use ids::{Config, Fault, Height, MOST_REPLICAS, View};
use std::sync::Wait;
use std::sync::atomic::AtomicBool;
use std::sync::atomic::Ordering::SeqCst;
use std::thread;
use std::time::{Clock, Duration, Instant};
use tuning::{FULL_LOOKS, LOOK_MILLIS};

/// A replica that can be looked at, and handed what is due to it. What doesn't come to it is due again soon.
pub trait Watched {
    /// What is seen of it now.
    fn pulse<R: Wait>(&self, rt: &R) -> Pulse;

    /// How many certificates came so far that weren't good for it.
    fn doubted(&self) -> u64;

    /// Is told whether there is trouble around it, and the view that it is in.
    fn tell_trouble(&self, is_on: bool, view: View);

    /// Hands in a beat, a timeout or a lead, or several of them.
    fn hand_in<R: Wait>(&self, rt: &R, due: Due);

    /// Shows all replicas the height up to which it has executed, or that it goes on no more.
    fn show(&self, height: Height);

    /// What each replica has shown; the greatest height where there is none.
    fn shown(&self) -> [Height; MOST_REPLICAS];

    /// Hands in leave to prune its tree up to a height.
    fn prune<R: Wait>(&self, rt: &R, height: Height);
}

/// The milliseconds since a moment. Where the clock can't be read none have passed.
fn millis_since<R: Clock>(rt: &R, start: Option<Instant>) -> u64 {
    let passed = start.and_then(|start| start.elapsed(rt).ok());
    match passed {
        Some(passed) => u64::try_from(passed.as_millis()).unwrap_or(u64::MAX),
        None => 0,
    }
}

/// For how many looks a replica has been full, with this one, where it was given leave to forget.
fn full_for(looks: u64, pulse: &Pulse, may_forget: bool) -> u64
    ensures { result ≡ pruning.full_for looks pulse.now may_forget }
{
    if matches!(pulse.stopped, Some(Fault::Full)) && may_forget {
        looks.saturating_add(1)
    } else {
        0
    }
}

/// Looks at a replica of these sizes each `LOOK_MILLIS` until it is told to stop, and hands in beats, timeouts, leads, and
/// prunings that leave it so much, if it is to prune. Its views may take so many times as long as where frames take no time. It
/// tells whether there is trouble.
///
/// It ends where the replica has stopped, too, and tells why; one that is full may be so for `FULL_LOOKS` while it may
/// forget. Where it was told to stop, it tells nothing.
pub fn keep_time<R: Wait + Clock, W: Watched>(
    rt: &R,
    replica: &W,
    config: Config,
    times: u64,
    keep: Option<Keep>,
    stop: &AtomicBool,
) -> Option<Fault> {
    let start = Instant::now(rt).ok();
    let (mut watch, mut trouble) = (Watch::new(config, times), Trouble::none());
    let mut full = 0;
    for _ in rt.forever() {
        if stop.load(SeqCst) {
            break;
        }
        thread::sleep(rt, Duration::from_millis(LOOK_MILLIS));
        let pulse = replica.pulse(rt);
        let forgettable = keep.and_then(|keep| prune_at(keep, &replica.shown(), &pulse));
        if let Some(height) = forgettable {
            replica.prune(rt, height);
        }
        full = full_for(full, &pulse, forgettable.is_some());
        if 0 < full && full < FULL_LOOKS {
            continue;
        }
        replica.show(shown_by(pulse));
        if pulse.stopped.is_some() {
            return pulse.stopped;
        }
        let now = millis_since(rt, start);
        let is_on = trouble.look(now, pulse.view, replica.doubted());
        replica.tell_trouble(is_on, pulse.view);
        replica.hand_in(rt, watch.look(now, pulse));
    }
    None
}
