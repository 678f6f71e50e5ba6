//! How a replica that fell behind comes back.

ghost use Rattle.std.specs.Prelude.{◌≡◌, ◌-◌, ◌<◌, nat_le, nat_lt};
ghost use Rattle.ids.specs.Sizes.{replicas};
ghost use Rattle.tuning.specs.declared.catching_up.TheConstants.{NEAR_HEIGHTS, STILL_HEIGHTS};

use catching_up::{CatchingUp, Pace, Question, foremost};
use ids::{Config, Height, ReplicaId};
use std::sync::atomic::Ordering::SeqCst;
use std::sync::atomic::{AtomicBool, AtomicU64};
use std::sync::{Mutex, Wait};
use tuning::{
    AWAY_HEIGHTS, CATCH_UP_BYTES, CATCH_UP_PAUSE_MILLIS, CATCH_UP_TURN_MILLIS, LOOK_MILLIS,
    MOST_CATCH_UP_BYTES, MOST_CATCH_UP_PAUSE_MILLIS, NEAR_HEIGHTS, STILL_HEIGHTS, STILL_MILLIS,
};

/// How fast it asks.
fn pace() -> Pace {
    Pace {
        least: AWAY_HEIGHTS,
        near: NEAR_HEIGHTS,
        pause: CATCH_UP_PAUSE_MILLIS,
        most_pause: MOST_CATCH_UP_PAUSE_MILLIS,
        turn: CATCH_UP_TURN_MILLIS,
        bytes: CATCH_UP_BYTES,
        most_bytes: MOST_CATCH_UP_BYTES,
    }
}

/// Whether a height is no more than a little below the foremost.
pub(crate) fn is_near(foremost: Height, height: Height) -> bool
    ensures { result ≡ nat_le (foremost - height) NEAR_HEIGHTS }
{
    foremost.0.saturating_sub(height.0) <= NEAR_HEIGHTS
}

/// Whether a height is some below the foremost.
fn is_below(foremost: Height, height: Height) -> bool
    ensures { result ≡ nat_lt STILL_HEIGHTS (foremost - height) }
{
    foremost.0.saturating_sub(height.0) > STILL_HEIGHTS
}

/// What a replica asks for where it fell behind, under its lock, and what its clock and its workers tell each other of that.
#[derive(Drop)]
pub(crate) struct Comeback {
    faults: u8,
    state: Mutex<CatchingUp>,
    /// The height that more than f others had executed when its clock looked last.
    foremost: AtomicU64,
    /// How often its clock has looked since that changed.
    still: AtomicU64,
    is_away: AtomicBool,
    /// Up to which height frames are of use to it while it is far behind.
    reach: AtomicU64,
    /// Whether it was some heights below the foremost when its clock looked last.
    trails: AtomicBool,
    /// Whether it is to look whether it asks, and has not yet.
    is_prompted: AtomicBool,
}

impl Comeback {
    /// It isn't behind.
    pub(crate) fn none(config: Config, own: ReplicaId) -> Comeback
        requires { own < replicas config }
    {
        Comeback {
            faults: config.faults(),
            state: Mutex::new(CatchingUp::new(config, own, pace())),
            foremost: AtomicU64::new(0),
            still: AtomicU64::new(0),
            is_away: AtomicBool::new(false),
            reach: AtomicU64::new(0),
            trails: AtomicBool::new(false),
            is_prompted: AtomicBool::new(false),
        }
    }

    /// Whether it is far behind is told, with the height that it has executed.
    fn tell(&self, height: Height, is_away: bool) {
        let reach = height.0.saturating_add(AWAY_HEIGHTS);
        self.reach.store(reach, SeqCst);
        self.is_away.store(is_away, SeqCst);
    }

    /// Its clock sees the height that more than f others have executed.
    fn note_foremost(&self, foremost: Height) {
        let is_still = self.foremost.swap(foremost.0, SeqCst) == foremost.0;
        let looks = self.still.load(SeqCst);
        let still = if is_still { looks.saturating_add(1) } else { 0 };
        self.still.store(still, SeqCst);
    }

    /// The height by which it tells whether it asks, where it has executed up to this one: that of the foremost; where they stand
    /// still, and it lacks more than a few heights, one as far above as it asks from.
    fn aim(&self, height: Height) -> Height {
        let foremost = self.foremost();
        let are_still = self.still.load(SeqCst) >= STILL_MILLIS / LOOK_MILLIS;
        if are_still && is_below(foremost, height) {
            Height(foremost.0.saturating_add(AWAY_HEIGHTS))
        } else {
            foremost
        }
    }

    /// Its clock sees that it has executed up to this height, and what all have shown. Whether it is to be prompted to look
    /// whether it asks.
    pub(crate) fn see<R: Wait>(&self, rt: &R, height: Height, shown: &[Height]) -> bool {
        self.note_foremost(foremost(self.faults, shown));
        self.trails.store(is_below(self.foremost(), height), SeqCst);
        let aim = self.aim(height);
        let (was_away, is_away) = {
            let state = self.state.lock(rt);
            (state.is_away(), state.is_far(height, aim))
        };
        self.tell(height, is_away);
        (was_away || is_away) && !self.is_prompted.swap(true, SeqCst)
    }

    /// Whether it is far behind.
    pub(crate) fn is_away(&self) -> bool {
        self.is_away.load(SeqCst)
    }

    /// Whether it was some heights below the foremost when its clock looked last.
    pub(crate) fn trails(&self) -> bool {
        self.trails.load(SeqCst)
    }

    /// Whether no more than f others were ahead of it by more than a little when its clock looked last, where it has executed up to
    /// this height.
    pub(crate) fn is_near(&self, height: Height) -> bool {
        is_near(self.foremost(), height)
    }

    /// Where it is far behind, up to which height frames are of use to it.
    pub(crate) fn reach(&self) -> Option<Height> {
        if self.is_away() {
            Some(Height(self.reach.load(SeqCst)))
        } else {
            None
        }
    }

    /// The question that is due at a moment, if one is, where it has executed up to this height.
    pub(crate) fn look<R: Wait>(&self, rt: &R, now: u64, height: Height) -> Option<Question> {
        self.is_prompted.store(false, SeqCst);
        let aim = self.aim(height);
        let mut state = self.state.lock(rt);
        let question = state.look(now, height, aim);
        self.tell(height, state.is_away());
        question
    }

    /// Whether the answer to this question is awaited.
    pub(crate) fn awaits<R: Wait>(&self, rt: &R, question: &Question) -> bool {
        self.state.lock(rt).is_awaited(question)
    }

    /// All of the answer to a question was taken, by which it has executed up to this height.
    pub(crate) fn answered<R: Wait>(&self, rt: &R, now: u64, height: Height, question: &Question) {
        self.state.lock(rt).answered(now, height, question);
    }

    /// The height that more than f others had executed when its clock looked last.
    pub(crate) fn foremost(&self) -> Height {
        Height(self.foremost.load(SeqCst))
    }
}
