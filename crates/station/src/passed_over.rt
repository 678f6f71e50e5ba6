//! Whose votes a leader passes over.

use authenticators::VerifyingKeyring;
use ids::{Config, MOST_REPLICAS, ReplicaId, View};
use std::sync::atomic::Ordering::SeqCst;
use std::sync::atomic::{AtomicBool, AtomicU64};
use std::sync::{Mutex, Wait};
use suspicion::{Doubt, Passing, ReplicaSet, doubt_in};
use tuning::{LOOK_MILLIS, MOST_UNHEARD_MILLIS, UNHEARD_MILLIS};

/// What replicas told of votes, and who of them is elsewhere, far behind or in a later view: it isn't heard, since it couldn't vote in
/// place of those of whom it tells.
#[derive(Drop)]
struct Told {
    passing: Passing,
    elsewhere: ReplicaSet,
}

impl Told {
    /// Whether one of these told something.
    fn is_by(&self, replicas: &ReplicaSet) -> bool {
        (0..MOST_REPLICAS as u8).any(|number| replicas.has(ReplicaId(number))
            && self.passing.has_told(ReplicaId(number)))
    }

    /// The replica's clock finds these far behind, and these ahead. Whether what was told is void: one that is far behind told
    /// something. Who isn't tells it again.
    fn see(&mut self, far: &ReplicaSet, ahead: &ReplicaSet) -> bool {
        self.elsewhere = far.or(ahead);
        let is_void = self.is_by(far);
        if is_void {
            self.passing.forget();
            self.passing.hear_all();
        }
        is_void
    }
}

/// The replicas whose votes a replica passes over where it leads, under their lock.
#[derive(Drop)]
pub(crate) struct PassedOver {
    /// The view that the replica was in when it was asked last.
    view: AtomicU64,
    is_asked: AtomicBool,
    are_any: AtomicBool,
    /// For how many milliseconds more who told something isn't heard, and for how many the next time in this view.
    unheard: AtomicU64,
    unheard_next: AtomicU64,
    told: Mutex<Told>,
}

impl PassedOver {
    /// Nobody is.
    pub(crate) fn none(config: Config) -> PassedOver {
        PassedOver {
            view: AtomicU64::new(0),
            is_asked: AtomicBool::new(false),
            are_any: AtomicBool::new(false),
            unheard: AtomicU64::new(0),
            unheard_next: AtomicU64::new(UNHEARD_MILLIS),
            told: Mutex::new(Told {
                passing: Passing::none(config),
                elsewhere: ReplicaSet::none(),
            }),
        }
    }

    /// Whether all are heard again at this look of the replica's clock: it is in another view than at the last one, or the time is
    /// over for which some weren't.
    fn hears_again(&self, view: View) -> bool {
        if self.view.swap(view.0, SeqCst) != view.0 {
            self.unheard.store(0, SeqCst);
            self.unheard_next.store(UNHEARD_MILLIS, SeqCst);
            return true;
        }
        let before = self.unheard.load(SeqCst);
        let left = before.saturating_sub(LOOK_MILLIS);
        self.unheard.store(left, SeqCst);
        before > 0 && left == 0
    }

    /// The replica's clock looks, once in `LOOK_MILLIS`, and finds it in this view, these far behind, and these ahead. The next refused
    /// frame is to be looked at.
    pub(crate) fn look_again<R: Wait>(
        &self,
        rt: &R,
        view: View,
        far: &ReplicaSet,
        ahead: &ReplicaSet,
    ) {
        let hears_again = self.hears_again(view);
        let mut told = self.told.lock(rt);
        if hears_again {
            told.passing.hear_all();
        }
        if told.see(far, ahead) {
            self.are_any.store(false, SeqCst);
        }
        self.is_asked.store(true, SeqCst);
    }

    /// Looks at a refused proposal of the replica's view, where one is asked for: whose votes in it aren't right for the replica.
    pub(crate) fn look<R: Wait>(
        &self,
        rt: &R,
        keyring: &VerifyingKeyring,
        bytes: &[u8],
    ) -> Option<Doubt> {
        if !self.is_asked.swap(false, SeqCst) {
            return None;
        }
        let doubt = doubt_in(keyring, bytes)?;
        self.told.lock(rt).passing.find(doubt.wrong);
        self.are_any.store(true, SeqCst);
        Some(doubt)
    }

    /// Another replica told whose votes in a leader's certificate weren't right for it. That is noted where this one leads, or
    /// where a quorum is left without all of them; but not of one that is elsewhere.
    pub(crate) fn hear<R: Wait>(&self, rt: &R, leads: bool, from: ReplicaId, voters: &ReplicaSet) {
        let mut told = self.told.lock(rt);
        if told.elsewhere.has(from) {
            return;
        }
        if leads || told.passing.spares(from, voters) {
            told.passing.hear(from, voters);
            self.are_any.store(true, SeqCst);
        }
    }

    /// Whether a replica is.
    pub(crate) fn has<R: Wait>(&self, rt: &R, voter: ReplicaId) -> bool {
        self.are_any.load(SeqCst) && self.told.lock(rt).passing.has(voter)
    }

    /// Nobody is any more. Who told something isn't heard for a while: twice as long as the last time in this view.
    pub(crate) fn forget<R: Wait>(&self, rt: &R) {
        let millis = self.unheard_next.load(SeqCst);
        self.unheard.store(millis, SeqCst);
        let next = millis.saturating_mul(2).min(MOST_UNHEARD_MILLIS);
        self.unheard_next.store(next, SeqCst);
        self.told.lock(rt).passing.forget();
        self.are_any.store(false, SeqCst);
    }
}
