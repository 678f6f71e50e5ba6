//! One replica of a running deployment.

ghost use Rattle.std.specs.Prelude.{◌≡◌, IfOk};
ghost use Rattle.locked_replica.specs.Kept.{mark_of};
ghost use Rattle.marks.specs.Eyes.{IsOwnerOf};

use crate::comeback::Comeback;
use crate::doubts::Doubts;
use crate::forerunners::Forerunners;
use crate::guarded::Guarded;
use crate::left_out::LeftOut;
use crate::passed_over::PassedOver;
use crate::recorder::Recorder;
use crate::trouble::TroubleSign;
use clock::Keep;
use fabric::{Inbox, WaitingRoom};
use ids::{Height, ReplicaId, View};
use locked_replica::{Closed, NotAll, Share};
use log::{Log, warn};
use replica::Replica;
use std::marker::Model;
use std::sync::atomic::Ordering::SeqCst;
use std::sync::atomic::{AtomicBool, AtomicU64};
use std::sync::{Arc, Mutex, MutexGuard, Wait};
use tuning::WARNING_PAUSE_SECONDS;

/// How far a replica is.
#[derive(Clone, Copy, Debug)]
pub struct Progress {
    /// The height that it has executed.
    pub height: Height,
    /// Up to where it has forgotten.
    pub horizon: Height,
    /// How many blocks it holds.
    pub blocks: usize,
    /// How many requests it has that aren't executed.
    pub pending: usize,
    pub view: View,
    /// Whether it makes steps.
    pub goes_on: bool,
    /// Whether it is far behind, and asks others for what they recorded.
    pub is_away: bool,
}

/// A station's replica, for as long as it is looked at: its workers wait meanwhile.
#[derive(Drop)]
pub struct Looking<'s, 'a> {
    guarded: MutexGuard<'s, Guarded<'a>>,
}

impl Looking<'_, '_> {
    /// The replica.
    pub fn replica(&self) -> &Replica {
        self.guarded.replica()
    }
}

/// A replica under its lock, behind its doorkeeper, and where what is for it comes out.
#[derive(Drop)]
pub struct Station<'a> {
    pub(crate) number: ReplicaId,
    pub(crate) locked: Mutex<Guarded<'a>>,
    /// The replica's shares that no worker has: all of them, before workers begin and once they have ended. There is room for
    /// all.
    pub(crate) shares: Mutex<Vec<Share>>,
    /// How much it keeps, if it is to forget.
    pub(crate) keep: Option<Keep>,
    /// How many times as long as on one machine views and commands may take.
    pub(crate) patience: u64,
    /// One more than the last view that its clock ended, 0 where there is none.
    pub(crate) ended: AtomicU64,
    /// Whether no quorum was in its view or a later one when its clock looked last.
    pub(crate) alone: AtomicBool,
    /// One more than the last view whose end it held back, 0 where there is none.
    pub(crate) held: AtomicU64,
    pub(crate) doubts: Doubts,
    pub(crate) trouble: TroubleSign,
    pub(crate) passed_over: PassedOver,
    pub(crate) left_out: LeftOut,
    pub(crate) forerunners: Forerunners,
    pub(crate) recorder: Recorder,
    pub(crate) comeback: Comeback,
    /// Up to which height others are to have executed before its workers begin.
    pub(crate) late: Option<Height>,
    pub(crate) inbox: Arc<Inbox>,
    pub(crate) room: WaitingRoom,
}

impl<'a> Model for Station<'a> {
    ghost use Rattle.station.specs.Stations as stations;

    ghost Value = { stations.Station };

    ghost view = { λ s. record { number = s.number; keep = s.keep } };
}

impl<'a> Station<'a> {
    /// Which replica stands here.
    pub fn number(&self) -> ReplicaId
        ensures { result ≡ self.now.number }
    {
        self.number
    }

    /// The replica and its eye, once nobody works here any more: they come back for all its shares.
    pub fn close(self) -> Result<Closed, NotAll<'a>>
        ensures owner { IfOk result (λ c. IsOwnerOf c.replica.keys.party c.eye.sight
            × (c.eye.sight.put ≡ mark_of c.replica.replica)) }
    {
        let kept = self.locked.into_inner().kept;
        kept.close(self.shares.into_inner())
    }

    /// How far the replica is.
    pub fn progress<R: Wait>(&self, rt: &R) -> Progress {
        let guarded = self.locked.lock(rt);
        let replica = guarded.replica();
        Progress {
            height: replica.height(),
            horizon: replica.horizon(),
            blocks: replica.blocks(),
            pending: replica.pending(),
            view: replica.view(),
            goes_on: guarded.stopped().is_none(),
            is_away: self.comeback.is_away(),
        }
    }

    /// The replica, once nobody works at it.
    pub fn look<R: Wait>(&self, rt: &R) -> Looking<'_, 'a> {
        Looking {
            guarded: self.locked.lock(rt),
        }
    }

    /// The lowest height of a frame that it recorded for others; the greatest of all where there is none.
    pub fn recorded<R: Wait>(&self, rt: &R) -> Height {
        self.recorder.lowest(rt)
    }

    /// The height that more than f others had executed when its clock looked last.
    pub fn foremost(&self) -> Height {
        self.comeback.foremost()
    }

    /// Warns of certificates that it doubts, once a minute at most: from which second on it may do so again, where that was from
    /// this second on.
    pub fn warn_of_doubts<R: Wait + Log>(&self, rt: &R, again: u64, second: u64) -> u64 {
        if second < again {
            return again;
        }
        let Some(doubt) = self.doubts.take(rt) else {
            return again;
        };
        let (number, sender) = (self.number.0, doubt.sender.0);
        warn!(rt; "replica {number} doubts certificates of replica {sender}: votes in them aren't right for it, of \
            replicas{doubt}");
        second.saturating_add(WARNING_PAUSE_SECONDS)
    }

    /// Whether its clock found this view or a later one too slow.
    pub fn left_by_clock(&self, since: View) -> bool {
        self.ended.load(SeqCst) > since.0
    }

    /// Tells its workers to end, all that there are, once they have taken what was handed in before. It takes no memory.
    pub fn stop<R: Wait>(&self, rt: &R) {
        self.inbox.stop(rt);
    }

    /// A share for a worker that begins. None where each has a worker.
    pub(crate) fn take_share<R: Wait>(&self, rt: &R) -> Option<Share> {
        self.shares.lock(rt).pop()
    }

    /// A worker has ended, and puts its share back.
    pub(crate) fn put_back<R: Wait>(&self, rt: &R, share: Share) {
        let _has_room = self.shares.lock(rt).push(share);
    }

    /// What is wrong with frames that the replica refuses.
    pub(crate) fn doubts(&self) -> &Doubts {
        &self.doubts
    }

    /// Whether there is trouble around the replica.
    pub(crate) fn trouble(&self) -> &TroubleSign {
        &self.trouble
    }

    /// Whose votes it passes over.
    pub(crate) fn passed_over(&self) -> &PassedOver {
        &self.passed_over
    }

    /// Who has to count votes itself.
    pub(crate) fn left_out(&self) -> &LeftOut {
        &self.left_out
    }

    /// Whom it follows into a later view.
    pub(crate) fn forerunners(&self) -> &Forerunners {
        &self.forerunners
    }

    /// What it recorded for others.
    pub(crate) fn recorder(&self) -> &Recorder {
        &self.recorder
    }

    /// How it comes back where it fell behind.
    pub(crate) fn comeback(&self) -> &Comeback {
        &self.comeback
    }

    /// Where what is for it comes out.
    pub(crate) fn inbox(&self) -> &Inbox {
        &self.inbox
    }

    /// Its clock ended this view.
    pub(crate) fn note_end(&self, view: View) {
        self.ended.store(view.0.saturating_add(1), SeqCst);
    }

    /// Its clock found it ahead of the others in its view, or not.
    pub(crate) fn note_alone(&self, is_alone: bool) {
        self.alone.store(is_alone, SeqCst);
    }

    /// Whether its clock found it ahead of the others in its view.
    pub(crate) fn is_alone(&self) -> bool {
        self.alone.load(SeqCst)
    }

    /// The end of this view is held back. Whether it wasn't before.
    pub(crate) fn note_held(&self, view: View) -> bool {
        let next = view.0.saturating_add(1);
        self.held.swap(next, SeqCst) != next
    }

    /// The height of the last block that the replica has executed.
    pub(crate) fn height<R: Wait>(&self, rt: &R) -> Height {
        self.locked.lock(rt).replica().height()
    }

    /// What lies under the lock, once that is free.
    pub(crate) fn lock<R: Wait>(&self, rt: &R) -> MutexGuard<'_, Guarded<'a>> {
        self.locked.lock(rt)
    }
}
