//! What a replica's clock sees of it, and hands it in.

ghost use Rattle.std.specs.Prelude.{◌≡◌, count_by, nat_le};

use crate::comeback::is_near;
use crate::sights::Sights;
use crate::station::Station;
use clock::{Due, LeadFrom, Pulse, Watched, keep_time};
use fabric::Base;
use ids::{Fault, Height, MOST_REPLICAS, ReplicaId, View};
use std::sync::Wait;
use std::sync::atomic::AtomicBool;
use std::time::Clock;
use suspicion::ReplicaSet;
use tuning::{LEAD_CLIMB, LEAD_PART, MOST_CLIMB};

/// Whether so many of these views are as great as one.
fn are_in(view: View, views: &[View], many: u8) -> bool
    ensures { result ≡ nat_le many (count_by (λ other. nat_le view other) views.now) }
{
    let there = views.iter().filter(|other| other.0 >= view.0);
    there.count() >= usize::from(many)
}

/// A replica as its clock sees it, what is seen of the others, and the link over which it is handed what is due.
#[derive(Drop)]
struct Timed<'s, 'a> {
    station: &'s Station<'a>,
    sights: &'s Sights,
}

impl<'s, 'a> Timed<'s, 'a> {
    /// From where the replica is to begin anew. It climbs above all that it voted for, and further, since others may have voted
    /// for more: from its lock twice as high at least, or one that leads in vain is above all others for long. But half of a
    /// view's climb stays free for what follows, since a view ends soon where its leader can't propose.
    fn base<R: Wait>(&self, rt: &R, from: LeadFrom) -> Base {
        let guarded = self.station.lock(rt);
        let replica = guarded.replica();
        let above = replica.voted().0.saturating_sub(replica.lock_height().0);
        let views = replica.view().0.saturating_add(1);
        let most = views
            .saturating_mul(MOST_CLIMB)
            .saturating_sub(MOST_CLIMB / 2);
        let (lock, further) = match from {
            LeadFrom::Certified => (None, LEAD_CLIMB / LEAD_PART),
            LeadFrom::Lock => (Some(replica.lock()), above.max(LEAD_CLIMB)),
        };
        Base {
            lock,
            climb: above.saturating_add(further).min(most),
        }
    }

    /// Whether the replica, which has executed up to this height, is far behind. Then it is to look whether it asks others for
    /// what they recorded.
    fn is_away<R: Wait>(&self, rt: &R, height: Height) -> bool {
        let shown = self.shown();
        let all = shown.get(..usize::from(self.sights.config().n()));
        if self.station.comeback().see(rt, height, all.unwrap_or(&[])) {
            let _lost = self.station.inbox().catch_up(rt);
        }
        self.station.comeback().is_away()
    }

    /// Whether a quorum is in the view that this replica is in, or in later ones, as the others' clocks saw last. Before that nobody
    /// is to blame where nothing is decided: who is ahead waits.
    fn is_met(&self, view: View) -> bool {
        let mut views = self.sights.views();
        if let Some(own) = views.get_mut(usize::from(self.station.number().0)) {
            *own = view;
        }
        are_in(view, &views, self.sights.config().quorum())
    }

    /// Whether another one is in a later view, as its clock saw last.
    fn is_passed(&self, view: View) -> bool {
        let later = View(view.0.saturating_add(1));
        are_in(later, &self.sights.views(), 1)
    }

    /// The other replicas that are far behind this one, as their clocks saw last.
    fn far<R: Wait>(&self, rt: &R) -> ReplicaSet {
        let height = self.station.height(rt);
        let mut far = ReplicaSet::none();
        for (number, shown) in (0..self.sights.config().n()).zip(self.shown()) {
            if !is_near(height, shown) {
                far.add(ReplicaId(number));
            }
        }
        far
    }

    /// Those that are in a later view than this one, as their clocks saw last.
    fn ahead(&self, view: View) -> ReplicaSet {
        let mut ahead = ReplicaSet::none();
        for (number, shown) in (0..self.sights.config().n()).zip(self.sights.views()) {
            if shown.0 > view.0 {
                ahead.add(ReplicaId(number));
            }
        }
        ahead
    }

    /// Whether the replica follows one that is ahead and isn't far behind: where votes weren't right for a few of late, so that others may
    /// go on without those of one that left.
    fn follows<R: Wait>(&self, rt: &R, ahead: &ReplicaSet, far: &ReplicaSet) -> bool {
        let are_few = self.station.left_out().are_few();
        let mut found = ReplicaSet::none();
        for number in 0..self.sights.config().n() {
            let replica = ReplicaId(number);
            if are_few && ahead.has(replica) && !far.has(replica) {
                found.add(replica);
            }
        }
        self.station.forerunners().look(rt, &found)
    }

    /// Whether the replica waits until the end of this view is due once more: it is left out by some votes, and few are. If it were the
    /// first to leave, others could go on with those in place of its own.
    fn holds_back(&self, view: View) -> bool {
        let left_out = self.station.left_out();
        left_out.is_one_of_few(self.station.number()) && self.station.note_held(view)
    }

    /// What the clock's look changes for others: whose votes the replica passes over, to whom its own go; and which view is to
    /// end, if one is, since others follow one that left it. Who is far behind, or left the view, couldn't vote in it.
    fn look_around<R: Wait>(&self, rt: &R, view: View) -> Option<View> {
        let (far, ahead) = (self.far(rt), self.ahead(view));
        self.station
            .passed_over()
            .look_again(rt, view, &far, &ahead);
        self.station.left_out().look();
        self.follows(rt, &ahead, &far).then_some(view)
    }

    /// What is seen of the replica.
    fn seen<R: Wait>(&self, rt: &R) -> Pulse {
        let guarded = self.station.lock(rt);
        let replica = guarded.replica();
        Pulse {
            wants_beat: replica.wants_beat(),
            wants_beat_now: replica.wants_beat_now(),
            pending: replica.pending() as u64,
            view: replica.view(),
            executed: replica.executed() as u64,
            height: replica.height(),
            voted: replica.voted(),
            horizon: replica.horizon(),
            passed: self.is_passed(replica.view()),
            stopped: guarded.stopped(),
        }
    }
}

/// What a link doesn't take is lost. While the replica is behind others, or ahead of them in its view, nothing is slow; and
/// while it is far behind, it leads nobody.
impl<'s, 'a> Watched for Timed<'s, 'a> {
    fn pulse<R: Wait>(&self, rt: &R) -> Pulse {
        let seen = self.seen(rt);
        let is_here = !self.is_away(rt, seen.height);
        let is_met = self.is_met(seen.view);
        self.station.note_alone(!is_met);
        let waits = self.station.comeback().is_near(seen.height) && is_met;
        Pulse {
            wants_beat: is_here && seen.wants_beat,
            wants_beat_now: is_here && seen.wants_beat_now,
            pending: if waits { seen.pending } else { 0 },
            ..seen
        }
    }

    fn doubted(&self) -> u64 {
        self.station.trouble().doubted()
    }

    fn tell_trouble(&self, is_on: bool, view: View) {
        self.station.trouble().show(is_on, view);
        self.sights.show_view(self.station.number(), view);
    }

    fn hand_in<R: Wait>(&self, rt: &R, due: Due) {
        let view = self.station.trouble().view();
        let followed = self.look_around(rt, view);
        if due.beat {
            let _lost = self.station.inbox().beat(rt);
        }
        let ended = due.timeout.filter(|view| !self.holds_back(*view));
        if let Some(view) = ended.or(followed) {
            self.station.note_end(view);
            let _lost = self.station.inbox().timeout(rt, view);
        }
        if let Some(from) = due.lead {
            self.station.trouble().raise();
            if from == LeadFrom::Lock {
                self.station.passed_over().forget(rt);
            }
            let base = self.base(rt, from);
            let _lost = self.station.inbox().lead(rt, base);
        }
    }

    fn show(&self, height: Height) {
        self.sights.show_height(self.station.number(), height);
    }

    fn shown(&self) -> [Height; MOST_REPLICAS] {
        self.sights.heights()
    }

    fn prune<R: Wait>(&self, rt: &R, height: Height) {
        let _lost = self.station.inbox().prune(rt, height);
    }
}

/// Gives a station its beats, timeouts and prunings until it is told to stop, or the replica has stopped: then it answers
/// why.
pub fn watch<R: Wait + Clock>(
    rt: &R,
    station: &Station<'_>,
    sights: &Sights,
    stop: &AtomicBool,
) -> Option<Fault> {
    let timed = Timed { station, sights };
    let config = sights.config();
    keep_time(rt, &timed, config, station.patience, station.keep, stop)
}
