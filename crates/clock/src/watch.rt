//! What is due to one replica.

ghost use Rattle.std.specs.Prelude.{◌≡◌, ◌-◌, if◌then◌else◌};
ghost use Rattle.clock.specs.Watching.{began_after, borne, borne_by, calm_after, climbs, counted, due_of, is_calm, is_due, is_over, is_overdue, is_silent, is_spent};
ghost use Rattle.clock.specs.Watching.{is_stuck, lags, lead_after, lead_of, lead_where, limit_after, limit_of, limit_where, looked, most_undecided, moved, next_lead};
ghost use Rattle.clock.specs.Watching.{patience_of, pause_after, rests, served_after, settled, silence_after, slack_after, slow_after, stuck_after, unseen, vain_after};

use ids::{Config, Fault, Height, View};
use tuning::{
    BEGINNING_SLACK, CALM_MILLIS, CLIMB_A_LIMIT, COMMAND_SHARE, LAG_WEIGHT, LEAD_PART,
    LEAST_BEAT_MILLIS, LEAST_COMMAND_MILLIS, MOST_COUNTED, MOST_SLACK, MOST_UNDECIDED, SPENT_PART,
    VIEW_LIMIT,
};

/// What is seen of a replica at one moment.
#[derive(Clone, Copy, Debug, PartialEq, Eq)]
pub struct Pulse {
    /// Whether it leads its view and has something to propose.
    pub wants_beat: bool,
    /// Whether it does so at once: no votes are out that it should wait for.
    pub wants_beat_now: bool,
    /// How many requests are pending.
    pub pending: u64,
    /// The view that it is in.
    pub view: View,
    /// How many commands it has executed.
    pub executed: u64,
    /// The height of its last executed block.
    pub height: Height,
    /// The greatest height that it voted for.
    pub voted: Height,
    /// The horizon of its tree.
    pub horizon: Height,
    /// Whether another one is in a later view.
    pub passed: bool,
    /// Why it stopped. None while it goes on.
    pub stopped: Option<Fault>,
}

/// From which block a leader is to begin anew.
#[derive(Clone, Copy, Debug, PartialEq, Eq)]
pub enum LeadFrom {
    /// The one that its last proposal certifies: a request may be pending that isn't right for others.
    Certified,
    /// Its lock: its certificates may be good for it alone.
    Lock,
}

/// What is due to a replica.
#[derive(Clone, Copy, Debug, PartialEq, Eq)]
pub struct Due {
    /// Leave to make a proposal.
    pub beat: bool,
    /// A timeout of this view: it was slow or silent for too long, or brought too much that was never decided.
    pub timeout: Option<View>,
    /// Leave to begin anew: what it proposes finds no certificate.
    pub lead: Option<LeadFrom>,
}

/// What was seen of a replica so far.
#[derive(Clone, Copy, Debug, PartialEq, Eq)]
pub struct Watch {
    view: View,
    executed: u64,
    /// When it was looked at last, in milliseconds.
    looked: u64,
    /// How many milliseconds a command may take.
    patience: u64,
    /// How slow a view may be, where none passed in vain.
    limit: u64,
    /// How many leaders may be faulty.
    faults: u64,
    /// How slow its view was so far: `LAG_WEIGHT` for each millisecond in which it lagged, less one for each other.
    slow: u64,
    /// Since when a proposal of it has waited for votes, and how long that may last.
    asked: u64,
    pause: u64,
    /// The height of its last executed block.
    height: Height,
    /// What it had voted for when its view began, or when a block was executed last.
    from: Height,
    /// What it had voted for when its view began.
    began: Height,
    /// How much its requests have lagged since something was executed, by the same weight, and the last leave to begin anew since
    /// then.
    stuck: u64,
    led: Option<LeadFrom>,
    /// How many views passed in vain, and whether something was executed in this one.
    vain: u64,
    /// How many times as long as usual a command may take, and its view lag.
    slack: u64,
    served: bool,
    /// Since when its view wasn't slow at all, or half of those views were forgotten.
    calm: u64,
}

/// How slow a view may be, where so many count against it: as much more for each, and for the square of half of them.
fn limit_of(least: u64, vain: u64) -> u64
    ensures { result ≡ limit_of least vain }
{
    let half = vain / 2;
    let more = half.saturating_mul(half);
    vain.saturating_add(more)
        .saturating_add(1)
        .saturating_mul(least)
}

/// How many heights a view may bring without a decision: `MOST_UNDECIDED`, and as many more for each view before.
fn most_undecided(view: u64) -> u64
    ensures { result ≡ most_undecided view }
{
    view.saturating_add(1).saturating_mul(MOST_UNDECIDED)
}

/// How many heights lie between two.
fn brought(from: Height, voted: Height) -> u64
    ensures { result ≡ voted - from }
{
    voted.0.saturating_sub(from.0)
}

/// Whether a replica in this view voted for a block as high above its last executed one as a leader of the view may climb: half of
/// what the view may bring. Who leads may propose nothing more before it has a certificate.
fn is_spent(view: u64, height: Height, voted: Height) -> bool
    ensures { result ≡ is_spent view height voted }
{
    brought(height, voted) >= most_undecided(view) / 2
}

/// How many milliseconds a command may take among so many replicas: `LEAST_COMMAND_MILLIS` among few, and then as the
/// third power of their number, since each checks the tags of the others on longer frames.
fn patience_of(replicas: u8) -> u64
    ensures { result ≡ patience_of replicas }
{
    let replicas = u64::from(replicas);
    (replicas * replicas * replicas / COMMAND_SHARE).max(LEAST_COMMAND_MILLIS)
}

/// How long a proposal may wait for votes from now on, where the replica has got on, or has waited so long.
fn pause_after(pause: u64, moved: bool, overdue: bool) -> u64
    ensures { result ≡ pause_after pause moved overdue }
{
    if moved {
        (pause / 2).max(LEAST_BEAT_MILLIS)
    } else if overdue {
        pause.saturating_mul(2)
    } else {
        pause
    }
}

impl Watch {
    /// Nothing was seen yet of a replica of these sizes. Views and commands may take so many times as long as where frames take
    /// no time.
    pub fn new(config: Config, times: u64) -> Watch
        ensures { result ≡ unseen config times }
    {
        Watch {
            view: View(0),
            executed: 0,
            looked: 0,
            patience: patience_of(config.n()).saturating_mul(times),
            limit: VIEW_LIMIT.saturating_mul(times),
            faults: u64::from(config.faults()),
            slow: 0,
            asked: 0,
            pause: LEAST_BEAT_MILLIS,
            height: Height(0),
            from: Height(0),
            began: Height(0),
            stuck: 0,
            led: None,
            vain: 0,
            slack: 1,
            served: false,
            calm: 0,
        }
    }

    /// Whether its view or its history changed since it was looked at last.
    fn has_moved(&self, pulse: &Pulse) -> bool
        ensures { result ≡ moved self.now pulse.now }
    {
        !(pulse.view.0 == self.view.0 && pulse.executed == self.executed)
    }

    /// How many milliseconds a command may take in its view.
    fn borne(&self) -> u64
        ensures { result ≡ borne self.now }
    {
        self.patience.saturating_mul(self.slack)
    }

    /// Whether requests wait, and the commands that were executed since it was looked at last took too long. Where
    /// several wait, so many more have to come in the same time: else a leader could let each wait, and bring them
    /// together.
    fn lags(&self, now: u64, pulse: &Pulse) -> bool
        ensures { result ≡ lags self.now now pulse.now }
    {
        let executed = pulse.executed.saturating_sub(self.executed);
        let passed = now.saturating_sub(self.looked);
        let waiting = pulse.pending.min(MOST_COUNTED);
        executed.saturating_mul(self.borne()) < passed.saturating_mul(waiting)
    }

    /// How slow its view has been with what is seen at this moment.
    fn slow_after(&self, now: u64, pulse: &Pulse) -> u64
        ensures { result ≡ slow_after self.now now pulse.now }
    {
        let passed = now.saturating_sub(self.looked);
        if pulse.view.0 != self.view.0 {
            0
        } else if self.lags(now, pulse) {
            self.slow.saturating_add(passed.saturating_mul(LAG_WEIGHT))
        } else {
            self.slow.saturating_sub(passed)
        }
    }

    /// Whether its view has served for so long without being slow at all.
    fn is_calm(&self, now: u64) -> bool
        ensures { result ≡ is_calm self.now now }
    {
        self.served && now.saturating_sub(self.calm) >= CALM_MILLIS
    }

    /// Since when its view wasn't slow at all, or half of the views in vain were forgotten.
    fn calm_after(&self, now: u64, pulse: &Pulse) -> u64
        ensures { result ≡ calm_after self.now now pulse.now }
    {
        let is_slow = pulse.view.0 != self.view.0 || self.slow_after(now, pulse) > 0;
        if is_slow || self.is_calm(now) {
            now
        } else {
            self.calm
        }
    }

    /// How many views passed in vain before the one that it is in. One in which something was executed halves their
    /// number when it ends, and while it is calm: else a server at which a faulty party ends views would bear slow ones
    /// more and more.
    fn vain_after(&self, now: u64, pulse: &Pulse) -> u64
        ensures { result ≡ vain_after self.now now pulse.now }
    {
        if pulse.view.0 == self.view.0 {
            if self.is_calm(now) {
                self.vain / 2
            } else {
                self.vain
            }
        } else if self.served {
            self.vain / 2
        } else {
            let passed = pulse.view.0.saturating_sub(self.view.0);
            self.vain.saturating_add(passed)
        }
    }

    /// How many times as long as usual a command may take, and its view lag: twice as many behind each view that ended though
    /// something was executed in it, up to the most; half as many while a view is calm. Where all leaders are slow, as on a
    /// machine that has too much to do, views would else pass without end, and bring ever less.
    fn slack_after(&self, now: u64, pulse: &Pulse) -> u64
        ensures { result ≡ slack_after self.now now pulse.now }
    {
        if pulse.view.0 == self.view.0 {
            if self.is_calm(now) {
                (self.slack / 2).max(1)
            } else {
                self.slack
            }
        } else if self.served {
            self.slack.saturating_mul(2).min(MOST_SLACK)
        } else {
            self.slack
        }
    }

    /// How many times as slow its view may be, where a command may take so many times as long: as many, and before anything was
    /// executed in it a few at most. Leaders that are silent in turn would else each have so much time.
    fn borne_by(&self, slack: u64) -> u64
        ensures { result ≡ borne_by self.now slack }
    {
        if self.served {
            slack
        } else {
            slack.min(BEGINNING_SLACK)
        }
    }

    /// How slow its view may be, where so many passed in vain, so many times: where its leader may climb no further, a part of
    /// that.
    fn limit_where(&self, vain: u64, times: u64, pulse: &Pulse) -> u64
        ensures { result ≡ limit_where self.now vain times pulse.now }
    {
        let spent = is_spent(pulse.view.0, pulse.height, pulse.voted);
        let counted = self.counted(vain, pulse);
        let limit = limit_of(self.limit, counted).saturating_mul(times);
        if spent { limit / SPENT_PART } else { limit }
    }

    /// How slow its view may be with what is seen at this moment.
    fn limit_after(&self, now: u64, pulse: &Pulse) -> u64
        ensures { result ≡ limit_after self.now now pulse.now }
    {
        let (vain, slack) = (self.vain_after(now, pulse), self.slack_after(now, pulse));
        let times = self.borne_by(slack);
        self.limit_where(vain, times, pulse)
    }

    /// How much it may lag while nothing is executed: as much as at its beginning. Where something was executed in it, and nobody
    /// is in a later view, so many times as its commands may take as long, too, but no more for views in vain. Else those who are
    /// left behind by others, and those who wait for leaders that fell silent, would wait as long as a slow machine has them do.
    fn silence_after(&self, now: u64, pulse: &Pulse) -> u64
        ensures { result ≡ silence_after self.now now pulse.now }
    {
        let (vain, slack) = (self.vain_after(now, pulse), self.slack_after(now, pulse));
        let least = self.limit_where(vain, slack.min(BEGINNING_SLACK), pulse);
        if self.served && !pulse.passed {
            least.max(self.limit_where(0, slack, pulse))
        } else {
            least
        }
    }

    /// What it had voted for when its view began.
    fn began_after(&self, pulse: &Pulse) -> Height
        ensures { result ≡ began_after self.now pulse.now }
    {
        if pulse.view.0 == self.view.0 {
            self.began
        } else {
            pulse.voted
        }
    }

    /// How many views in vain count against its view: but as many as leaders may be faulty, since what these do tells of no slow
    /// machine; and one for each `CLIMB_A_LIMIT` heights that it had voted for above its last executed block when its view began,
    /// since its leader has to come above them.
    fn counted(&self, vain: u64, pulse: &Pulse) -> u64
        ensures { result ≡ counted self.now vain pulse.now }
    {
        let climb = brought(pulse.height, self.began_after(pulse)) / CLIMB_A_LIMIT;
        vain.saturating_sub(self.faults).saturating_add(climb)
    }

    /// Whether something was executed in the view that it is in.
    fn served_after(&self, pulse: &Pulse) -> bool
        ensures { result ≡ served_after self.now pulse.now }
    {
        let stays = self.served && pulse.view.0 == self.view.0;
        stays || pulse.executed != self.executed
    }

    /// Whether its view lags, and has been slow for so long.
    fn is_over(&self, now: u64, limit: u64, slow: u64, pulse: &Pulse) -> bool
        ensures { result ≡ is_over self.now now limit slow pulse.now }
    {
        self.lags(now, pulse) && slow >= limit
    }

    /// Whether its view or its last executed block changed since it was looked at last.
    fn is_settled(&self, pulse: &Pulse) -> bool
        ensures { result ≡ settled self.now pulse.now }
    {
        !(pulse.view.0 == self.view.0 && pulse.height.0 == self.height.0)
    }

    /// Whether its view brought more heights without a decision than it may, whether or not anybody waits: else the
    /// leader of an idle server could fill the trees of all.
    fn climbs(&self, pulse: &Pulse) -> bool
        ensures { result ≡ climbs self.now pulse.now }
    {
        let limit = most_undecided(pulse.view.0);
        let brought = brought(self.from, pulse.voted);
        !self.is_settled(pulse) && brought > limit
    }

    /// Whether nothing that it proposed waits for votes, or it has just got on.
    fn rests(&self, pulse: &Pulse) -> bool
        ensures { result ≡ rests self.now pulse.now }
    {
        let (wants, now) = (pulse.wants_beat, pulse.wants_beat_now);
        self.has_moved(pulse) || now || !wants
    }

    /// Whether what it proposed has waited through the whole pause.
    fn is_overdue(&self, now: u64, pulse: &Pulse) -> bool
        ensures { result ≡ is_overdue self.now now pulse.now }
    {
        !self.rests(pulse) && now.saturating_sub(self.asked) >= self.pause
    }

    /// Whether its requests lag, and nothing was executed since it was looked at last.
    fn is_stuck(&self, now: u64, pulse: &Pulse) -> bool
        ensures { result ≡ is_stuck self.now now pulse.now }
    {
        let (moved, lags) = (self.has_moved(pulse), self.lags(now, pulse));
        !moved && lags
    }

    /// How much it has lagged since something was executed.
    fn stuck_after(&self, now: u64, pulse: &Pulse) -> u64
        ensures { result ≡ stuck_after self.now now pulse.now }
    {
        let passed = now.saturating_sub(self.looked);
        if self.is_stuck(now, pulse) {
            self.stuck.saturating_add(passed.saturating_mul(LAG_WEIGHT))
        } else {
            0
        }
    }

    /// Whether it has lagged for so long while nothing was executed.
    fn is_silent(&self, now: u64, limit: u64, stuck: u64, pulse: &Pulse) -> bool
        ensures { result ≡ is_silent self.now now limit stuck pulse.now }
    {
        self.is_stuck(now, pulse) && stuck >= limit
    }

    /// Whether its view is over with what is seen at this moment: slow or silent for too long, or with too much undecided.
    fn is_due(&self, now: u64, pulse: &Pulse) -> bool
        ensures { result ≡ is_due self.now now pulse.now }
    {
        let (limit, slow) = (self.limit_after(now, pulse), self.slow_after(now, pulse));
        let (silence, stuck) = (self.silence_after(now, pulse), self.stuck_after(now, pulse));
        let over = self.is_over(now, limit, slow, pulse);
        let silent = self.is_silent(now, silence, stuck, pulse);
        over || silent || self.climbs(pulse)
    }

    /// How much it may be stuck before it begins anew, where its view may be so for so much: a part of that, and at
    /// least half of a command's time.
    fn lead_after(&self, limit: u64) -> u64
        ensures { result ≡ lead_after self.now.patience limit }
    {
        let least = self.patience.saturating_mul(LAG_WEIGHT) / 2;
        (limit / LEAD_PART).max(least)
    }

    /// From what it is to begin anew, after so much in which it was stuck: from what its last proposal certifies, and
    /// where that brought nothing, once from its lock, after twice as much.
    fn next_lead(&self, stuck: u64, least: u64) -> Option<LeadFrom>
        ensures { result ≡ next_lead self.now.led stuck least }
    {
        match self.led {
            None if stuck >= least => Some(LeadFrom::Certified),
            Some(LeadFrom::Certified) if stuck >= least.saturating_mul(2) => Some(LeadFrom::Lock),
            _ => None,
        }
    }

    /// From what it is to begin anew, after so much in which it was stuck: if it leads, and what it proposed waits for votes.
    fn lead_where(&self, now: u64, limit: u64, stuck: u64, pulse: &Pulse) -> Option<LeadFrom>
        ensures { result ≡ lead_where self.now now limit stuck pulse.now }
    {
        let waits = pulse.wants_beat && !pulse.wants_beat_now;
        let least = self.lead_after(limit);
        if waits && self.is_stuck(now, pulse) {
            self.next_lead(stuck, least)
        } else {
            None
        }
    }

    /// From what it is to begin anew with what is seen at this moment.
    fn lead(&self, now: u64, pulse: &Pulse) -> Option<LeadFrom>
        ensures { result ≡ lead_of self.now now pulse.now }
    {
        let (silence, stuck) = (self.silence_after(now, pulse), self.stuck_after(now, pulse));
        self.lead_where(now, silence, stuck, pulse)
    }

    /// What is due with what is seen at this moment.
    fn due(&self, now: u64, pulse: &Pulse) -> Due
        ensures { result ≡ due_of self.now now pulse.now }
    {
        Due {
            beat: pulse.wants_beat_now || self.is_overdue(now, pulse),
            timeout: self.is_due(now, pulse).then_some(pulse.view),
            lead: self.lead(now, pulse),
        }
    }

    /// What was seen so far, with this. How slow the view was, how silent, and what it brought, begins anew where a timeout is due.
    fn after(&self, now: u64, pulse: &Pulse) -> Watch
        ensures { result ≡ looked self.now now pulse.now }
    {
        let (over, stuck) = (self.is_due(now, pulse), self.is_stuck(now, pulse));
        let (rests, overdue) = (self.rests(pulse), self.is_overdue(now, pulse));
        let counts_anew = self.is_settled(pulse) || over;
        let lead = self.lead(now, pulse);
        Watch {
            view: pulse.view,
            executed: pulse.executed,
            looked: now,
            patience: self.patience,
            limit: self.limit,
            faults: self.faults,
            slow: if over { 0 } else { self.slow_after(now, pulse) },
            asked: if rests || overdue { now } else { self.asked },
            pause: pause_after(self.pause, self.has_moved(pulse), overdue),
            height: pulse.height,
            from: if counts_anew { pulse.voted } else { self.from },
            began: self.began_after(pulse),
            stuck: if over {
                0
            } else {
                self.stuck_after(now, pulse)
            },
            led: if stuck { lead.or(self.led) } else { None },
            vain: self.vain_after(now, pulse),
            slack: self.slack_after(now, pulse),
            served: self.served_after(pulse),
            calm: self.calm_after(now, pulse),
        }
    }

    /// What is due to a replica of which this is seen at a moment, in milliseconds from some start.
    pub fn look(&mut self, now: u64, pulse: Pulse) -> Due
        ensures due { result ≡ due_of self.old now pulse }
        ensures watch { self.new ≡ looked self.old now pulse }
    {
        let due = self.due(now, &pulse);
        *self = self.after(now, &pulse);
        due
    }
}
