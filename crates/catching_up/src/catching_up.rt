ghost use Rattle.std.specs.Prelude.{◌≡◌, ◌-◌, ◌<◌, ◌≢◌, nat_lt};
ghost use Rattle.ids.specs.Sizes.{replicas};
ghost use Rattle.catching_up.specs.States.{after_answer, asked, asked_by_look, due_question, is_awaited, is_behind, is_far};
ghost use Rattle.catching_up.specs.States.{is_due, is_late, is_over, is_silent, looked, noted, resting, stays, unasked};
ghost use Rattle.catching_up.specs.States.{doubled, halved, next_height, rest_of, served, unserved, wait_behind, whom};

use crate::pace::Pace;
use crate::question::Question;
use crate::ring::next_peer;
use ids::{Config, Height, ReplicaId};
use std::marker::Model;

/// What a replica asked, and what came of it.
///
/// It asks one peer at a time, from the height behind the last that it executed, and the same one again as long as each of its
/// answers brought something new and its turn isn't over. Then it's the next one's turn, all round. Times are milliseconds
/// of any clock that doesn't go back.
#[derive(Clone, Copy, Debug)]
pub struct CatchingUp {
    replicas: u8,
    own: ReplicaId,
    pace: Pace,
    /// Up to which it had executed when it was looked at last.
    height: Height,
    /// Who was asked last.
    peer: ReplicaId,
    /// When something new came last, or the last question went out.
    since: u64,
    /// When the peer's turn began.
    began: u64,
    /// When the last question went out.
    asked: u64,
    /// From which height the answer is that it awaits.
    from: Option<Height>,
    /// Whether the peer's last answer came to its end, and brought something new.
    is_served: bool,
    /// How many questions went out since something new came.
    vain: u64,
    /// For how long an answer is awaited.
    wait: u64,
    /// How many bytes are asked for at once.
    bytes: u64,
    /// Whether it was far behind when it was looked at last.
    is_away: bool,
}

impl Model for CatchingUp {
    ghost use Rattle.catching_up.specs.States as states;

    ghost Value = { states.CatchingUp };

    ghost view = { λ s. record {
      replicas = s.replicas;
      own = s.own;
      pace = s.pace;
      height = s.height;
      peer = s.peer;
      since = s.since;
      began = s.began;
      asked = s.asked;
      from = s.from;
      is_served = s.is_served;
      vain = s.vain;
      wait = s.wait;
      bytes = s.bytes;
      is_away = s.is_away;
    } };

    ghost invariant = { λ s. states.IsSound (record {
      replicas = s.replicas;
      own = s.own;
      pace = s.pace;
      height = s.height;
      peer = s.peer;
      since = s.since;
      began = s.began;
      asked = s.asked;
      from = s.from;
      is_served = s.is_served;
      vain = s.vain;
      wait = s.wait;
      bytes = s.bytes;
      is_away = s.is_away;
    }) };

    ghost inverse = { λ s. record {
      replicas = s.replicas;
      own = s.own;
      pace = s.pace;
      height = s.height;
      peer = s.peer;
      since = s.since;
      began = s.began;
      asked = s.asked;
      from = s.from;
      is_served = s.is_served;
      vain = s.vain;
      wait = s.wait;
      bytes = s.bytes;
      is_away = s.is_away;
    } };
}

/// Twice as much, up to the most.
fn doubled(most: u64, n: u64) -> u64
    ensures { result ≡ doubled most n }
{
    n.saturating_mul(2).min(most)
}

/// Half as much, down to the least.
fn halved(least: u64, n: u64) -> u64
    ensures { result ≡ halved least n }
{
    (n / 2).max(least)
}

/// For how long an answer is awaited behind one that took so long.
fn wait_behind(took: u64, pace: &Pace) -> u64
    ensures { result ≡ wait_behind took pace.now }
{
    doubled(pace.most_pause, took).max(pace.pause)
}

/// The height behind one.
fn next_height(height: Height) -> Height
    ensures { result ≡ next_height height }
{
    Height(height.0.saturating_add(1))
}

impl CatchingUp {
    /// This replica has executed nothing, and asked nobody.
    pub fn new(config: Config, own: ReplicaId, pace: Pace) -> CatchingUp
        requires { own < replicas config }
        ensures { result ≡ unasked config own pace }
    {
        CatchingUp {
            replicas: config.n(),
            own,
            pace,
            height: Height(0),
            peer: own,
            since: 0,
            began: 0,
            asked: 0,
            from: None,
            is_served: false,
            vain: 0,
            wait: pace.pause,
            bytes: pace.bytes,
            is_away: false,
        }
    }

    /// Up to which height it has executed is noted. Where that is more than before, something new came.
    fn note(&mut self, now: u64, height: Height)
        ensures { self.new ≡ noted now height self.old }
    {
        if height.0 > self.height.0 {
            self.height = height;
            self.since = now;
            self.vain = 0;
        }
    }

    /// Whether a replica that has executed up to this height is so far behind the foremost that it asks. Once it is, it asks
    /// until it is near.
    pub fn is_far(&self, height: Height, foremost: Height) -> bool
        ensures { result ≡ is_far height foremost self.now }
    {
        let most = if self.is_away {
            self.pace.near
        } else {
            self.pace.least
        };
        foremost.0.saturating_sub(height.0) > most
    }

    /// Whether it was so at the last look.
    fn is_behind(&self, foremost: Height) -> bool
        ensures { result ≡ is_behind foremost self.now }
    {
        self.is_far(self.height, foremost)
    }

    /// It isn't far behind: it awaits no answer any more.
    fn rest(&mut self)
        ensures { self.new ≡ resting self.old }
    {
        self.from = None;
        self.is_served = false;
        self.is_away = false;
    }

    /// Whether it was far behind when it was looked at last.
    pub fn is_away(&self) -> bool
        ensures { result ≡ self.now.is_away }
    {
        self.is_away
    }

    /// A pause, and as much more for each round of questions that brought nothing.
    fn rest_of(&self) -> u64
        ensures { result ≡ rest_of self.now }
    {
        let rounds = self.vain / u64::from(self.replicas - 1);
        let pauses = rounds.saturating_add(1);
        self.pace
            .pause
            .saturating_mul(pauses)
            .min(self.pace.most_pause)
    }

    /// Whether nothing new came for so long; while an answer is awaited, for as long as that is, too.
    fn is_silent(&self, now: u64) -> bool
        ensures { result ≡ is_silent now self.now }
    {
        let rest = self.rest_of();
        let most = if self.from.is_some() {
            self.wait.max(rest)
        } else {
            rest
        };
        now.saturating_sub(self.since) >= most
    }

    /// Whether the peer's turn is over.
    fn is_over(&self, now: u64) -> bool
        ensures { result ≡ is_over now self.now }
    {
        now.saturating_sub(self.began) >= self.pace.turn
    }

    /// Whether the peer's answer is in the midst, its turn is over, and its question was out for as long as an answer is
    /// awaited: else one that takes longer than a turn would never come to its end.
    fn is_late(&self, now: u64) -> bool
        ensures { result ≡ is_late now self.now }
    {
        let was_awaited = now.saturating_sub(self.asked) >= self.wait;
        self.from.is_some() && self.is_over(now) && was_awaited
    }

    /// Whether a question is due.
    fn is_due(&self, now: u64) -> bool
        ensures { result ≡ is_due now self.now }
    {
        self.is_served || self.is_silent(now) || self.is_late(now)
    }

    /// Whether the same peer is asked again.
    fn stays(&self, now: u64) -> bool
        ensures { result ≡ stays now self.now }
    {
        self.is_served && !self.is_over(now)
    }

    /// Whom the next question goes to.
    fn whom(&self, now: u64) -> ReplicaId
        ensures { result ≡ whom now self.now }
    {
        if self.stays(now) {
            self.peer
        } else {
            next_peer(self.replicas, self.own, self.peer)
        }
    }

    /// The question that is due, if one is.
    fn due_question(&self, now: u64) -> Option<Question>
        ensures { result ≡ due_question now self.now }
    {
        if !self.is_due(now) {
            return None;
        }
        Some(Question {
            to: self.whom(now),
            from: next_height(self.height),
            bytes: self.bytes,
        })
    }

    /// The question that is due goes out. Where the last one's answer hasn't come, that was awaited too short, or asked for too
    /// much.
    fn ask(&mut self, now: u64, question: &Question)
        requires to { question.now.to ≡ whom now self.old }
        requires from { question.now.from ≡ next_height self.old.height }
        ensures { self.new ≡ asked now self.old }
    {
        if !self.stays(now) {
            self.began = now;
        }
        if self.from.is_some() {
            self.wait = doubled(self.pace.most_pause, self.wait);
            self.bytes = halved(self.pace.bytes, self.bytes);
        }
        self.peer = question.to;
        self.since = now;
        self.asked = now;
        self.from = Some(question.from);
        self.is_served = false;
        self.vain = self.vain.saturating_add(1);
    }

    /// The question that goes out at a moment, if one does, where the replica has executed up to this height, and the foremost
    /// of the others up to that.
    pub fn look(&mut self, now: u64, height: Height, foremost: Height) -> Option<Question>
        ensures question { result ≡ asked_by_look now height foremost self.old }
        ensures state { self.new ≡ looked now height foremost self.old }
    {
        self.note(now, height);
        if !self.is_behind(foremost) {
            self.rest();
            return None;
        }
        self.is_away = true;
        let question = self.due_question(now)?;
        self.ask(now, &question);
        Some(question)
    }

    /// Whether it awaits the answer to this.
    pub fn is_awaited(&self, question: &Question) -> bool
        ensures { result ≡ is_awaited question.now self.now }
    {
        self.peer == question.to && self.from == Some(question.from)
    }

    /// The answer that it awaits came to its end, and brought something new.
    fn serve(&mut self, now: u64)
        ensures { self.new ≡ served now self.old }
    {
        let took = now.saturating_sub(self.asked);
        self.from = None;
        self.is_served = true;
        self.wait = wait_behind(took, &self.pace);
        self.bytes = halved(self.pace.bytes, self.bytes);
    }

    /// It came to its end, and brought nothing new: it may have been too short.
    fn fail(&mut self, now: u64)
        ensures { self.new ≡ unserved now self.old }
    {
        let took = now.saturating_sub(self.asked);
        self.from = None;
        self.is_served = false;
        self.wait = wait_behind(took, &self.pace);
        self.bytes = doubled(self.pace.most_bytes, self.bytes);
    }

    /// The answer to a question came to its end: all of it was taken. Any other end than the one that is awaited is passed
    /// over.
    pub fn answered(&mut self, now: u64, height: Height, question: &Question)
        ensures { self.new ≡ after_answer now question.now (noted now height self.old) }
    {
        self.note(now, height);
        if !self.is_awaited(question) {
            return;
        }
        if self.height.0 >= question.from.0 {
            self.serve(now);
        } else {
            self.fail(now);
        }
    }
}
