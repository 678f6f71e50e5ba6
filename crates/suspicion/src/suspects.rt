//! Whose requests a leader lets in, where what it proposes finds no certificate.

ghost use Rattle.std.specs.Prelude.{◌≡◌};
ghost use Rattle.suspicion.specs.Suspecting.{bar_of, barred, begun, begun_with_others, convicted, doubted, ended};
ghost use Rattle.suspicion.specs.Suspecting.{calm, has_passed, is_cleared, is_due, is_let_in, is_let_in_vouched, is_on_trial, is_suspected};
ghost use Rattle.suspicion.specs.Suspecting.{is_wary, may_try, paused, place_of, served, standing_of, suspecting, tried};
ghost use Rattle.suspicion.specs.Suspecting.{tried_in_vain, vouched, waited};

use ids::{ClientId, Seq};
use tuning::{BAR_MILLIS, LAG_WEIGHT, MOST_DOUBLINGS, TRIAL_STRIDE};

/// What is known of a client.
#[derive(Clone, Copy, Debug, PartialEq, Eq)]
struct Standing {
    /// The round in which it was vouched for or passed its trial last.
    cleared_in: u64,
    /// How often it was tried in vain since it passed a trial.
    vain: u32,
    /// How many of its trials failed, less one for each that it passed since.
    failures: u32,
    /// In milliseconds.
    barred_until: u64,
    /// How often nobody vouched for its request.
    doubts: u32,
    /// Until when its requests are let in only where others vouch for them, in milliseconds.
    doubted_until: u64,
}

/// A request that is let in for its client to be cleared.
#[derive(Clone, Copy, Debug, PartialEq, Eq)]
struct Trial {
    client: ClientId,
    seq: Seq,
    /// When it was let in, in milliseconds.
    since: u64,
    /// Whether it waits for a block: it wasn't answered at once, as one that was executed before.
    waits: bool,
}

/// What a replica knows of clients, since a request may be right for it and not for others: a block with such a request
/// is voted for by too few.
///
/// Where it begins anew as leader for want of certificates all clients are suspects. A client is cleared once so many
/// others vouch for its request that a quorum has it. Who isn't by the time that nobody is suspected any more is doubted for
/// a while, twice as long each time: of such a client this leader lets in only what others vouch for.
///
/// Others may vouch and then not vote. So where the replica begins anew while clients are suspected, those that are
/// vouched for go on trial: one request is let in at a time, first of who was tried in vain least often, and who had one
/// executed is cleared. Where the replica has to begin anew while one is on trial, and another one was cleared before, the
/// client on trial is barred for a while, twice as long each time, and the others stay cleared. Where none was, all are
/// suspects anew: a block finds no certificate for other reasons, too. Where it leads from its lock, as its certificates may
/// be at fault, who is vouched for is let in but for those that were tried in vain.
#[derive(Drop)]
pub struct Suspects {
    /// Whether anybody is suspected.
    is_on: bool,
    /// Whether a client that is vouched for is let in for its trial alone.
    by_trial: bool,
    /// How often the replica began anew.
    round: u64,
    /// Whether a client was cleared since, or since the last trial that failed, by a block.
    has_cleared: bool,
    /// Whether all that are vouched for are cleared but who was tried in vain.
    clears_others: bool,
    trial: Option<Trial>,
    /// When the next trial may begin, in milliseconds.
    pause_until: u64,
    /// Until when some client is barred or doubted, in milliseconds.
    wary_until: u64,
    /// One for each number that a client may have.
    standings: [Standing; 256],
}

/// For how many milliseconds a client is barred or doubted that was so often before.
fn bar_of(failures: u32) -> u64
    ensures { result ≡ bar_of failures }
{
    BAR_MILLIS << failures.min(MOST_DOUBLINGS)
}

impl Suspects {
    /// Nobody is suspected.
    pub fn new() -> Suspects
        ensures { result ≡ calm }
    {
        let fresh = Standing {
            cleared_in: 0,
            vain: 0,
            failures: 0,
            barred_until: 0,
            doubts: 0,
            doubted_until: 0,
        };
        Suspects {
            is_on: false,
            by_trial: false,
            round: 0,
            has_cleared: false,
            clears_others: false,
            trial: None,
            pause_until: 0,
            wary_until: 0,
            standings: [fresh; 256],
        }
    }

    /// What is known of a client.
    fn standing(&self, client: ClientId) -> Standing
        ensures { result ≡ standing_of self.now client }
    {
        self.standings[usize::from(client.0)]
    }

    /// Whether a client was vouched for or passed its trial since the replica began anew.
    fn has_passed(&self, client: ClientId) -> bool
        ensures { result ≡ has_passed self.now client }
    {
        self.standing(client).cleared_in == self.round
    }

    /// Whether a client is suspected for which nobody vouches.
    pub fn is_suspected(&self, client: ClientId) -> bool
        ensures { result ≡ is_suspected self.now client }
    {
        self.is_on && !self.has_passed(client)
    }

    /// Whether a client that is vouched for isn't suspected since the replica began anew.
    fn is_cleared(&self, client: ClientId) -> bool
        ensures { result ≡ is_cleared self.now client }
    {
        let is_other = self.clears_others && self.standing(client).vain == 0;
        is_other || self.has_passed(client)
    }

    /// Whether a client is on trial.
    fn is_on_trial(&self, client: ClientId) -> bool
        ensures { result ≡ is_on_trial self.now.trial client }
    {
        match self.trial {
            Some(trial) => trial.client.0 == client.0,
            None => false,
        }
    }

    /// Whether a client's requests are let in at a moment though nobody vouches for them: none while it is barred, and
    /// where the replica leads none while it is doubted, and while anybody is suspected those of clients that are cleared or
    /// on trial.
    pub fn is_let_in(&self, client: ClientId, leads: bool, now: u64) -> bool
        ensures { result ≡ is_let_in self.now client leads now }
    {
        let is_free = !self.is_on || self.is_on_trial(client) || self.has_passed(client);
        let standing = self.standing(client);
        let may = !leads || (is_free && now >= standing.doubted_until);
        may && now >= standing.barred_until
    }

    /// Whether a leader lets in a client's request at a moment for which enough others vouch.
    pub fn is_let_in_vouched(&self, client: ClientId, now: u64) -> bool
        ensures { result ≡ is_let_in_vouched self.now client now }
    {
        let needs_trial = self.is_on && self.by_trial;
        let is_free = !needs_trial || self.is_on_trial(client) || self.is_cleared(client);
        is_free && now >= self.standing(client).barred_until
    }

    /// Whether some client isn't let in at a moment as others are.
    pub fn is_wary(&self, now: u64) -> bool
        ensures { result ≡ is_wary self.now now }
    {
        self.is_on || now < self.wary_until
    }

    /// Whether another trial may begin.
    pub fn may_try(&self, now: u64) -> bool
        ensures { result ≡ may_try self.now now }
    {
        self.is_on && self.by_trial && self.trial.is_none() && now >= self.pause_until
    }

    /// Whether a client waits for its trial, if others vouch for its request.
    pub fn is_due(&self, client: ClientId, now: u64) -> bool
        ensures { result ≡ is_due self.now client now }
    {
        let is_barred = now < self.standing(client).barred_until;
        !is_barred && !self.is_cleared(client)
    }

    /// The place of a client among those that wait for their trials: behind those that were tried in vain less often. Of
    /// others each is the first in some round.
    pub fn place(&self, client: ClientId) -> u64
        ensures { result ≡ place_of self.now client }
    {
        let turn = (u64::from(client.0) + self.round % 256) * TRIAL_STRIDE % 256;
        u64::from(self.standing(client).vain) * 256 + turn
    }

    /// A client's request is let in for its trial.
    pub fn try_client(&mut self, client: ClientId, seq: Seq, now: u64)
        ensures { self.new ≡ tried self.old client seq now }
    {
        self.trial = Some(Trial {
            client,
            seq,
            since: now,
            waits: false,
        });
    }

    /// What is on trial wasn't answered at once.
    pub fn wait(&mut self)
        ensures { self.new ≡ waited self.old }
    {
        if let Some(trial) = &mut self.trial {
            trial.waits = true;
        }
    }

    /// A client was tried in vain.
    fn note_vain(&mut self, client: ClientId)
        ensures { self.new ≡ tried_in_vain self.old client }
    {
        let standing = self.standing(client);
        self.standings[usize::from(client.0)] = Standing {
            vain: standing.vain.saturating_add(1),
            ..standing
        };
    }

    /// A client's trial failed. It is barred for a while.
    fn bar(&mut self, client: ClientId, now: u64)
        ensures { self.new ≡ barred self.old client now }
    {
        let standing = self.standing(client);
        let until = now.saturating_add(bar_of(standing.failures));
        self.standings[usize::from(client.0)] = Standing {
            failures: standing.failures.saturating_add(1),
            barred_until: until,
            ..standing
        };
        self.wary_until = self.wary_until.max(until);
    }

    /// Not enough others vouched for a client's request. It is doubted for a while.
    pub fn doubt(&mut self, client: ClientId, now: u64)
        ensures { self.new ≡ doubted self.old client now }
    {
        let standing = self.standing(client);
        let until = now.saturating_add(bar_of(standing.doubts));
        self.standings[usize::from(client.0)] = Standing {
            doubts: standing.doubts.saturating_add(1),
            doubted_until: until,
            ..standing
        };
        self.wary_until = self.wary_until.max(until);
    }

    /// Enough others vouch for a client's request. Where that is enough the client is cleared.
    pub fn vouch(&mut self, client: ClientId)
        ensures { self.new ≡ vouched self.old client }
    {
        if self.by_trial {
            return;
        }
        self.standings[usize::from(client.0)] = Standing {
            cleared_in: self.round,
            ..self.standing(client)
        };
    }

    /// The next trial waits, three times as long as one that began then lasted: while the others are served meanwhile, no
    /// view ends of trials.
    fn pause(&mut self, since: u64, now: u64)
        ensures { self.new ≡ paused self.old since now }
    {
        let lasted = now.saturating_sub(since);
        self.pause_until = now.saturating_add(lasted.saturating_mul(LAG_WEIGHT));
    }

    /// All are suspected anew, or only who was tried in vain.
    fn suspect(&mut self, clears_others: bool)
        ensures { self.new ≡ suspecting self.old clears_others }
    {
        self.is_on = true;
        self.trial = None;
        self.has_cleared = false;
        self.clears_others = clears_others;
        self.round = self.round.saturating_add(1);
    }

    /// A client that is on trial since then failed it, as others were cleared: these stay so.
    fn convict(&mut self, client: ClientId, since: u64, now: u64)
        ensures { self.new ≡ convicted self.old client since now }
    {
        self.note_vain(client);
        self.bar(client, now);
        self.pause(since, now);
        self.trial = None;
        self.has_cleared = false;
    }

    /// The replica begins anew, with what it certified. Who is on trial failed it where another one was cleared since the
    /// last failure; else all are suspects. Where they were before, that others vouch isn't enough any more.
    pub fn begin(&mut self, now: u64)
        ensures { self.new ≡ begun self.old now }
    {
        let Some(trial) = self.trial else {
            self.by_trial = self.is_on;
            self.suspect(false);
            return;
        };
        let (client, since) = (trial.client, trial.since);
        if self.has_cleared {
            self.convict(client, since, now);
        } else {
            self.note_vain(client);
            self.suspect(false);
        }
    }

    /// It begins anew from its lock: only who was tried in vain is suspected still.
    pub fn begin_with_others(&mut self, now: u64)
        ensures { self.new ≡ begun_with_others self.old now }
    {
        if let Some(trial) = self.trial {
            let (client, since) = (trial.client, trial.since);
            self.note_vain(client);
            self.pause(since, now);
        }
        self.suspect(true);
    }

    /// Trouble is over, or the replica leads no more: nobody is suspected.
    pub fn end(&mut self)
        ensures { self.new ≡ ended self.old }
    {
        self.is_on = false;
        self.by_trial = false;
        self.trial = None;
    }

    /// A client's request was executed. If it was on trial, the client is cleared.
    pub fn serve(&mut self, client: ClientId, seq: Seq)
        ensures { self.new ≡ served self.old client seq }
    {
        let Some(trial) = self.trial else {
            return;
        };
        if trial.client.0 != client.0 || trial.seq.0 != seq.0 {
            return;
        }
        let standing = self.standing(client);
        self.standings[usize::from(client.0)] = Standing {
            cleared_in: self.round,
            vain: 0,
            failures: standing.failures.saturating_sub(1),
            ..standing
        };
        self.trial = None;
        self.has_cleared = self.has_cleared || trial.waits;
    }
}
