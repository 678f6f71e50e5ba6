//! Which replicas a leader does without.

ghost use Rattle.std.specs.Prelude.{◌≡◌, ◌<◌, ◌≤◌};
ghost use Rattle.ids.specs.declared.limits.TheConstants.{MOST_REPLICAS};
ghost use Rattle.suspicion.specs.ReplicaSets.{both, is_in, nobody, size};
ghost use Rattle.suspicion.specs.Passing.{believed, found, heard, noted, passed, spares, sure, tellers, without};

use crate::replica_set::ReplicaSet;
use ids::{Config, MOST_REPLICAS, ReplicaId};
use std::marker::Model;

/// The replicas whose votes weren't right for this one in certificates of its leaders, or for others, as they told. A
/// certificate with such a vote may be good for its leader alone, or for all but one, who then falls behind. So a leader does
/// without it as long as it finds others'.
///
/// What a leader's certificate shows may be made up by that leader, and what others tell by them. So those that are passed
/// over are never more than may be faulty; and where the replica leads from its lock all is forgotten, and who told
/// something isn't heard any more in this view, unless more than may be faulty tell the same.
#[derive(Drop)]
pub struct Passing {
    /// As many as may be faulty.
    most: usize,
    voters: ReplicaSet,
    /// Whose votes weren't right for each replica, by what it told.
    told: [ReplicaSet; MOST_REPLICAS],
    /// Who told something.
    tellers: ReplicaSet,
    /// Who isn't heard.
    unheard: ReplicaSet,
}

impl Model for Passing {
    ghost use Rattle.std.specs.Prelude.{◌≤◌};
    ghost use Rattle.suspicion.specs.ReplicaSets as sets;
    ghost use Rattle.suspicion.specs.Passing.{PassingState};

    ghost Value = { PassingState };

    ghost view = { λ p. record {
      most = p.most;
      voters = p.voters;
      told = p.told;
      tellers = p.tellers;
      unheard = p.unheard;
    } };

    ghost invariant = { λ p. sets.size p.voters ≤ p.most };
}

/// Who is passed over once votes of these weren't right: they with those of before; or where that would be too many, they
/// alone; or where they are too many themselves, those of before.
fn passed(most: usize, before: ReplicaSet, found: ReplicaSet) -> ReplicaSet
    ensures set { result ≡ passed most before found }
    ensures few { size before ≤ most → size result ≤ most }
{
    let both = before.or(&found);
    if both.len() <= most {
        both
    } else if found.len() <= most {
        found
    } else {
        before
    }
}

impl Passing {
    /// Nobody is passed over, nothing was told, and these aren't heard.
    fn without(most: usize, unheard: ReplicaSet) -> Passing
        ensures { result ≡ without most unheard }
    {
        Passing {
            most,
            voters: ReplicaSet::none(),
            told: [ReplicaSet::none(); MOST_REPLICAS],
            tellers: ReplicaSet::none(),
            unheard,
        }
    }

    /// Nobody is passed over among the replicas of these sizes, and all are heard.
    pub fn none(config: Config) -> Passing
        ensures { result ≡ without config.faults nobody }
    {
        Passing::without(usize::from(config.faults()), ReplicaSet::none())
    }

    /// Whether a replica is passed over.
    pub fn has(&self, voter: ReplicaId) -> bool
        ensures { result ≡ is_in self.now.voters voter }
    {
        self.voters.has(voter)
    }

    /// Votes of these weren't right, in a certificate of one leader or by what more replicas told than may be faulty.
    pub fn find(&mut self, voters: ReplicaSet)
        ensures { self.new ≡ found self.old voters }
    {
        self.voters = passed(self.most, self.voters, voters);
    }

    /// How many replicas told that a voter's votes weren't right for them.
    fn tellers(&self, voter: ReplicaId) -> usize
        ensures { result ≡ tellers self.now.told voter }
    {
        self.told.iter().filter(|voters| voters.has(voter)).count()
    }

    /// Those of whom so many told this that one of them is correct.
    fn sure(&self) -> ReplicaSet
        ensures { result ≡ sure self.now.most self.now.told }
    {
        let mut sure = ReplicaSet::none();
        for number in 0..MOST_REPLICAS as u8 {
            if self.tellers(ReplicaId(number)) > self.most {
                sure.add(ReplicaId(number));
            }
        }
        sure
    }

    /// Whom to find where a replica told of these: these, if it is heard, else those of whom enough told.
    fn believed(&self, from: ReplicaId, voters: &ReplicaSet) -> ReplicaSet
        ensures { result ≡ believed self.now from voters.now }
    {
        if self.unheard.has(from) {
            self.sure()
        } else {
            *voters
        }
    }

    /// What a replica told is noted.
    fn note(&mut self, from: ReplicaId, voters: &ReplicaSet)
        requires { from < MOST_REPLICAS }
        ensures { self.new ≡ noted self.old from voters.now }
    {
        let place = usize::from(from.0);
        self.told[place] = self.told[place].or(voters);
        self.tellers.add(from);
    }

    /// A replica told that votes of these weren't right for it.
    pub fn hear(&mut self, from: ReplicaId, voters: &ReplicaSet)
        ensures { self.new ≡ heard self.old from voters.now }
    {
        if usize::from(from.0) >= MOST_REPLICAS {
            return;
        }
        self.note(from, voters);
        let voters = self.believed(from, voters);
        self.find(voters);
    }

    /// Whether a replica told something.
    pub fn has_told(&self, from: ReplicaId) -> bool
        ensures { result ≡ is_in self.now.tellers from }
    {
        self.tellers.has(from)
    }

    /// Whether a quorum is left without those that are passed over, all who told something, this replica and these, of whom it
    /// tells. Then a leader needn't wait for any of them.
    pub fn spares(&self, from: ReplicaId, voters: &ReplicaSet) -> bool
        ensures { result ≡ spares self.now from voters.now }
    {
        let mut all = self.voters.or(&self.tellers).or(voters);
        all.add(from);
        all.len() <= self.most
    }

    /// Nobody is passed over any more. Who told something isn't heard.
    pub fn forget(&mut self)
        ensures { self.new ≡ without self.old.most (both self.old.unheard self.old.tellers) }
    {
        let unheard = self.unheard.or(&self.tellers);
        *self = Passing::without(self.most, unheard);
    }

    /// Another view began: all are heard again.
    pub fn hear_all(&mut self)
        ensures { self.new ≡ record self.old { unheard = nobody } }
    {
        self.unheard = ReplicaSet::none();
    }
}
