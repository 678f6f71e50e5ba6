ghost use Rattle.std.specs.Prelude.{◌≡◌, ◌≤◌, OnOk, OnErr, nat_le};
ghost use Rattle.state_marks.specs.Marking.{begun, mark_for};

use crate::keeper::Keeper;
use crate::refusal::Refusal;
use ids::{PartyId, Seq};
use std::marker::Model;

/// The numbers that a running process may give, in the name of each of its clients. A replica's only number stands for
/// all that it says.
#[derive(Drop)]
pub struct Numbers {
    behind: u64,
    marked: u64,
}

impl Model for Numbers {
    ghost use Rattle.std.specs.Prelude.{◌≤◌};
    ghost use Rattle.state_marks.specs.Marking as marking;

    ghost Value = { marking.Numbers };

    ghost view = { λ n. record { behind = n.behind; marked = n.marked } };

    ghost invariant = { λ n. n.behind ≤ n.marked };
}

impl Numbers {
    /// How a party begins whose directory has this mark, which is 0 where it has none: behind it. `HasSpoken` exactly
    /// where a replica has marked anything.
    pub fn begin(party: PartyId, mark: u64) -> Result<Numbers, Refusal>
        ensures { result ≡ begun party mark }
    {
        if party.client().is_none() && mark > 0 {
            return Err(Refusal::HasSpoken);
        }
        Ok(Numbers {
            behind: mark,
            marked: mark,
        })
    }

    /// Behind which number the session of each client begins.
    pub fn behind(&self) -> Seq
        ensures { result ≡ self.now.behind }
    {
        Seq(self.behind)
    }

    /// The same, for those who ask what may be given while more is marked.
    pub fn again(&self) -> Numbers
        ensures { result ≡ self.now }
    {
        Numbers {
            behind: self.behind,
            marked: self.marked,
        }
    }

    /// Up to which number all are marked.
    pub fn marked(&self) -> Seq
        ensures { result ≡ self.now.marked }
    {
        Seq(self.marked)
    }

    /// Whether this number may be given: it is marked.
    pub fn covers(&self, seq: Seq) -> bool
        ensures { result ≡ nat_le seq self.now.marked }
    {
        seq.0 <= self.marked
    }

    /// Marks the numbers up to this one, and so many ahead, so that they may be given.
    pub fn mark<K: Keeper>(&mut self, keeper: &mut K, seq: Seq, ahead: u64) -> Result<(), Refusal>
        ensures kept { OnOk result (K.keeps keeper.old (mark_for self.old seq ahead) keeper.new) }
        ensures marked { OnOk result (self.new ≡ record self.old { marked = mark_for self.old seq ahead }) }
        ensures covers { OnOk result (seq ≤ self.new.marked) }
        ensures refused { OnErr result (self.new ≡ self.old) }
    {
        let most = seq.0 + ahead.min(u64::MAX - seq.0);
        let mark = self.marked.max(most);
        keeper.keep(mark)?;
        self.marked = mark;
        Ok(())
    }
}
