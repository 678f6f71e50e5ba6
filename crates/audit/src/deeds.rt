//! What a step relies on other replicas to have done before it.

ghost use Rattle.std.specs.Prelude.{◌≡◌, ◌↔◌, [], IsTrue, MatchOption};
ghost use Rattle.definitions.specs.Audit.{counted_by, counted_for, sent_by, sent_block};
ghost use Rattle.audit.specs.Deeds.{does, named_by, named_for, reason_for, IsNamed};
ghost use Rattle.audit.specs.Verdicts.{reason_of};

use crate::verdict::Reason;
use ids::{Digest, ReplicaId};
use replica::StepView;

/// What a replica did for a block.
#[derive(Clone, Copy)]
pub(crate) enum Deed {
    /// It gave its vote for the block.
    Vote,
    /// It took the block.
    Take,
}

/// The replicas that a step names for a deed, and the digest of the block.
#[derive(Drop)]
pub(crate) struct Named<'a> {
    pub(crate) replicas: &'a [ReplicaId],
    pub(crate) block: Digest,
}

/// A deed on which a step relies, and which wasn't done before.
#[derive(Clone, Copy)]
pub(crate) struct Missing {
    pub(crate) deed: Deed,
    pub(crate) replica: ReplicaId,
    pub(crate) block: Digest,
}

/// The voters whose votes a step counts.
fn voters<'a>(step: &StepView<'a>) -> Option<Named<'a>>
    ensures { MatchOption result (counted_by step.now ≡ [])
        (λ n. (n.replicas.now ≡ counted_by step.now) × (n.block ≡ counted_for step.now)) }
{
    let Some(counted) = step.counts() else {
        return None;
    };
    Some(Named {
        replicas: counted.voters,
        block: counted.block,
    })
}

/// The senders of the block that a step took for their number.
fn senders<'a>(step: &StepView<'a>) -> Option<Named<'a>>
    ensures { MatchOption result (sent_by step.now ≡ [])
        (λ n. (n.replicas.now ≡ sent_by step.now) × (n.block ≡ sent_block step.now)) }
{
    let replicas = step.senders();
    if replicas.is_empty() {
        return None;
    }
    let block = step.core()?.digest();
    Some(Named { replicas, block })
}

impl Deed {
    /// Whether a step did it for the block of a digest.
    pub(crate) fn is_done_by(self, step: &StepView<'_>, block: &Digest) -> bool
        ensures { result ≡ does self block.now step.now }
    {
        match self {
            Deed::Vote => step.gives_vote(block),
            Deed::Take => step.takes(block),
        }
    }

    /// The replicas that a step names for it; nothing where it names none.
    pub(crate) fn named_by<'a>(self, step: &StepView<'a>) -> Option<Named<'a>>
        ensures { MatchOption result (named_by self step.now ≡ [])
            (λ n. (n.replicas.now ≡ named_by self step.now) × (n.block ≡ named_for self step.now)) }
    {
        match self {
            Deed::Vote => voters(step),
            Deed::Take => senders(step),
        }
    }

    /// Whether a step names a replica for it, for the block of a digest.
    pub(crate) fn names(self, step: &StepView<'_>, block: &Digest, replica: ReplicaId) -> bool
        ensures { IsTrue result ↔ IsNamed self step.now block.now replica }
    {
        match self.named_by(step) {
            Some(named) => named.replicas.contains(&replica) && named.block == *block,
            None => false,
        }
    }
}

impl Missing {
    /// The reason that it is for a fork, where a step of the receiver relies on it.
    pub(crate) fn reason(self, receiver: ReplicaId) -> Reason
        ensures { reason_of result ≡ reason_for receiver self.deed self.replica self.block }
    {
        match self.deed {
            Deed::Vote => Reason::Vote {
                receiver,
                voter: self.replica,
                digest: self.block,
            },
            Deed::Take => Reason::Take {
                receiver,
                sender: self.replica,
                digest: self.block,
            },
        }
    }
}
