//! The judged replicas by their numbers.

ghost use Rattle.std.specs.Prelude.{◌≡◌, ◌<◌, ◌==◌, find, true, false, MatchOption};
ghost use Rattle.ids.specs.declared.limits.TheConstants.{MOST_REPLICAS};
ghost use Rattle.definitions.specs.Audit.{is_judged, chronicle_of};
ghost use Rattle.audit.specs.Judged.{judged};

use ids::ReplicaId;
use replica::{ChronicleView, Whole};

/// The first judged replica of a number, where there is one.
fn find<'a>(replicas: &[&'a Whole<'a>], number: ReplicaId) -> Option<&'a Whole<'a>>
    ensures { result ≡ find (λ r. r.now.keys.party == number) replicas.now }
{
    replicas
        .iter()
        .copied()
        .find(|replica| replica.number() == number)
}

/// The chronicle of the judged replica of a number, where there is one.
pub(crate) fn chronicle_of<'a>(
    replicas: &[&'a Whole<'a>],
    number: ReplicaId,
) -> Option<ChronicleView<'a>>
    ensures { MatchOption result (is_judged (judged replicas.now) number ≡ false)
        (λ c. (is_judged (judged replicas.now) number ≡ true)
        × (c ≡ chronicle_of (judged replicas.now) number)) }
{
    let replica = find(replicas, number)?;
    Some(replica.chronicle())
}

/// A replica's place in a row over replicas.
pub(crate) fn place(replica: &Whole<'_>) -> usize
    ensures number { result ≡ replica.now.keys.party }
    ensures within { result < MOST_REPLICAS }
{
    // For the proof: a replica's number is below that of replicas, of which there are few.
    replica.holds();
    let _replicas = replica.config().n();
    usize::from(replica.number().0)
}
