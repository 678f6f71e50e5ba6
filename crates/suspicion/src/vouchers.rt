//! Who vouches for a request.

ghost use Rattle.std.specs.Prelude.{◌≡◌};
ghost use Rattle.suspicion.specs.Vouching as vouching;

use crate::replica_set::ReplicaSet;
use ids::Config;

/// Whether the other replicas that have a client's request with the same bytes as it came here, for whom its tags are right,
/// too, are a quorum with the one that asks: a block with the request may find its votes.
pub fn are_enough(vouchers: &ReplicaSet, config: Config) -> bool
    ensures { result ≡ vouching.are_enough vouchers.now config }
{
    vouchers.len() + 1 >= usize::from(config.quorum())
}
