//! Whose turn it is.

ghost use Rattle.std.specs.Prelude.{◌≡◌, ◌≢◌, ◌<◌};
ghost use Rattle.asking.specs.Asking.{one_behind};
ghost use Rattle.catching_up.specs.Turns.{next_peer};

use ids::ReplicaId;

/// The replica behind one, of so many.
fn one_behind(replicas: u8, peer: ReplicaId) -> ReplicaId
    requires { 0 < replicas }
    ensures { result ≡ one_behind replicas peer }
{
    if peer.0 < replicas - 1 {
        ReplicaId(peer.0 + 1)
    } else {
        ReplicaId(0)
    }
}

/// The one behind a peer, of so many, but for the replica itself.
pub(crate) fn next_peer(replicas: u8, own: ReplicaId, peer: ReplicaId) -> ReplicaId
    requires { 1 < replicas }
    ensures { result ≡ next_peer replicas own peer }
{
    let next = one_behind(replicas, peer);
    if next == own {
        one_behind(replicas, next)
    } else {
        next
    }
}
