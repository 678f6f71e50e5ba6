//! What a worker's turns are for. Each law stands as the contract of a function.

ghost use Rattle.fabric.specs.Orders.{LinkIsServed};

use fair_queue::others_come_nearer;

/// A row of the link from which something may be taken is served within twice as many takes as there are rows, however
/// much the replica sends to itself.
pub fn link_is_served<T>()
    ensures { LinkIsServed T }
{
    others_come_nearer::<T>();
}
