//! The rows of a replica's link: which one is whose.

ghost use Rattle.std.specs.Prelude.{◌≡◌, ◌+◌, ◌<◌, ◌≤◌, false, true};
ghost use Rattle.ids.specs.Sizes.{replicas};
ghost use Rattle.fabric.specs.Rows.{answer_row, clock_row, replica_of, replica_row, row_count};

use ids::{Config, ReplicaId};
use tuning::CLIENT_ROWS;

/// Who hands in at a replica's link.
#[derive(Clone, Copy, Debug, PartialEq, Eq)]
pub enum Sender {
    Replica(ReplicaId),
    /// The front of this number, through which some clients' requests come.
    Front(u8),
}

impl Sender {
    /// The replica that it is, if it is one.
    pub(crate) fn replica(&self) -> Option<ReplicaId>
        ensures { result ≡ replica_of self.now }
    {
        match *self {
            Sender::Replica(number) => Some(number),
            Sender::Front(_) => None,
        }
    }
}

/// In which row a parcel waits, and whether it is a client's request.
#[derive(Clone, Copy)]
pub(crate) struct Row {
    pub(crate) number: usize,
    pub(crate) is_request: bool,
}

/// How many rows a link has.
pub(crate) fn row_count(config: Config) -> usize
    ensures { result ≡ row_count config }
{
    let count = usize::from(config.n());
    count + 1 + CLIENT_ROWS + count
}

/// The row of a replica's frames.
pub(crate) fn replica_row(from: ReplicaId) -> Row
    ensures { result ≡ replica_row from }
{
    Row {
        number: usize::from(from.0),
        is_request: false,
    }
}

/// The row of what a replica's clock tells it.
pub(crate) fn clock_row(config: Config) -> Row
    ensures { result ≡ clock_row config }
{
    Row {
        number: usize::from(config.n()),
        is_request: false,
    }
}

/// The row of a request of one of so many fronts, where so many were dealt out before. Each front has a part of the clients'
/// rows; where fronts are more than rows, some share one.
pub(crate) fn request_row(config: Config, front: u8, fronts: u8, dealt: u64) -> Row
    ensures above { replicas config < result.number }
    ensures most { result.number ≤ replicas config + CLIENT_ROWS }
    ensures request { result.is_request ≡ true }
{
    let part = (CLIENT_ROWS / usize::from(fronts).max(1)).max(1);
    let first = usize::from(front) * part;
    let place = (first + dealt as usize % part) % CLIENT_ROWS;
    Row {
        number: usize::from(config.n()) + 1 + place,
        is_request: true,
    }
}

/// The row of what a replica answers, which holds nothing else of it: its frames don't wait behind that.
pub(crate) fn answer_row(config: Config, from: ReplicaId) -> Row
    ensures { result ≡ answer_row config from }
{
    Row {
        number: usize::from(config.n()) + 1 + CLIENT_ROWS + usize::from(from.0),
        is_request: false,
    }
}
