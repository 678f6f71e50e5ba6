//! Which request.

use ids::{ClientId, Seq};
use std::marker::Model;

/// Which request: whose, and its number among the client's.
#[derive(Clone, Copy, Debug, PartialEq, Eq, Hash)]
pub struct RequestId {
    pub client: ClientId,
    pub seq: Seq,
}

impl Model for RequestId {
    ghost use Rattle.std.specs.Prelude.{ℕ};

    ghost Value = { ℕ × ℕ };

    ghost view = { λ id. (id.client, id.seq) };

    ghost inverse = { λ pair. record { client = pair.0; seq = pair.1 } };
}
