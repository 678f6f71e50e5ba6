use ids::{Place, Seq};
use std::marker::Model;

/// What a client accepted: to its request of this number, which has this place in the one history,
/// the cache answers this text.
#[derive(Debug, Drop)]
pub struct Receipt {
    pub seq: Seq,
    pub place: Place,
    pub text: Vec<u8>,
}

impl Model for Receipt {
    ghost use Rattle.definitions.specs.Sessions as sessions;

    ghost Value = { sessions.Receipt };

    ghost view = { λ r. record { seq = r.seq; place = r.place; text = r.text.items } };
}
