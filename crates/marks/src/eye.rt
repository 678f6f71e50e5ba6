//! What a thread sees the words with.

use crate::rule::Sight;
use atomic_table::Seat;
use std::marker::Model;

/// What a thread reads the marks with. It may own a replica's word, and then that replica's length
/// is put with it.
///
/// It can't be copied, and has no bytes: what it has seen is known to proofs alone.
#[derive(Drop)]
pub struct Eye {
    pub(crate) seat: Seat<(), Sight>,
}

impl Model for Eye {
    ghost use Rattle.marks.specs.Eyes.{EyeState};

    ghost Value = { EyeState };

    ghost view = { λ e. record { marks = e.seat.table_id; sight = e.seat.me.0 } };
}
