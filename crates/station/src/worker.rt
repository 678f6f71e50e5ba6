//! What a replica's workers begin with.

use crate::lying::LiarStart;
use signed_frames::WorkerKeyring;
use std::marker::Model;

/// What one worker of a station begins with, beside a share that it takes there.
#[derive(Drop)]
pub struct WorkerStart {
    pub(crate) keyring: WorkerKeyring,
    /// Where its replica is to lie.
    pub(crate) liar: Option<LiarStart>,
}

impl Model for WorkerStart {
    ghost use Rattle.std.specs.Prelude.{option_map};
    ghost use Rattle.station.specs.Workers as workers;

    ghost Value = { workers.Worker };

    ghost view = { λ w. record { lie = option_map (λ start. (start.lying.liar, start.until)) w.liar } };
}
