//! Which replicas go on.

ghost use Rattle.std.specs.Prelude.{◌≡◌, ◌≤◌, IfOk};
ghost use Rattle.std.specs.List.{slice_get};
ghost use Rattle.ids.specs.Sizes.{replicas};

use ids::{Config, Fault};
use std::alloc::{AllocError, Global};
use std::marker::Model;
use std::sync::{Mutex, Wait};

/// Why no request can be answered any more, where replicas stopped for these reasons: the reason of the f + 1-th stop, which
/// left no quorum.
fn cause_of(config: Config, stops: &[Fault]) -> Option<Fault>
    ensures { result ≡ slice_get stops.now config.faults }
{
    stops.get(usize::from(config.faults())).copied()
}

/// The roll of a deployment's replicas. Threads share it by reference.
///
/// As long as at most f replicas have stopped, the others are a quorum, and requests can be answered.
#[derive(Drop)]
pub(crate) struct Roll {
    config: Config,
    /// Why replicas stopped, the first one first. There is room for all.
    stops: Mutex<Vec<Fault>>,
}

impl Model for Roll {
    ghost use Rattle.ids.specs.Sizes.{Sizes};

    ghost Value = { Sizes };

    ghost view = { λ roll. roll.config };
}

impl Roll {
    /// All replicas go on.
    pub(crate) fn new(alloc: Global, config: Config) -> Result<Roll, AllocError>
        ensures { IfOk result (λ roll. roll ≡ config) }
    {
        let stops = Vec::with_capacity(alloc, usize::from(config.n()))?;
        Ok(Roll {
            config,
            stops: Mutex::new(stops),
        })
    }

    /// Whether a request can still be answered.
    pub(crate) fn is_open<R: Wait>(&self, rt: &R) -> bool {
        self.cause(rt).is_none()
    }

    /// How many replicas go on.
    pub(crate) fn going<R: Wait>(&self, rt: &R) -> u8
        ensures { result ≤ replicas self.now }
    {
        let stopped = self.stops.lock(rt).len();
        usize::from(self.config.n()).saturating_sub(stopped) as u8
    }

    /// Why no request can be answered any more. None while one can.
    pub(crate) fn cause<R: Wait>(&self, rt: &R) -> Option<Fault> {
        cause_of(self.config, self.stops.lock(rt).as_slice())
    }

    /// A replica has stopped for this reason.
    pub(crate) fn strike<R: Wait>(&self, rt: &R, fault: Fault) {
        let _has_room = self.stops.lock(rt).push(fault);
    }
}
