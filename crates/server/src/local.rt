//! What clients of a deployment in one process hand their requests to.

ghost use Rattle.std.specs.Prelude.{◌≡◌};

use crate::roll::Roll;
use bytes::Bytes;
use fabric::{Links, Requests};
use ids::{Config, ReplicaId};
use std::marker::Model;
use std::sync::Wait;
use std::time::Clock;

/// The links of the process, and the roll of its replicas.
#[derive(Drop)]
pub(crate) struct Local {
    pub(crate) links: Links,
    pub(crate) roll: Roll,
}

impl Model for Local {
    ghost use Rattle.ids.specs.Sizes.{Sizes};

    ghost Value = { Sizes };

    ghost view = { λ local. local.links };
}

impl Local {
    /// The sizes of the deployment.
    pub(crate) fn config(&self) -> Config
        ensures { result ≡ self.now }
    {
        self.links.config()
    }
}

/// What can't be handed in is lost, as on any network.
impl Requests for Local {
    fn config(&self) -> Config {
        self.links.config()
    }

    fn are_open<R: Wait + Clock>(&self, rt: &R) -> bool {
        self.roll.is_open(rt)
    }

    fn are_crowded<R: Wait>(&self, _rt: &R) -> bool {
        self.links.are_crowded()
    }

    fn to_all<R: Wait>(&self, rt: &R, frame: Bytes) {
        let _lost = self.links.to_all(rt, frame);
    }

    fn to_replica<R: Wait>(&self, rt: &R, to: ReplicaId, frame: Bytes) {
        let _lost = self.links.to_replica(rt, to, frame);
    }
}
