//! The newest announcement of each replica.

ghost use Rattle.std.specs.Prelude.{◌≡◌, ◌<◌, IfOk, None, Option, length, replicate};
ghost use Rattle.std.specs.List.{filter_map};
ghost use Rattle.ids.specs.Sizes.{replicas};
ghost use Rattle.frame_record.specs.Announcing.{frame_of, is_newer, with_announced};

use bytes::Bytes;
use ids::{Config, ReplicaId, View};
use std::alloc::{AllocError, Global};
use std::marker::Model;

/// A frame that announced a view.
#[derive(Drop)]
pub struct Announced {
    pub view: View,
    pub frame: Bytes,
}

/// Of each replica the frame that announced its greatest view. Who was away is brought to the view of the others by those of
/// more than may be faulty; and what one replica announces takes no room of another's.
#[derive(Drop)]
pub struct Announcements {
    newest: Vec<Option<Announced>>,
}

impl Model for Announcements {
    ghost use Rattle.std.specs.Prelude.{List, Option};
    ghost use Rattle.frame_record.specs.declared.announcements.Announced.{Announced};

    ghost Value = { List (Option Announced) };

    ghost view = { λ a. a.newest.items };
}

impl Announcements {
    /// Nobody announced a view.
    pub fn new(alloc: Global, config: Config) -> Result<Announcements, AllocError>
        ensures { IfOk result (λ a. a ≡ replicate (replicas config) None) }
    {
        let mut newest = Vec::with_capacity(alloc, usize::from(config.n()))?;
        for _ in 0..config.n() {
            newest.push_reserved(None);
        }
        Ok(Announcements { newest })
    }

    /// Whether a view is greater than what this replica announced so far. False where there is no such replica.
    fn is_newer(&self, sender: ReplicaId, view: View) -> bool
        ensures { result ≡ is_newer sender view self.now }
    {
        match self.newest.get(usize::from(sender.0)) {
            Some(Some(known)) => known.view.0 < view.0,
            Some(None) => true,
            None => false,
        }
    }

    /// A replica announced a view by this frame. It takes the place of its former one, where the view is greater. It takes no
    /// memory.
    pub fn note(&mut self, sender: ReplicaId, announced: Announced)
        ensures { self.new ≡ with_announced sender announced self.old }
    {
        if self.is_newer(sender, announced.view) {
            self.newest[usize::from(sender.0)] = Some(announced);
        }
    }

    /// The frames, by the numbers of the replicas. Their bytes are shared.
    pub fn frames(&self, alloc: Global) -> Result<Vec<Bytes>, AllocError>
        ensures { IfOk result (λ frames. frames.items ≡ filter_map frame_of self.now) }
    {
        let mut frames = Vec::new(alloc);
        for newest in &self.newest {
            if let Some(announced) = newest {
                frames.push(announced.frame.clone()?)?;
            }
        }
        Ok(frames)
    }
}
