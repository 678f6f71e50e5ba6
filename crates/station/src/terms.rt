//! How a deployment is to run.

ghost use Rattle.std.specs.Prelude.{◌≡◌, ◌==◌, ◌^◌, ◌-◌, None, unwrap_or, if◌then◌else◌};
ghost use Rattle.ids.specs.Sizes.{replicas};
ghost use Rattle.station.specs.Keeping as keeping;

use clock::Keep;
use ids::{Config, Height, MOST_BLOCKS, ReplicaId};
use liars::Liar;
use std::hash::RandomState;
use tuning::MOST_KEPT;

/// How many workers drive a replica. Two check frames side by side, and step their replica in turn.
#[derive(Clone, Copy, Debug, PartialEq, Eq)]
pub enum Workers {
    One,
    Two,
}

impl Workers {
    ghost use Rattle.station.specs.Workers.{worker_count};

    /// Their number.
    pub(crate) fn count(self) -> usize
        ensures { result ≡ worker_count self }
    {
        match self {
            Workers::One => 1,
            Workers::Two => 2,
        }
    }
}

/// Which replicas lie, and how.
#[derive(Clone, Copy, Debug)]
pub struct Liars {
    pub liar: Liar,
    /// So many lie: those of the lowest numbers.
    pub count: u8,
    /// After how many seconds they fall silent. None for never.
    pub until: Option<u64>,
}

/// How a deployment is to run.
#[derive(Clone, Copy, Debug)]
pub struct Terms {
    /// The replicas that lie, if some are to.
    pub liars: Option<Liars>,
    /// So many clients lie: the seats of the lowest numbers. To each replica they send their requests with the tag for
    /// that one alone.
    pub liar_clients: u8,
    /// How many connections are served.
    pub most: u64,
    /// How many blocks a replica may hold, genesis included: one that holds so many stops with `Full`. None
    /// for as many as a tree takes.
    pub blocks: Option<usize>,
    /// How many heights below its last executed block a replica keeps in any case. None to keep all, with an archive.
    pub window: Option<u64>,
    /// How many it keeps at most for replicas that are behind. None for the part of `MOST_KEPT` that is one's among the
    /// replicas.
    pub window_most: Option<u64>,
    /// How many megabytes each replica's record of frames may take, for others that fell behind. The bytes of a frame lie in
    /// memory once for all replicas.
    pub record: u64,
    /// The workers of the last replica begin when more than f others have executed up to this height, and what comes before is
    /// lost: for trying out how it comes to them. None for at once.
    pub late: Option<Height>,
    /// How many workers each replica has.
    pub workers: Workers,
    /// How many times as long as on one machine views and commands may take, before a leader is replaced.
    pub patience: u64,
    /// Each how many seconds a line is logged that tells how it goes. None for no lines.
    pub watch: Option<u64>,
    /// The secret by which the replicas' caches hash keys.
    pub hasher: RandomState,
}

impl Terms {
    ghost use Rattle.station.specs.Workers.{liar_at, liar_count};

    /// How this replica lies, if it is to.
    pub(crate) fn liar_of(&self, number: ReplicaId) -> Option<Liars>
        ensures { result ≡ liar_at self.now.liars number }
    {
        match self.liars {
            Some(liars) if number.0 < liars.count => Some(liars),
            _ => None,
        }
    }

    /// Up to which height others are to have executed before a replica's workers begin.
    pub(crate) fn late_of(&self, config: Config, number: ReplicaId) -> Option<Height>
        ensures { result ≡ (if number == replicas config - 1 then self.now.late else None) }
    {
        if number.0 == config.n() - 1 {
            self.late
        } else {
            None
        }
    }

    /// How many replicas are to lie.
    pub fn liars(&self) -> u8
        ensures { result ≡ liar_count self.now.liars }
    {
        match self.liars {
            Some(liars) => liars.count,
            None => 0,
        }
    }

    /// How many heights a replica keeps at most for others, whatever it is asked to: half as many as it may hold blocks.
    fn most_kept(&self, config: Config) -> u64
        ensures { result ≡ keeping.most_kept self.now config }
    {
        let part = MOST_KEPT / u64::from(config.n());
        let blocks = self.blocks.unwrap_or(MOST_BLOCKS).min(MOST_BLOCKS);
        self.window_most.unwrap_or(part).min(blocks as u64 / 2)
    }

    /// How much a replica keeps, if it is to forget.
    pub(crate) fn keep(&self, config: Config) -> Option<Keep>
        ensures { result ≡ keeping.keep self.now config }
    {
        let most = self.most_kept(config);
        match self.window {
            Some(window) => Some(Keep { window, most }),
            None => None,
        }
    }

    /// At how many blocks a replica stops, where its tree isn't full before.
    pub(crate) fn most_blocks(&self) -> usize
        ensures { result ≡ unwrap_or self.now.blocks (2 ^ 64 - 1) }
    {
        self.blocks.unwrap_or(usize::MAX)
    }
}
