ghost use Rattle.std.specs.Prelude.{◌≡◌};

use ids::{Config, Height, ReplicaId};

/// Whose window it is, and which heights it shows.
#[derive(Clone, Copy, Debug)]
pub struct Head {
    /// The sizes of the deployment.
    pub config: Config,
    /// Which replica it is.
    pub number: ReplicaId,
    /// The height of the last executed block.
    pub height: Height,
    /// The lowest height above genesis that it shows: 1 where there is no block yet.
    pub lowest: Height,
}

impl Head {
    ghost use Rattle.std.specs.Prelude.{◌≡◌};
    ghost use Rattle.window_files.specs.Files.{count_of};

    /// How many digests there are: one for each height.
    pub(crate) fn count(&self) -> u64
        ensures { result ≡ count_of self.now }
    {
        self.height
            .0
            .saturating_sub(self.lowest.0.saturating_sub(1))
    }
}

/// A height, as a number.
pub(crate) fn number_of(height: Height) -> u64
    ensures { result ≡ height }
{
    height.0
}

/// Which replica, as a number.
pub(crate) fn place_of(replica: ReplicaId) -> u64
    ensures { result ≡ replica }
{
    u64::from(replica.0)
}
