//! Cores, and whether two of them are the same.

ghost use Rattle.std.specs.Prelude.{◌≡◌, ◌↔◌, IsTrue};
ghost use Rattle.definitions.specs.Frames.{genesis_core};
ghost use Rattle.definitions.specs.Digests.{digest};
ghost use Rattle.frames_view.specs.Views.{core_of, command_of, commands_left};
ghost use Rattle.audit.specs.Cores.{known, Collide};

use frames_view::{CommandView, Commands, CoreView, genesis_digest};
use ids::Digest;

/// A core that a judged replica knows.
#[derive(Clone, Copy)]
pub(crate) enum KnownCore<'a> {
    Genesis,
    Block(CoreView<'a>),
}

/// Whether two commands are the same.
fn same_command(a: &CommandView, b: &CommandView) -> bool
    ensures { IsTrue result ↔ (command_of a.now ≡ command_of b.now) }
{
    a.client() == b.client()
        && a.seq() == b.seq()
        && a.payload() == b.payload()
        && a.vector() == b.vector()
}

/// Whether the same commands are left.
fn same_commands(a: Commands, b: Commands) -> bool
    ensures { IsTrue result ↔ (commands_left a.entry ≡ commands_left b.entry) }
{
    let mut others = b;
    for command in a {
        match others.next() {
            Some(other) if same_command(&command, &other) => {}
            _ => return false,
        }
    }
    others.next().is_none()
}

/// Whether two cores of blocks are the same.
fn same_core(a: &CoreView, b: &CoreView) -> bool
    ensures { IsTrue result ↔ (core_of a.now ≡ core_of b.now) }
{
    a.parent() == b.parent()
        && a.height() == b.height()
        && a.justify_height() == b.justify_height()
        && same_commands(a.commands(), b.commands())
}

/// Whether it is the core of genesis.
fn is_genesis(core: &CoreView) -> bool
    ensures { IsTrue result ↔ (core_of core.now ≡ genesis_core) }
{
    *core.parent() == [0; 32]
        && core.height().0 == 0
        && core.justify_height().0 == 0
        && core.commands().next().is_none()
}

impl KnownCore<'_> {
    /// The digest of its block.
    fn digest(&self) -> Digest
        ensures { result ≡ digest (known self.now) }
    {
        match self {
            KnownCore::Genesis => genesis_digest(),
            KnownCore::Block(core) => core.digest(),
        }
    }

    /// Whether it is the same core.
    fn is_same(&self, other: &KnownCore) -> bool
        ensures { IsTrue result ↔ (known self.now ≡ known other.now) }
    {
        match (self, other) {
            (KnownCore::Genesis, KnownCore::Genesis) => true,
            (KnownCore::Genesis, KnownCore::Block(core)) => is_genesis(core),
            (KnownCore::Block(core), KnownCore::Genesis) => is_genesis(core),
            (KnownCore::Block(core), KnownCore::Block(other)) => same_core(core, other),
        }
    }

    /// Whether it is another core with the same digest.
    pub(crate) fn collides_with(&self, other: &KnownCore) -> bool
        ensures { IsTrue result ↔ Collide (known self.now) (known other.now) }
    {
        self.digest() == other.digest() && !self.is_same(other)
    }
}
