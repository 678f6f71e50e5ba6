//! Commands in blocks.

ghost use Rattle.std.specs.Prelude.{◌≡◌};
ghost use Rattle.definitions.specs.FrameLimits.{IsCommand, IsCore};
ghost use Rattle.definitions.specs.Checks.{identity_of, command_verifies, is_clear_core};
ghost use Rattle.frames_view.specs.Views.{command_of, core_of};

use authenticators::VerifyingKeyring;
use frames_view::{CommandView, CoreView};
use ids::{Kind, PartyId};

/// Whether the command's tag for the keyring's own replica verifies.
fn command_verifies(keyring: &VerifyingKeyring, command: &CommandView) -> bool
    requires command { IsCommand keyring.now.sizes (command_of command.now) }
    ensures { result ≡ command_verifies (identity_of keyring.now) (command_of command.now) }
{
    let tag = command.tag(keyring.replica());
    keyring.verify(
        Kind::Request,
        PartyId::from(command.client()),
        command.content(),
        tag,
    )
}

/// Whether the tag of each command verifies.
pub(crate) fn is_clear(keyring: &VerifyingKeyring, core: &CoreView) -> bool
    requires core { IsCore keyring.now.sizes (core_of core.now) }
    ensures { result ≡ is_clear_core (identity_of keyring.now) (core_of core.now) }
{
    for command in core.commands() {
        if !command_verifies(keyring, &command) {
            return false;
        }
    }
    true
}
