//! Cores: what the digests of blocks are made of.

ghost use Rattle.std.specs.Prelude.{◌≡◌, ◌+◌, ◌++◌, length, IfSome};
ghost use Rattle.definitions.specs.Frames.{command_bytes, core_bytes};
ghost use Rattle.ids.specs.Sizes.{replicas};
ghost use Rattle.definitions.specs.Slices.{LeftAt};
ghost use Rattle.frames_view.specs.Readings.{IsRead, behind};
ghost use Rattle.frames_view.specs.Parts.{command_in, core_in};
ghost use Rattle.frames_view.specs.Cores.{core_of_fields};
ghost use Rattle.frames_view.specs.Views.{Gives, core_of, commands_left};
ghost use Rattle.frames_view.specs.Places.{IsSplit, AreFieldsAt, IsCoreAt};
ghost use Rattle.frames_view.specs.declared.core_fields.TheConstants.{CORE_HEAD};

use crate::command::take_command;
use crate::core_fields::CoreFields;
use crate::cursor::{before, split, take_32, take_heights, take_u8};
use crate::views::{Commands, CoreView};
use ids::{Config, Height, MOST_COMMANDS};

impl<'a> CoreView<'a> {
    /// All its bytes: the digest of the block is theirs.
    pub fn raw(&self) -> &'a [u8]
        ensures value { result.now ≡ core_bytes (core_of self.now) }
        ensures lent { result ≡ self.now.raw }
    {
        self.raw
    }

    /// The digest of the block below.
    pub fn parent(&self) -> &'a [u8; 32]
        ensures value { result.now ≡ (core_of self.now).parent }
        ensures lent { result ≡ self.now.fields.parent }
    {
        self.fields.parent
    }

    /// The block's height.
    pub fn height(&self) -> Height
        ensures { result ≡ (core_of self.now).height }
    {
        Height(self.fields.height)
    }

    /// The height of the block that is justified.
    pub fn justify_height(&self) -> Height
        ensures { result ≡ (core_of self.now).justify_height }
    {
        Height(self.fields.justify_height)
    }

    /// The commands, in order.
    pub fn commands(&self) -> Commands<'a>
        ensures value { commands_left result ≡ (core_of self.now).commands }
        ensures lent { result.rest ≡ self.now.fields.commands }
    {
        Commands {
            replicas: self.fields.replicas,
            clients: self.fields.clients,
            count: self.fields.count,
            rest: self.fields.commands,
        }
    }
}

/// What is left behind `count` commands.
fn skip_commands(bytes: &[u8], replicas: u8, clients: u8, count: u8) -> Option<&[u8]>
    ensures { Gives (λ rest. rest.now) result (behind (command_in replicas clients) count bytes.now) }
{
    let mut rest = bytes;
    for _ in 0..count {
        let (_command, after) = take_command(rest, replicas, clients)?;
        rest = after;
    }
    Some(rest)
}

/// `count` commands, and what is left behind them.
fn take_commands<'a>(config: &Config, bytes: &'a [u8], count: u8) -> Option<(&'a [u8], &'a [u8])>
    ensures left { Gives (λ p. p.1.now) result
        (behind (command_in (replicas config.now) config.now.clients) count bytes.now) }
    ensures taken { IfSome result (λ p. IsRead command_bytes
        (command_in (replicas config.now) config.now.clients) count bytes.now p.0.now) }
    ensures lent { IfSome result (λ p. IsSplit bytes.entry p.0 p.1) }
{
    let (replicas, clients) = (config.n(), config.clients());
    let rest = skip_commands(bytes, replicas, clients, count)?;
    Some(split(bytes, bytes.len() - rest.len()))
}

/// The fields of a core.
#[tactic(auto, unfolding(crate::specs::Parts::core_in, crate::specs::Parts::commands_in))]
fn take_fields<'a>(config: &Config, bytes: &'a [u8]) -> Option<(CoreFields<'a>, &'a [u8])>
    ensures taken { Gives (λ p. (core_of_fields p.0, p.1.now)) result (core_in config.now bytes.now) }
    ensures lent { IfSome result
        (λ p. AreFieldsAt bytes.entry 0 p.0 × LeftAt bytes.entry (CORE_HEAD + length p.0.commands.now) p.1) }
{
    let (replicas, clients) = (config.n(), config.clients());
    let (parent, rest) = take_32(bytes)?;
    let ((height, justify_height), rest) = take_heights(rest)?;
    let (count, rest) = take_u8(rest)?;
    if usize::from(count) > MOST_COMMANDS {
        return None;
    }
    let (commands, rest) = take_commands(config, rest, count)?;
    let fields = CoreFields {
        parent,
        height,
        justify_height,
        replicas,
        clients,
        count,
        commands,
    };
    Some((fields, rest))
}

pub(crate) fn take_core<'a>(config: &Config, bytes: &'a [u8]) -> Option<(CoreView<'a>, &'a [u8])>
    ensures taken { Gives (λ p. (core_of p.0, p.1.now)) result (core_in config.now bytes.now) }
    ensures lent { IfSome result
        (λ p. IsCoreAt bytes.entry 0 p.0 × LeftAt bytes.entry (length p.0.raw.now) p.1) }
    ensures spelled { IfSome result (λ p. bytes.now ≡ core_bytes (core_of p.0) ++ p.1.now) }
{
    // Both are bytes, so numbers of parties fit their fields.
    let (_replicas, _clients) = (config.n(), config.clients());
    let (fields, rest) = take_fields(config, bytes)?;
    let raw = before(bytes, rest);
    Some((CoreView { raw, fields }, rest))
}
