//! The fields of a core, as they lie in the bytes that it was read from.

ghost use Rattle.std.specs.Prelude.{◌≡◌, ◌<◌, length};
ghost use Rattle.std.specs.List.{flat_map};
ghost use Rattle.definitions.specs.Frames.{command_bytes};
ghost use Rattle.frames_view.specs.Readings.{elements};
ghost use Rattle.frames_view.specs.Parts.{command_in};

/// How many bytes stand before a core's commands.
pub(crate) const CORE_HEAD: usize = 49;

#[derive(Clone, Copy)]
pub(crate) struct CoreFields<'a> {
    pub(crate) parent: &'a [u8; 32],
    pub(crate) height: u64,
    pub(crate) justify_height: u64,
    pub(crate) replicas: u8,
    pub(crate) clients: u8,
    pub(crate) count: u8,
    pub(crate) commands: &'a [u8],
    ghost whole: { length parent.now ≡ 32 },
    ghost below: { justify_height < height },
    ghost counted: { length (elements (command_in replicas clients) count commands.now) ≡ count },
    ghost trimmed: { commands.now
        ≡ flat_map command_bytes (elements (command_in replicas clients) count commands.now) },
}
