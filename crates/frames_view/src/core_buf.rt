//! Cores that are kept.

ghost use Rattle.std.specs.Prelude.{◌≡◌, IfOk};
ghost use Rattle.frames_view.specs.Views.{core_of};

use crate::core_fields::{CORE_HEAD, CoreFields};
use crate::cursor::from;
use crate::views::CoreView;
use std::alloc::{AllocError, Global};
use std::marker::Model;

/// A core of its own, as `CoreView` is one that is lent.
#[derive(Drop)]
pub struct CoreBuf {
    raw: Vec<u8>,
    parent: [u8; 32],
    height: u64,
    justify_height: u64,
    replicas: u8,
    clients: u8,
    count: u8,
}

impl Model for CoreBuf {
    ghost use Rattle.std.specs.Prelude.{◌≡◌, ◌<◌, length, drop};
    ghost use Rattle.definitions.specs.Frames.{Core, core_bytes};
    ghost use Rattle.frames_view.specs.Readings.{elements};
    ghost use Rattle.frames_view.specs.Parts.{command_in};
    ghost use Rattle.frames_view.specs.declared.core_fields.TheConstants.{CORE_HEAD};

    ghost Value = { Core };

    ghost view = { λ k. record {
      parent = k.parent;
      height = k.height;
      justify_height = k.justify_height;
      commands = elements (command_in k.replicas k.clients) k.count (drop CORE_HEAD k.raw.items);
    } };

    ghost invariant = { λ k. let commands =
        elements (command_in k.replicas k.clients) k.count (drop CORE_HEAD k.raw.items) in
        (length k.parent ≡ 32) × (length commands ≡ k.count) × (k.justify_height < k.height)
        × (k.raw.items ≡ core_bytes (record {
          parent = k.parent;
          height = k.height;
          justify_height = k.justify_height;
          commands = commands;
        })) };
}

impl CoreBuf {
    /// A copy of a core.
    pub fn copy(alloc: Global, core: &CoreView) -> Result<CoreBuf, AllocError>
        ensures { IfOk result (λ k. k ≡ core_of core.now) }
    {
        let fields = core.fields;
        Ok(CoreBuf {
            raw: core.raw.to_vec(alloc)?,
            parent: *fields.parent,
            height: fields.height,
            justify_height: fields.justify_height,
            replicas: fields.replicas,
            clients: fields.clients,
            count: fields.count,
        })
    }

    /// The core, lent.
    pub fn view(&self) -> CoreView<'_>
        ensures { core_of result ≡ self.now }
    {
        let raw = self.raw.as_slice();
        let fields = CoreFields {
            parent: &self.parent,
            height: self.height,
            justify_height: self.justify_height,
            replicas: self.replicas,
            clients: self.clients,
            count: self.count,
            commands: from(raw, CORE_HEAD),
        };
        CoreView { raw, fields }
    }
}
