//! The executed commands, counted.

ghost use Rattle.std.specs.Prelude.{◌≡◌, ◌<◌, ◌^◌, suc, [], ◌∷◌, length, OnOk};

use crate::entry::Entry;
use ghost_list::{GhostList, Tells};
use std::alloc::AllocError;
use std::marker::Model;

/// An entry as the definitions have it. No value of it is made.
pub(crate) struct AnEntry;

impl Model for AnEntry {
    ghost use Rattle.std.specs.Prelude.{[]};
    ghost use Rattle.definitions.specs.Histories as histories;

    ghost Value = { histories.Entry };

    ghost view = { λ _. record { client = 0; seq = 0; payload = [] } };
}

impl<'a> Tells<AnEntry> for Entry<'a> {
    ghost tells = { λ e. e };
}

/// Executed commands. How many is counted; which they are exists in proofs alone.
#[derive(Drop)]
pub(crate) struct Executed {
    count: usize,
    entries: GhostList<AnEntry>,
}

impl Model for Executed {
    ghost use Rattle.std.specs.Prelude.{◌≡◌, length};
    ghost use Rattle.definitions.specs.Histories.{History};

    ghost Value = { History };

    ghost view = { λ x. x.entries.items };

    ghost invariant = { λ x. x.count ≡ length x.entries.items };
}

impl Executed {
    /// No commands.
    pub(crate) fn new() -> Executed
        ensures { result ≡ [] }
    {
        Executed {
            count: 0,
            entries: GhostList::new(),
        }
    }

    /// How many there are.
    pub(crate) fn len(&self) -> usize
        ensures { result ≡ length self.now }
    {
        self.count
    }

    /// Whether one more can be counted. No replica lasts until it can't.
    pub(crate) fn room(&self) -> Result<(), AllocError>
        ensures { OnOk result (suc (length self.now) < 2 ^ 64) }
    {
        if self.count == usize::MAX {
            return Err(AllocError);
        }
        Ok(())
    }

    /// One command more.
    pub(crate) fn put(&mut self, entry: &Entry<'_>)
        requires { suc (length self.old) < 2 ^ 64 }
        ensures { self.new ≡ entry.now ∷ self.old }
    {
        self.entries = self.entries.with(entry);
        self.count += 1;
    }
}
