//! Where executed commands are written down.

ghost use Rattle.std.specs.Prelude.{◌≡◌, ◌∷◌, IfOk, OnOk, OnErr};
ghost use Rattle.definitions.specs.Cache.{apply_payload};
ghost use Rattle.definitions.specs.Histories.{History};
ghost use Rattle.definitions.specs.Replies.{reply_text};

use crate::apply::{ReplyTexts, apply};
use crate::entries::Entries;
use crate::entry::Entry;
use cache::Cache;
use ids::Fault;
use std::alloc::{AllocError, Global};

/// Where commands are written down as they are executed, if anywhere.
pub trait Ledger {
    ghost use Rattle.definitions.specs.Histories as histories;

    // this history is held there
    ghost holds: { Self → histories.History → Type 0 };

    /// Writes a command down.
    fn push(&mut self, entry: &Entry<'_>) -> Result<(), AllocError>
        ensures written { OnOk result
            ((h : History) → holds self.old h → holds self.new (entry.now ∷ h)) }
        ensures unchanged { OnErr result (self.new ≡ self.old) };

    /// Applies a command to the cache and holds it. The room for it is made first.
    fn push_applied(
        &mut self,
        alloc: Global,
        cache: &mut Cache,
        entry: &Entry<'_>,
    ) -> Result<ReplyTexts, Fault>
        ensures written { OnOk result
            ((h : History) → holds self.old h → holds self.new (entry.now ∷ h)) }
        ensures left { OnOk result (
            cache.new ≡ (apply_payload cache.old entry.now.payload).0) }
        ensures told { IfOk result (λ texts. texts.told.items
            ≡ reply_text (apply_payload cache.old entry.now.payload).1) }
        ensures kept { IfOk result (λ texts. texts.kept.items
            ≡ reply_text (apply_payload cache.old entry.now.payload).1) }
        ensures unchanged { OnErr result ((self.new ≡ self.old) × (cache.new ≡ cache.old)) }
        ensures memory { OnErr result (result ≡ Err Fault.Memory) };
}

/// All of them are kept, oldest first.
impl Ledger for Entries {
    ghost use Rattle.std.specs.Prelude.{◌≡◌, reverse};

    ghost holds = { λ entries h. reverse entries ≡ h };

    fn push(&mut self, entry: &Entry<'_>) -> Result<(), AllocError> {
        Entries::push(self, entry)
    }

    fn push_applied(
        &mut self,
        alloc: Global,
        cache: &mut Cache,
        entry: &Entry<'_>,
    ) -> Result<ReplyTexts, Fault> {
        Entries::push_applied(self, alloc, cache, entry)
    }
}

/// Nothing is written down.
#[derive(Drop)]
pub struct NoLedger;

impl Ledger for NoLedger {
    ghost use Rattle.std.specs.Prelude.{⊤};

    ghost holds = { λ _ _. ⊤ };

    fn push(&mut self, _entry: &Entry<'_>) -> Result<(), AllocError> {
        Ok(())
    }

    fn push_applied(
        &mut self,
        alloc: Global,
        cache: &mut Cache,
        entry: &Entry<'_>,
    ) -> Result<ReplyTexts, Fault> {
        apply(alloc, cache, entry.payload())
    }
}
