//! The executed commands.

ghost use Rattle.std.specs.Prelude.{◌≡◌, ◌==◌, ◌<◌, ◌≤◌, ◌+◌, ℕ, vec_len, vec_capacity, length, slice_get};
ghost use Rattle.std.specs.Prelude.{[], ◌∷◌, ◌++◌, OnOk, OnErr, IfOk};
ghost use Rattle.definitions.specs.Cache.{apply_payload};
ghost use Rattle.definitions.specs.Replies.{reply_text};
ghost use Rattle.executor.specs.Payloads.{entry_in, entries_in, LiesIn, AreRowsOf};

use crate::apply::{ReplyTexts, apply};
use crate::entry::Entry;
use appending::put;
use cache::Cache;
use ids::{ClientId, Fault, Seq};
use std::alloc::{AllocError, Global};
use std::marker::Model;

/// What is kept of a command beside its payload, and where that lies.
#[derive(Debug, Drop)]
struct Row {
    client: ClientId,
    seq: Seq,
    start: usize,
    end: usize,
}

/// Executed commands, oldest first. Their payloads lie one behind the other in one list.
#[derive(Debug, Drop)]
pub struct Entries {
    rows: Vec<Row>,
    payloads: Vec<u8>,
}

impl Model for Entries {
    ghost use Rattle.std.specs.Prelude.{List};
    ghost use Rattle.definitions.specs.Histories as histories;
    ghost use Rattle.executor.specs.Payloads.{entries_in, AreRowsOf};

    ghost Value = { List histories.Entry };

    ghost view = { λ e. entries_in e.payloads.items e.rows.items };

    ghost invariant = { λ e. AreRowsOf e.payloads.items e.rows.items };
}

/// The entry of a row.
fn entry_in<'a>(payloads: &'a [u8], row: &Row) -> Entry<'a>
    requires { LiesIn payloads.now row.now }
    ensures { result ≡ entry_in payloads.now row.now }
{
    Entry {
        client: row.client,
        seq: row.seq,
        payload: &payloads[row.start..row.end],
    }
}

/// Makes room for a row more, and for so many bytes of payload more.
fn make_room(rows: &mut Vec<Row>, payloads: &mut Vec<u8>, len: usize) -> Result<(), AllocError>
    ensures rows { rows.new.items ≡ rows.old.items }
    ensures payloads { payloads.new.items ≡ payloads.old.items }
    ensures row { OnOk result (vec_len rows.new < vec_capacity rows.new) }
    ensures payload { OnOk result (vec_len payloads.new + len ≤ vec_capacity payloads.new) }
{
    rows.reserve(1)?;
    payloads.reserve(len)?;
    Ok(())
}

/// Puts an entry last, for which there is room.
fn put_last(rows: &mut Vec<Row>, payloads: &mut Vec<u8>, entry: &Entry<'_>)
    requires row { vec_len rows.old < vec_capacity rows.old }
    requires payload { vec_len payloads.old + length entry.now.payload ≤ vec_capacity payloads.old }
    requires kept { AreRowsOf payloads.old.items rows.old.items }
    ensures kept { AreRowsOf payloads.new.items rows.new.items }
    ensures entered { entries_in payloads.new.items rows.new.items
        ≡ entries_in payloads.old.items rows.old.items ++ entry.now ∷ [] }
{
    let start = payloads.len();
    put(payloads, entry.payload());
    let row = Row {
        client: entry.client(),
        seq: entry.seq(),
        start,
        end: payloads.len(),
    };
    rows.push(row).unwrap();
}

impl Entries {
    /// No commands. It takes no memory yet.
    pub fn new(alloc: Global) -> Entries
        ensures { result ≡ [] }
    {
        Entries {
            rows: Vec::new(alloc),
            payloads: Vec::new(alloc),
        }
    }

    /// How many there are.
    pub fn len(&self) -> usize
        ensures { result ≡ length self.now }
    {
        self.rows.len()
    }

    /// Whether there is none.
    pub fn is_empty(&self) -> bool
        ensures { result ≡ (length self.now == 0) }
    {
        self.rows.is_empty()
    }

    /// The command with so many before it, where there is one.
    pub fn get(&self, i: usize) -> Option<Entry<'_>>
        ensures { result ≡ slice_get self.now i }
    {
        let row = self.rows.get(i)?;
        Some(entry_in(&self.payloads, row))
    }

    /// All of them, oldest first.
    pub fn iter(&self) -> EntryIter<'_>
        ensures { result ≡ self.now }
    {
        EntryIter {
            rows: &self.rows,
            payloads: &self.payloads,
        }
    }

    /// Puts an entry last.
    pub(crate) fn push(&mut self, entry: &Entry<'_>) -> Result<(), AllocError>
        ensures entered { OnOk result (self.new ≡ self.old ++ entry.now ∷ []) }
        ensures unchanged { OnErr result (self.new ≡ self.old) }
    {
        make_room(&mut self.rows, &mut self.payloads, entry.payload().len())?;
        put_last(&mut self.rows, &mut self.payloads, entry);
        Ok(())
    }

    /// Applies an entry to the cache and puts it last. The room for it is made first.
    pub(crate) fn push_applied(
        &mut self,
        alloc: Global,
        cache: &mut Cache,
        entry: &Entry<'_>,
    ) -> Result<ReplyTexts, Fault>
        ensures entered { OnOk result (self.new ≡ self.old ++ entry.now ∷ []) }
        ensures left { OnOk result (
            cache.new ≡ (apply_payload cache.old entry.now.payload).0) }
        ensures told { IfOk result (λ texts. texts.told.items
            ≡ reply_text (apply_payload cache.old entry.now.payload).1) }
        ensures kept { IfOk result (λ texts. texts.kept.items
            ≡ reply_text (apply_payload cache.old entry.now.payload).1) }
        ensures unchanged { OnErr result ((self.new ≡ self.old) × (cache.new ≡ cache.old)) }
        ensures memory { OnErr result (result ≡ Err Fault.Memory) }
    {
        make_room(&mut self.rows, &mut self.payloads, entry.payload().len())?;
        let texts = apply(alloc, cache, entry.payload())?;
        put_last(&mut self.rows, &mut self.payloads, entry);
        Ok(texts)
    }
}

/// Executed commands that are left to walk.
#[derive(Drop)]
pub struct EntryIter<'a> {
    rows: &'a [Row],
    payloads: &'a [u8],
}

impl<'a> Model for EntryIter<'a> {
    ghost use Rattle.std.specs.Prelude.{List};
    ghost use Rattle.definitions.specs.Histories as histories;
    ghost use Rattle.executor.specs.Payloads.{entries_in, AreRowsOf};

    ghost Value = { List histories.Entry };

    ghost view = { λ it. entries_in it.payloads.now it.rows.now };

    ghost invariant = { λ it. AreRowsOf it.payloads.now it.rows.now };
}

impl<'a> Iterator for EntryIter<'a> {
    type Item = Entry<'a>;

    ghost use Rattle.std.specs.Iterator.{YieldsFirst, item_count};

    ghost next_gives = { YieldsFirst (λ left. left) };

    ghost remaining = { item_count (λ left. left) };

    fn next(&mut self) -> Option<Entry<'a>> {
        let (row, rows) = self.rows.split_first()?;
        self.rows = rows;
        Some(entry_in(self.payloads, row))
    }
}

impl<'a> IntoIterator for &'a Entries {
    type Item = Entry<'a>;

    type IntoIter = EntryIter<'a>;

    ghost into_iter_gives = { λ entries it. it ≡ entries.now };

    fn into_iter(self) -> EntryIter<'a> {
        self.iter()
    }
}
