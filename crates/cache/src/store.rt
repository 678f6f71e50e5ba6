ghost use Rattle.std.specs.Prelude.{◌≡◌, ◌++◌, IfOk, OnOk, OnErr};
ghost use Rattle.definitions.specs.Requests as requests;
ghost use Rattle.definitions.specs.Replies as replies;
ghost use Rattle.definitions.specs.Cache.{change, store_it};
ghost use Rattle.mc_lines.specs.Meaning.{reply_of, verb_of};

use crate::cache::Cache;
use ids::MOST_DATA;
use mc_lines::{Reply, Verb};
use std::alloc::{AllocError, Global};

/// One text behind another.
fn joined(alloc: Global, front: &[u8], back: &[u8]) -> Result<Vec<u8>, AllocError>
    ensures { IfOk result (λ text. text.items ≡ front.now ++ back.now) }
{
    let mut text = Vec::from_slice(alloc, front)?;
    text.extend_from_slice(back)?;
    Ok(text)
}

impl Cache {
    /// A storage command.
    pub(crate) fn store(
        &mut self,
        verb: Verb,
        key: &[u8],
        flags: u32,
        stored: &[u8],
    ) -> Result<Reply, AllocError>
        ensures left { OnOk result (
            self.new ≡ (store_it self.old (verb_of verb) key.now flags stored.now).0) }
        ensures told { IfOk result (λ reply.
            reply_of reply ≡ (store_it self.old (verb_of verb) key.now flags stored.now).1) }
        ensures unchanged { OnErr result (self.new ≡ self.old) }
    {
        match verb {
            Verb::Set => self.put(key, flags, stored),
            Verb::Add => if self.has(key) {
                Ok(Reply::NotStored)
            } else {
                self.put(key, flags, stored)
            },
            Verb::Replace => if self.has(key) {
                self.put(key, flags, stored)
            } else {
                Ok(Reply::NotStored)
            },
            Verb::Append => self.append(key, stored),
            Verb::Prepend => self.prepend(key, stored),
        }
    }

    /// Puts data under a key.
    pub(crate) fn put(&mut self, key: &[u8], flags: u32, stored: &[u8]) -> Result<Reply, AllocError>
        ensures left { OnOk result (
            self.new ≡ (change self.old key.now flags stored.now replies.stored).0) }
        ensures told { IfOk result (λ reply.
            reply_of reply ≡ (change self.old key.now flags stored.now replies.stored).1) }
        ensures unchanged { OnErr result (self.new ≡ self.old) }
    {
        let stored = Vec::from_slice(self.alloc, stored)?;
        self.change(key, flags, stored, Reply::Stored)
    }

    /// Puts data behind what a key has. The flags stay.
    fn append(&mut self, key: &[u8], stored: &[u8]) -> Result<Reply, AllocError>
        ensures left { OnOk result (
            self.new ≡ (store_it self.old requests.append key.now 0 stored.now).0) }
        ensures told { IfOk result (λ reply.
            reply_of reply ≡ (store_it self.old requests.append key.now 0 stored.now).1) }
        ensures unchanged { OnErr result (self.new ≡ self.old) }
    {
        let Some(entry) = self.get(key) else {
            return Ok(Reply::NotStored);
        };
        if entry.stored.len() + stored.len() > MOST_DATA {
            return Ok(Reply::TooLarge);
        }
        let flags = entry.flags;
        let text = joined(self.alloc, &entry.stored, stored)?;
        self.change(key, flags, text, Reply::Stored)
    }

    /// Puts data before what a key has. The flags stay.
    fn prepend(&mut self, key: &[u8], stored: &[u8]) -> Result<Reply, AllocError>
        ensures left { OnOk result (
            self.new ≡ (store_it self.old requests.prepend key.now 0 stored.now).0) }
        ensures told { IfOk result (λ reply.
            reply_of reply ≡ (store_it self.old requests.prepend key.now 0 stored.now).1) }
        ensures unchanged { OnErr result (self.new ≡ self.old) }
    {
        let Some(entry) = self.get(key) else {
            return Ok(Reply::NotStored);
        };
        if stored.len() + entry.stored.len() > MOST_DATA {
            return Ok(Reply::TooLarge);
        }
        let flags = entry.flags;
        let text = joined(self.alloc, stored, &entry.stored)?;
        self.change(key, flags, text, Reply::Stored)
    }
}
