ghost use Rattle.std.specs.Prelude.{◌≡◌, IfOk, OnOk, OnErr};
ghost use Rattle.definitions.specs.Requests as requests;
ghost use Rattle.definitions.specs.Cache.{change, apply};
ghost use Rattle.mc_lines.specs.Meaning.{reply_of};

use crate::cache::Cache;
use crate::entry::Entry;
use crate::uses::UsedKey;
use mc_lines::Reply;
use std::alloc::AllocError;

impl Cache {
    /// The key has this data from now on, and a cas unique of its own. Where it is a new one and there
    /// is no room, the key goes that was not used for the longest time. After the last change that can
    /// be counted there is none.
    pub(crate) fn change(
        &mut self,
        key: &[u8],
        flags: u32,
        stored: Vec<u8>,
        told: Reply,
    ) -> Result<Reply, AllocError>
        ensures left { OnOk result (
            self.new ≡ (change self.old key.now flags stored.items (reply_of told)).0) }
        ensures told { IfOk result (λ reply.
            reply_of reply ≡ (change self.old key.now flags stored.items (reply_of told)).1) }
        ensures unchanged { OnErr result (self.new ≡ self.old) }
    {
        if self.changes == u64::MAX {
            return Ok(Reply::OutOfMemory);
        }
        let cas_unique = self.changes + 1;
        let entry = Entry {
            flags,
            stored,
            cas_unique,
        };
        self.entries.put(Vec::from_slice(self.alloc, key)?, entry)?;
        self.uses = self.uses.with(&UsedKey(key));
        self.changes = cas_unique;
        Ok(told)
    }

    /// Stores where nothing was stored since the cas unique was told.
    pub(crate) fn cas(
        &mut self,
        key: &[u8],
        flags: u32,
        stored: &[u8],
        cas_unique: u64,
    ) -> Result<Reply, AllocError>
        ensures left { OnOk result (
            self.new ≡ (apply self.old (requests.cas key.now flags stored.now cas_unique)).0) }
        ensures told { IfOk result (λ reply.
            reply_of reply ≡ (apply self.old (requests.cas key.now flags stored.now cas_unique)).1) }
        ensures unchanged { OnErr result (self.new ≡ self.old) }
    {
        let Some(entry) = self.get(key) else {
            return Ok(Reply::NotFound);
        };
        if entry.cas_unique != cas_unique {
            return Ok(Reply::Exists);
        }
        self.put(key, flags, stored)
    }

    /// Takes a key out.
    pub(crate) fn delete(&mut self, key: &[u8]) -> Reply
        ensures left { self.new ≡ (apply self.old (requests.delete key.now)).0 }
        ensures told { reply_of result ≡ (apply self.old (requests.delete key.now)).1 }
    {
        if !self.has(key) {
            return Reply::NotFound;
        }
        self.remove(key);
        Reply::Deleted
    }
}
