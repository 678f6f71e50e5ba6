ghost use Rattle.std.specs.Prelude.{◌≡◌, IsOk, IfOk, IfErr, OnOk, OnErr, Ok, Err};
ghost use Rattle.ids.specs.Sizes.{IsRoom, HasNoRoom};
ghost use Rattle.definitions.specs.Cache.{empty_cache, apply};
ghost use Rattle.mc_lines.specs.Meaning.{asked_of, reply_of};

use crate::count::Step;
use crate::entry::Entry;
use crate::room::room_for;
use crate::uses::AKey;
use ghost_list::GhostList;
use ids::Fault;
use lru::LruCache;
use mc_lines::{Reply, Request};
use std::alloc::Global;
use std::hash::RandomState;
use std::marker::Model;

/// What stands under each key, with room for so many keys (protocol.txt). An item stays until a
/// command takes it out, puts another one in its place, or needs the room: then the key goes that
/// was not used for the longest time. None expires.
#[derive(Drop)]
pub struct Cache {
    pub(crate) alloc: Global,
    /// The key that was used last comes first.
    pub(crate) entries: LruCache<Vec<u8>, Entry, RandomState>,
    /// How often data was given.
    pub(crate) changes: u64,
    /// The keys that were used, newest first.
    pub(crate) uses: GhostList<AKey>,
}

impl Model for Cache {
    ghost use Rattle.definitions.specs.Cache as definitions;
    ghost use Rattle.cache.specs.Tables.{cache_of, IsKept, cache_code};

    ghost Value = { definitions.Cache };

    ghost coded = { cache_code };

    ghost view = { λ c. cache_of c.uses.items c.entries.entries c.changes c.entries.cap };

    ghost invariant = { λ c. IsKept c.uses.items c.entries.entries c.entries.cap };
}

impl Cache {
    /// The empty cache, with room for so many keys: 1 to `MOST_KEYS`, else `BadKeys`.
    ///
    /// No choice of keys by someone who doesn't know the hasher's secret makes it slow.
    pub fn new(alloc: Global, most_keys: usize, hasher: RandomState) -> Result<Cache, Fault>
        ensures made { IfOk result (λ c. c ≡ empty_cache most_keys) }
        ensures room { IsOk result → IsRoom most_keys }
        ensures refused { IfErr result (HasNoRoom most_keys) }
    {
        let room = room_for(most_keys)?;
        let mut entries = LruCache::unbounded_with_hasher(alloc, hasher)?;
        entries.resize(room);
        Ok(Cache {
            alloc,
            entries,
            changes: 0,
            uses: GhostList::new(),
        })
    }

    /// Does what is asked, and replies. The word noreply is the caller's to heed.
    ///
    /// A full cache makes room for another key by the one that was not used for the longest time. A
    /// change after the last one that a cas unique can number is answered by `SERVER_ERROR out of
    /// memory storing object`. A number is counted only if it is spelled with no zero before it. All
    /// memory is taken before anything changes.
    pub fn apply(&mut self, request: &Request<'_>) -> Result<Reply, Fault>
        ensures left { OnOk result (self.new ≡ (apply self.old (asked_of request.now)).0) }
        ensures told { IfOk result (λ reply. reply_of reply ≡ (apply self.old (asked_of request.now)).1) }
        ensures unchanged { OnErr result (self.new ≡ self.old) }
        ensures memory { OnErr result (result ≡ Err Fault.Memory) }
    {
        match *request {
            Request::Store {
                verb,
                key,
                flags,
                stored,
            } => Ok(self.store(verb, key, flags, stored)?),
            Request::Cas {
                key,
                flags,
                stored,
                cas_unique,
            } => Ok(self.cas(key, flags, stored, cas_unique)?),
            Request::Get(keys) => self.retrieve(keys, false),
            Request::Gets(keys) => self.retrieve(keys, true),
            Request::Delete { key } => Ok(self.delete(key)),
            Request::Incr { key, value } => Ok(self.count(key, Step::Up(value))?),
            Request::Decr { key, value } => Ok(self.count(key, Step::Down(value))?),
        }
    }
}
