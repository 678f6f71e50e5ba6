ghost use Rattle.std.specs.Prelude.{◌≡◌, option_map, fold};
ghost use Rattle.std.specs.FinMap as map;
ghost use Rattle.definitions.specs.Cache.{find, has, last_use, used};
ghost use Rattle.mc_lines.specs.Meaning.{keys_of};
ghost use Rattle.cache.specs.Tables.{item_of};

use crate::cache::Cache;
use crate::entry::Entry;
use crate::uses::UsedKey;
use mc_lines::Keys;

impl Cache {
    /// What stands under a key. To look isn't a use.
    pub(crate) fn get(&self, key: &[u8]) -> Option<&Entry>
        ensures { option_map (λ e. item_of (last_use self.now key.now) e.now) result ≡ find self.now key.now }
    {
        self.entries.peek(key)
    }

    /// Whether something stands under a key.
    pub(crate) fn has(&self, key: &[u8]) -> bool
        ensures { result ≡ has self.now key.now }
    {
        self.get(key).is_some()
    }

    /// A use of a key, where it is there.
    pub(crate) fn touch(&mut self, key: &[u8])
        ensures { self.new ≡ used self.old key.now }
    {
        if self.entries.promote(key) {
            self.uses = self.uses.with(&UsedKey(key));
        }
    }

    /// A use of each of these keys that is there, in their order.
    pub fn count_uses(&mut self, keys: Keys<'_>)
        ensures { self.new ≡ fold used self.old (keys_of keys.entry) }
    {
        for key in keys.iter() {
            self.touch(key);
        }
    }

    /// Takes a key out.
    pub(crate) fn remove(&mut self, key: &[u8])
        ensures { self.new ≡ record self.old { entries = map.remove self.old.entries key.now } }
    {
        let _entry = self.entries.pop(key);
    }
}
