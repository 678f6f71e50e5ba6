ghost use Rattle.std.specs.Prelude.{◌≡◌, map, fold, IfOk, OnOk, OnErr};
ghost use Rattle.definitions.specs.Cache.{values_of, used};
ghost use Rattle.definitions.specs.Replies as replies;
ghost use Rattle.mc_lines.specs.Meaning.{value_of, keys_of, reply_of};

use crate::cache::Cache;
use ids::Fault;
use mc_lines::{Keys, Reply, Value};
use std::alloc::AllocError;

impl Cache {
    /// What the keys have that are there, each as often as it is asked.
    fn values(&self, keys: Keys<'_>) -> Result<Vec<Value>, AllocError>
        ensures { IfOk result (λ values.
            map value_of values.items ≡ values_of self.now (keys_of keys.entry)) }
    {
        let mut values = Vec::new(self.alloc);
        for key in keys.iter() {
            if let Some(entry) = self.get(key) {
                let value = Value {
                    key: Vec::from_slice(self.alloc, key)?,
                    flags: entry.flags,
                    stored: Vec::from_slice(self.alloc, &entry.stored)?,
                    cas_unique: entry.cas_unique,
                };
                values.push(value)?;
            }
        }
        Ok(values)
    }

    /// The reply to a `get` or `gets` of these keys, which counts no use yet: that is for
    /// `count_uses`, once nothing can be refused any more.
    pub fn tell(&self, keys: Keys<'_>, with_cas_unique: bool) -> Result<Reply, Fault>
        ensures told { IfOk result (λ reply. reply_of reply
            ≡ replies.values (values_of self.now (keys_of keys.entry)) with_cas_unique) }
        ensures memory { OnErr result (result ≡ Err Fault.Memory) }
    {
        Ok(Reply::Values {
            values: self.values(keys)?,
            with_cas_unique,
        })
    }

    /// A whole `get` or `gets`.
    pub(crate) fn retrieve(&mut self, keys: Keys<'_>, with_cas_unique: bool) -> Result<Reply, Fault>
        ensures left { OnOk result (self.new ≡ fold used self.old (keys_of keys.entry)) }
        ensures told { IfOk result (λ reply. reply_of reply
            ≡ replies.values (values_of self.old (keys_of keys.entry)) with_cas_unique) }
        ensures unchanged { OnErr result (self.new ≡ self.old) }
        ensures memory { OnErr result (result ≡ Err Fault.Memory) }
    {
        let reply = self.tell(keys, with_cas_unique)?;
        self.count_uses(keys);
        Ok(reply)
    }
}
