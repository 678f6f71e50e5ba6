ghost use Rattle.std.specs.Prelude.{◌≡◌, ◌==◌, ◌&&◌, find, option_map, List, IfOk, OnOk};
ghost use Rattle.std.specs.Prelude.{OnErr, IsTrue, if◌then◌else◌};
ghost use Rattle.key_file.specs.KeyFile.{IsFileOf, found_key, keys_of_party};
ghost use Rattle.definitions.specs.Keyrings.{is_party_of, is_replica_of};
ghost use Rattle.key_file.specs.declared.key_file.KeyFileFault.TheVariants as refusal;
ghost use Rattle.key_file.specs.declared.pair_key.PairKey.{PairKey};

use crate::held_keys::HeldKeys;
use crate::holder::Holder;
use crate::pair_key::PairKey;
use authenticators::{Keyring, ReplicaKeyring};
use ids::{Config, Fault, PartyId, ReplicaId};
use std::alloc::{AllocFailed, Global};
use std::error::Error;
use std::fmt;
use std::marker::Model;

/// Why no keys were read.
#[derive(Clone, Copy, Debug, PartialEq, Eq)]
pub enum KeyFileFault {
    /// The text is no key file of these sizes.
    NotOne,
    /// Memory was refused.
    Memory,
}

impl<T: Drop> From<AllocFailed<T>> for KeyFileFault {
    ghost from_gives = { λ _ fault. fault ≡ refusal.Memory };

    fn from(_error: AllocFailed<T>) -> KeyFileFault {
        KeyFileFault::Memory
    }
}

impl fmt::Display for KeyFileFault {
    fn fmt<W: fmt::Write>(&self, f: &mut fmt::Formatter<W>) -> fmt::Result {
        f.write_str(match self {
            KeyFileFault::NotOne => "bad keys",
            KeyFileFault::Memory => "out of memory",
        })
    }
}

impl Error for KeyFileFault {}

/// The first of some keys that is of these two parties, in this order.
fn find_pair(keys: &[PairKey], one: PartyId, other: PartyId) -> Option<&PairKey>
    ensures { option_map (λ k. k.now) result ≡ find (λ k. (k.one == one) && (k.other == other)) keys.now }
{
    keys.iter().find(|key| key.one == one && key.other == other)
}

/// The key among some that is of two parties, in whichever order these are named; of several the first.
pub fn find_key(keys: &[PairKey], a: PartyId, b: PartyId) -> Option<[u8; 32]>
    ensures { result ≡ found_key keys.now a b }
{
    let one = PartyId(a.0.min(b.0));
    let other = PartyId(a.0.max(b.0));
    let found = find_pair(keys, one, other)?;
    let key = found.key;
    Some(key)
}

/// The keys of all pairs of parties of a deployment: those that everyone together holds.
#[derive(Drop)]
pub struct PairKeys {
    held: HeldKeys,
}

impl Model for PairKeys {
    ghost use Rattle.std.specs.Prelude.{◌≡◌};
    ghost use Rattle.key_file.specs.KeyFile.{AllKeys};
    ghost use Rattle.key_file.specs.declared.holder.Holder.TheVariants.{Everyone};

    ghost Value = { AllKeys };

    ghost view = { λ k. k.held.all };

    ghost invariant = { λ k. k.held.holder ≡ Everyone };
}

impl PairKeys {
    /// Reads a key file of these sizes. All of the text is read.
    pub fn read(alloc: Global, config: Config, text: &[u8]) -> Result<PairKeys, KeyFileFault>
        ensures read { IfOk result (λ all. (all.sizes ≡ config) × IsFileOf config all.keys text.now) }
        ensures bad { result ≡ Err KeyFileFault.NotOne → (keys : List PairKey)
            → IsFileOf config keys text.now → ⊥ }
    {
        let held = HeldKeys::read(alloc, Holder::Everyone, config, text)?;
        Ok(PairKeys { held })
    }

    /// The sizes of the deployment.
    pub fn config(&self) -> Config
        ensures { result ≡ self.now.sizes }
    {
        self.held.config()
    }

    /// The keyring of a party: its keys with each replica, then, where it is a replica, with each client.
    ///
    /// `NoSuchParty` comes exactly where the deployment has no such party, and else `Memory` alone.
    pub fn keyring(&self, alloc: Global, party: PartyId) -> Result<Keyring, Fault>
        ensures made { IfOk result (λ keyring. keyring ≡ keys_of_party self.now party) }
        ensures there { OnOk result (IsTrue (is_party_of self.now.sizes party)) }
        ensures refused { OnErr result (result
            ≡ Err (if is_party_of self.now.sizes party then Fault.Memory else Fault.NoSuchParty)) }
    {
        self.held.keyring(alloc, party)
    }

    /// The keyring of a replica. `NoSuchParty` comes exactly where the deployment has no such replica, and else
    /// `Memory` alone.
    pub fn replica_keyring(
        &self,
        alloc: Global,
        replica: ReplicaId,
    ) -> Result<ReplicaKeyring, Fault>
        ensures made { IfOk result (λ keyring. keyring ≡ keys_of_party self.now replica) }
        ensures refused { OnErr result (result
            ≡ Err (if is_replica_of self.now.sizes replica then Fault.Memory else Fault.NoSuchParty)) }
    {
        self.held.replica_keyring(alloc, replica)
    }
}
