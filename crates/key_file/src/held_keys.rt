ghost use Rattle.std.specs.Prelude.{◌≡◌, ◌≤◌, ◌++◌, List, IfOk, OnOk, OnErr, IsTrue, if◌then◌else◌};
ghost use Rattle.ids.specs.Sizes.{client_party};
ghost use Rattle.definitions.specs.Keyrings.{is_party_of, is_replica_of};
ghost use Rattle.key_file.specs.KeyFile.{HasKeys, keys_with, keys_of_party};
ghost use Rattle.key_file.specs.Holders.{IsFileFor, acts_for, keyring_refusal};
ghost use Rattle.key_file.specs.declared.key_file.KeyFileFault.TheVariants as refusal;
ghost use Rattle.key_file.specs.declared.pair_key.PairKey.{PairKey};

use crate::holder::Holder;
use crate::key_file::{KeyFileFault, find_key};
use crate::pair_key::PairKey;
use crate::rows::read_row;
use authenticators::{Keyring, ReplicaKeyring, SharedKey};
use ids::{ClientId, Config, Fault, PartyId, ReplicaId};
use std::alloc::{AllocError, Global};
use std::marker::Model;

/// The keys of one holder, and no others.
#[derive(Drop)]
pub struct HeldKeys {
    holder: Holder,
    config: Config,
    keys: Vec<PairKey>,
}

impl Model for HeldKeys {
    ghost use Rattle.key_file.specs.KeyFile.{AreOf};
    ghost use Rattle.key_file.specs.Holders.{Held, pairs_held};

    ghost Value = { Held };

    ghost view = { λ k. record { holder = k.holder; all = record { sizes = k.config; keys = k.keys.items } } };

    ghost invariant = { λ k. AreOf (pairs_held k.holder k.config) k.keys.items };
}

/// Whether the deployment has such a replica.
fn is_replica(config: Config, party: PartyId) -> bool
    ensures { result ≡ is_replica_of config party }
{
    party.0 < u16::from(config.n())
}

/// Whether the deployment has such a party.
fn is_party(config: Config, party: PartyId) -> bool
    ensures { result ≡ is_party_of config party }
{
    let (first, clients) = (PartyId::from(ClientId(0)).0, u16::from(config.clients()));
    is_replica(config, party) || first <= party.0 && party.0 < first + clients
}

impl HeldKeys {
    /// Reads the key file of a holder at these sizes. All of the text is read; a line of another pair is refused.
    pub fn read(
        alloc: Global,
        holder: Holder,
        config: Config,
        text: &[u8],
    ) -> Result<HeldKeys, KeyFileFault>
        ensures holder { IfOk result (λ held. held.holder ≡ holder) }
        ensures sizes { IfOk result (λ held. held.all.sizes ≡ config) }
        ensures read { IfOk result (λ held. IsFileFor holder config held.all.keys text.now) }
        ensures bad { result ≡ Err KeyFileFault.NotOne → (keys : List PairKey)
            → IsFileFor holder config keys text.now → ⊥ }
    {
        let mut rest = text;
        let mut keys = Vec::new(alloc);
        for one in 0..config.n() {
            match read_row(rest, &holder, config, ReplicaId(one), &mut keys) {
                Ok(behind) => rest = behind,
                Err(fault) => return Err(fault),
            }
        }
        if !rest.is_empty() {
            return Err(KeyFileFault::NotOne);
        }
        Ok(HeldKeys {
            holder,
            config,
            keys,
        })
    }

    /// The sizes of the deployment.
    pub fn config(&self) -> Config
        ensures { result ≡ self.now.all.sizes }
    {
        self.config
    }

    /// The keys, in the order of their lines.
    pub fn pairs(&self) -> &[PairKey]
        ensures { result.now ≡ self.now.all.keys }
    {
        &self.keys
    }

    /// Appends a party's keys with so many parties from one on.
    fn push_keys(
        &self,
        out: &mut Vec<SharedKey>,
        party: PartyId,
        first: PartyId,
        count: u8,
    ) -> Result<(), AllocError>
        requires first { first ≤ client_party 0 }
        requires there { HasKeys self.now.all.keys party first count }
        ensures { OnOk result
            (out.new.items ≡ out.old.items ++ keys_with self.now.all.keys party first count) }
    {
        for i in 0..u16::from(count) {
            let peer = PartyId(first.0 + i);
            let key = find_key(&self.keys, party, peer).unwrap();
            out.push(SharedKey::new(key))?;
        }
        Ok(())
    }

    /// The keyring of a party: its keys with each replica, then, where it is a replica, with each client.
    ///
    /// `NoSuchParty` comes exactly where the deployment has no such party, `NotMine` where it is another holder's, and
    /// else `Memory` alone.
    pub fn keyring(&self, alloc: Global, party: PartyId) -> Result<Keyring, Fault>
        ensures made { IfOk result (λ keyring. keyring ≡ keys_of_party self.now.all party) }
        ensures there { OnOk result (IsTrue (is_party_of self.now.all.sizes party)) }
        ensures own { OnOk result (IsTrue (acts_for self.now.holder party)) }
        ensures refused { OnErr result (result ≡ Err (keyring_refusal self.now party)) }
    {
        let config = self.config;
        if !is_party(config, party) {
            return Err(Fault::NoSuchParty);
        }
        if !self.holder.acts_for(party) {
            return Err(Fault::NotMine);
        }
        let mut keys = Vec::new(alloc);
        self.push_keys(&mut keys, party, ReplicaId(0).into(), config.n())?;
        if is_replica(config, party) {
            self.push_keys(&mut keys, party, ClientId(0).into(), config.clients())?;
        }
        Ok(Keyring::new(config, party, keys))
    }

    /// The keyring of a replica. `NoSuchParty` comes exactly where the deployment has no such replica, `NotMine` where
    /// it is another holder's, and else `Memory` alone.
    pub fn replica_keyring(
        &self,
        alloc: Global,
        replica: ReplicaId,
    ) -> Result<ReplicaKeyring, Fault>
        ensures made { IfOk result (λ keyring. keyring ≡ keys_of_party self.now.all replica) }
        ensures own { OnOk result (IsTrue (acts_for self.now.holder replica)) }
        ensures refused { OnErr result (result ≡ Err (if is_replica_of self.now.all.sizes replica
            then keyring_refusal self.now replica else Fault.NoSuchParty)) }
    {
        let keyring = self.keyring(alloc, replica.into())?;
        ReplicaKeyring::new(keyring).ok_or(Fault::NoSuchParty)
    }
}
