//! The keys of a simulated world, which anyone can compute: the key of two parties is SHA-256 (FIPS
//! 180-4) of the word `hsim` and of their numbers, two bytes each, the lower one first.
#![tactic(auto)]

ghost use Rattle.std.specs.Prelude.{◌≡◌, ◌+◌, ◌≤◌, ◌^◌, ◌++◌, IfOk, OnOk, OnErr, if◌then◌else◌};
ghost use Rattle.ids.specs.Sizes.{client_party};
ghost use Rattle.definitions.specs.Keyrings.{is_replica_of};
ghost use Rattle.simulated_keys.specs.Keys.{simulated_key, keys_with, simulated_keys};

use authenticators::{Keyring, ReplicaKeyring, SharedKey};
use ids::{ClientId, Config, Fault, PartyId, ReplicaId};
use sha2::{Digest, Sha256};
use std::alloc::Global;

/// The keyring of a party of a world of these sizes, correct or not.
#[tactic(auto, using(crate::proofs::KeyCounts::length_keys))]
pub fn keyring_of(alloc: Global, config: Config, party: PartyId) -> Result<Keyring, Fault>
    ensures made { IfOk result (λ keyring. keyring ≡ simulated_keys config party) }
    ensures memory { OnErr result (result ≡ Err Fault.Memory) }
{
    let mut keys = Vec::new(alloc);
    push_keys(&mut keys, party, ReplicaId(0).into(), config.n())?;
    if party.0 < u16::from(config.n()) {
        push_keys(&mut keys, party, ClientId(0).into(), config.clients())?;
    }
    Ok(Keyring::new(config, party, keys))
}

/// The keyring of a replica of such a world, correct or not. `NoSuchParty` comes exactly where it has no such
/// replica, and else `Memory` alone.
pub fn replica_keyring_of(
    alloc: Global,
    config: Config,
    replica: ReplicaId,
) -> Result<ReplicaKeyring, Fault>
    ensures made { IfOk result (λ keyring. keyring ≡ simulated_keys config replica) }
    ensures refused { OnErr result
        (result ≡ Err (if is_replica_of config replica then Fault.Memory else Fault.NoSuchParty)) }
{
    if replica.0 >= config.n() {
        return Err(Fault::NoSuchParty);
    }
    let keyring = keyring_of(alloc, config, replica.into())?;
    ReplicaKeyring::new(keyring).ok_or(Fault::NoSuchParty)
}

/// Appends a party's keys with so many parties from one on.
fn push_keys(
    keys: &mut Vec<SharedKey>,
    party: PartyId,
    first: PartyId,
    count: u8,
) -> Result<(), Fault>
    requires { first ≤ client_party 0 }
    ensures made { OnOk result (keys.new.items ≡ keys.old.items ++ keys_with party first count) }
    ensures memory { OnErr result (result ≡ Err Fault.Memory) }
{
    for i in 0..u16::from(count) {
        keys.push(key_of(party, PartyId(first.0 + i)))?;
    }
    Ok(())
}

/// The key of two parties.
#[tactic(auto, unfolding(crate::specs::Keys::simulated_key))]
fn key_of(one: PartyId, other: PartyId) -> SharedKey
    ensures { result ≡ simulated_key one other }
{
    let [l0, l1] = one.0.min(other.0).to_be_bytes();
    let [h0, h1] = one.0.max(other.0).to_be_bytes();
    SharedKey::new(Sha256::digest(&[b'h', b's', b'i', b'm', l0, l1, h0, h1]))
}
