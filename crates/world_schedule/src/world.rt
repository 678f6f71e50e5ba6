//! A world: its sizes, its faulty parties, and the keys of all.

ghost use Rattle.std.specs.Prelude.{◌≡◌, ◌==◌, map, IsTrue, IsOk, IfOk, IfErr, OnErr, MatchResult};
ghost use Rattle.std.specs.Prelude.{None, Some};
ghost use Rattle.std.specs.List.{list_all, list_any};
ghost use Rattle.ids.specs.Sizes.{IsRoom, replicas};
ghost use Rattle.definitions.specs.Lists.{count_below};
ghost use Rattle.definitions.specs.Keyrings.{is_party_of, keyring_of};
ghost use Rattle.world_schedule.specs.Seats.{HasKeysOf};
ghost use Rattle.world_schedule.specs.Settings.{AreKeyrings, Holds, IsKeyringOf, is_faulty_in, is_named};
ghost use Rattle.world_schedule.specs.Settings.{HasNoWorld, why_not, with_room};

use authenticators::Keyring;
use ids::{Config, Fault, PartyId};
use std::alloc::Global;
use std::hash::RandomState;
use std::marker::Model;

/// A world of replicas and clients, some of which may be faulty: whatever a schedule has them send
/// is brought in by the schedule itself.
#[derive(Drop)]
pub struct World {
    alloc: Global,
    config: Config,
    faulty: Vec<PartyId>,
    keyrings: Vec<Keyring>,
    hasher: RandomState,
}

impl Model for World {
    ghost use Rattle.world_schedule.specs.Settings.{Setting, IsSetting};

    ghost Value = { Setting };

    ghost view = { λ w. record { sizes = w.config; faulty = w.faulty.items; keyrings = w.keyrings.items } };

    ghost invariant = { λ w. IsSetting
        (record { sizes = w.config; faulty = w.faulty.items; keyrings = w.keyrings.items }) };
}

/// Whether there is such a party.
pub(crate) fn has_party(config: &Config, party: PartyId) -> bool
    ensures { result ≡ is_party_of config.now party }
{
    let replicas = u16::from(config.n());
    let clients = u16::from(config.clients());
    match party.client() {
        None => party.0 < replicas,
        Some(client) => client < clients,
    }
}

/// Whether the party is one of these.
fn is_named(parties: &[PartyId], party: PartyId) -> bool
    ensures { result ≡ is_named parties.now party }
{
    parties.iter().any(|named| *named == party)
}

/// How many replicas are among these, one that is named twice counted once.
#[tactic(auto, unfolding(definitions::specs::Lists::count_below))]
fn count_replicas(config: &Config, parties: &[PartyId]) -> u8
    ensures { result ≡ count_below (replicas config.now) (is_named parties.now) }
{
    let mut count = 0;
    for replica in 0..config.n() {
        if is_named(parties, PartyId(u16::from(replica))) {
            count += 1;
        }
    }
    count
}

/// Whether all of these are parties.
fn are_parties(config: &Config, parties: &[PartyId]) -> bool
    ensures { result ≡ list_all (λ party. is_party_of config.now party) parties.now }
{
    parties.iter().all(|party| has_party(config, *party))
}

/// Why there is no world with these faulty parties.
fn why_not(config: &Config, faulty: &[PartyId]) -> Result<(), Fault>
    ensures { MatchResult result (λ _. why_not config.now faulty.now ≡ None)
        (λ n. why_not config.now faulty.now ≡ Some n) }
{
    if !are_parties(config, faulty) {
        return Err(Fault::NoSuchParty);
    }
    if count_replicas(config, faulty) > config.faults() {
        return Err(Fault::TooManyFaulty);
    }
    Ok(())
}

/// The same keyrings, where caches have room for so many keys.
fn with_room(alloc: Global, keyrings: Vec<Keyring>, most_keys: usize) -> Result<Vec<Keyring>, Fault>
    requires { IsRoom most_keys }
    ensures made { IfOk result (λ all. all.items ≡ map (with_room most_keys) keyrings.items) }
    ensures memory { OnErr result (result ≡ Err Fault.Memory) }
{
    let mut all = Vec::new(alloc);
    for keyring in keyrings {
        all.push(keyring.with_most_keys(most_keys)?)?;
    }
    Ok(all)
}

impl World {
    /// A world of these sizes. The keyrings are those of the replicas in order, and then of the clients.
    ///
    /// `NoSuchParty` comes where a faulty party isn't one, and then `TooManyFaulty` where more
    /// replicas are named than are tolerated; one that is named twice counts once.
    pub fn new(
        alloc: Global,
        config: Config,
        faulty: Vec<PartyId>,
        keyrings: Vec<Keyring>,
        hasher: RandomState,
    ) -> Result<World, Fault>
        requires { AreKeyrings config keyrings.items }
        ensures made { IfOk result
            (λ w. w ≡ record { sizes = config; faulty = faulty.items; keyrings = keyrings.items }) }
        ensures refused { MatchResult result (λ _. why_not config faulty.items ≡ None)
            (λ n. why_not config faulty.items ≡ Some n) }
    {
        why_not(&config, faulty.as_slice())?;
        Ok(World {
            alloc,
            config,
            faulty,
            keyrings,
            hasher,
        })
    }

    /// The same, where the replicas' caches have room for so many keys: 1 to `MOST_KEYS`, else `BadKeys`.
    pub fn with_keys(
        alloc: Global,
        config: Config,
        faulty: Vec<PartyId>,
        keyrings: Vec<Keyring>,
        most_keys: usize,
        hasher: RandomState,
    ) -> Result<World, Fault>
        requires { AreKeyrings config keyrings.items }
        ensures made { IfOk result (λ w. w ≡ record {
          sizes = record config { most_keys = most_keys };
          faulty = faulty.items;
          keyrings = map (with_room most_keys) keyrings.items;
        }) }
        ensures room { IsOk result → IsRoom most_keys }
        ensures refused { IfErr result (HasNoWorld config faulty.items most_keys) }
    {
        let config = config.with_most_keys(most_keys)?;
        let keyrings = with_room(alloc, keyrings, most_keys)?;
        World::new(alloc, config, faulty, keyrings, hasher)
    }

    /// Where its memory comes from.
    pub(crate) fn alloc(&self) -> Global {
        self.alloc
    }

    /// The secret by which caches hash keys.
    pub fn hasher(&self) -> RandomState {
        self.hasher
    }

    /// The sizes of the world.
    pub fn config(&self) -> Config
        ensures { result ≡ self.now.sizes }
    {
        self.config
    }

    /// Whether a party is faulty.
    pub fn is_faulty(&self, party: PartyId) -> bool
        ensures { result ≡ is_faulty_in self.now party }
    {
        is_named(self.faulty.as_slice(), party)
    }

    /// The keys of a party.
    pub(crate) fn keyring(&self, party: PartyId) -> &Keyring
        requires { IsTrue (is_party_of self.now.sizes party) }
        ensures { HasKeysOf self.now party result.now }
    {
        let place = match party.client() {
            None => usize::from(party.0),
            Some(client) => usize::from(self.config.n()) + usize::from(client),
        };
        &self.keyrings[place]
    }

    /// What holds of each world: at most as many replicas are faulty as are tolerated, and each
    /// party has its own keys.
    pub fn holds(&self)
        ensures { Holds self.now }
    {
        // For the proof: a body reads a value whose limits it claims.
        self.config.holds();
    }
}
