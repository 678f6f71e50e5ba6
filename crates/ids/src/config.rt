ghost use Rattle.std.specs.Prelude.{◌≡◌, ◌↔◌, ◌≤◌, IsOk, IfOk, OnErr};
ghost use Rattle.ids.specs.Sizes.{AreSizes, IsRoom, replicas, quorum, leader};

use crate::fault::Fault;
use crate::limits::{MOST_KEYS, MOST_REPLICAS};
use crate::numbers::View;
use crate::party::ReplicaId;
use std::marker::Model;

/// The sizes of a deployment: how many faulty replicas it tolerates, how many clients it has, and for how many
/// keys the cache of each replica has room.
#[derive(Clone, Copy, Debug, PartialEq, Eq)]
pub struct Config {
    faults: u8,
    clients: u8,
    most_keys: usize,
}

impl Model for Config {
    ghost use Rattle.ids.specs.Sizes.{Sizes, AreSizes};

    ghost Value = { Sizes };

    ghost view = { λ c. record { faults = c.faults; clients = c.clients; most_keys = c.most_keys } };

    ghost invariant = { λ c.
        AreSizes (record { faults = c.faults; clients = c.clients; most_keys = c.most_keys }) };

    ghost inverse = { λ s. record { faults = s.faults; clients = s.clients; most_keys = s.most_keys } };
}

impl Config {
    /// The sizes, where `faults` is 1 to 10 and `clients` 1 to 64; else `BadSize`. A cache has room for
    /// `MOST_KEYS` keys.
    pub fn new(faults: u8, clients: u8) -> Result<Config, Fault>
        ensures made { IfOk result
            (λ config. config ≡ record { faults = faults; clients = clients; most_keys = MOST_KEYS }) }
        ensures refused { OnErr result (result ≡ Err Fault.BadSize) }
        ensures only { IsOk result
            ↔ AreSizes (record { faults = faults; clients = clients; most_keys = MOST_KEYS }) }
    {
        if (1..=10).contains(&faults) && (1..=64).contains(&clients) {
            Ok(Config {
                faults,
                clients,
                most_keys: MOST_KEYS,
            })
        } else {
            Err(Fault::BadSize)
        }
    }

    /// The same sizes, where a cache has room for so many keys, which is 1 to `MOST_KEYS`; else `BadKeys`.
    pub fn with_most_keys(self, most_keys: usize) -> Result<Config, Fault>
        ensures made { IfOk result (λ config. config ≡ record self { most_keys = most_keys }) }
        ensures refused { OnErr result (result ≡ Err Fault.BadKeys) }
        ensures only { IsOk result ↔ IsRoom most_keys }
    {
        if (1..=MOST_KEYS).contains(&most_keys) {
            Ok(Config { most_keys, ..self })
        } else {
            Err(Fault::BadKeys)
        }
    }

    /// What holds of all sizes: they are within their limits.
    pub fn holds(&self)
        ensures { AreSizes self.now }
    {
        // For the proof: a body reads a value whose limits it claims.
        let _faults = self.faults;
    }

    /// The number f of faulty replicas that are tolerated.
    pub fn faults(&self) -> u8
        ensures { result ≡ self.now.faults }
    {
        self.faults
    }

    /// How many clients there are.
    pub fn clients(&self) -> u8
        ensures { result ≡ self.now.clients }
    {
        self.clients
    }

    /// For how many keys the cache of a replica has room.
    pub fn most_keys(&self) -> usize
        ensures { result ≡ self.now.most_keys }
    {
        self.most_keys
    }

    /// The number n of replicas, 3f + 1.
    pub fn n(&self) -> u8
        ensures count { result ≡ replicas self.now }
        ensures most { result ≤ MOST_REPLICAS }
    {
        3 * self.faults + 1
    }

    /// How many replicas make a quorum, n - f = 2f + 1: any two quorums share f + 1 replicas.
    pub fn quorum(&self) -> u8
        ensures { result ≡ quorum self.now }
    {
        2 * self.faults + 1
    }

    /// The replica that leads a view: they take turns.
    pub fn leader(&self, view: View) -> ReplicaId
        ensures { result ≡ leader self.now view }
    {
        ReplicaId((view.0 % u64::from(self.n())) as u8)
    }
}
