ghost use Rattle.std.specs.Prelude.{◌≡◌, ℕ, IfOk, Err, option_map, slice_get};
ghost use Rattle.deployment.specs.declared.refusal.Refusal.TheVariants as refusal;
ghost use Rattle.deployment.specs.Deployments.{IsNoFile, text_of};

use crate::fronts::read_fronts;
use crate::refusal::Refusal;
use crate::replicas::read_replicas;
use crate::sizes::read_sizes;
use ids::{Config, ReplicaId};
use std::alloc::Global;
use std::marker::Model;

/// What all processes of a deployment know of it.
#[derive(Drop)]
pub struct Deployment<'a> {
    config: Config,
    addresses: Vec<&'a [u8]>,
    fronts: Vec<u8>,
}

impl<'a> Model for Deployment<'a> {
    ghost use Rattle.std.specs.Prelude.{map};
    ghost use Rattle.deployment.specs.Deployments as deployments;

    ghost Value = { deployments.Deployment };

    ghost view = { λ d. record {
      sizes = d.config;
      addresses = map (λ a. a.now) d.addresses.items;
      fronts = d.fronts.items;
    } };

    ghost invariant = { λ d. deployments.IsDeployment (record {
      sizes = d.config;
      addresses = map (λ a. a.now) d.addresses.items;
      fronts = d.fronts.items;
    }) };
}

impl<'a> Deployment<'a> {
    /// Reads a deployment file, all of it. A refusal names the first line that isn't what has to stand there.
    pub fn read(alloc: Global, text: &'a [u8]) -> Result<Deployment<'a>, Refusal>
        ensures read { IfOk result (λ d. text.now ≡ text_of d) }
        ensures bad { (line : ℕ) → result ≡ Err (refusal.BadLine line) → IsNoFile text.now }
    {
        let sizes = match read_sizes(text) {
            Ok(sizes) => sizes,
            Err(refusal) => return Err(refusal),
        };
        let config = sizes.0;
        config.holds();
        let mut addresses = Vec::new(alloc);
        let rest = read_replicas(sizes.1, config, &mut addresses)?;
        let fronts = read_fronts(alloc, rest, config, 4 + config.n())?;
        Ok(Deployment {
            config,
            addresses,
            fronts,
        })
    }

    /// The sizes.
    pub fn config(&self) -> Config
        ensures { result ≡ self.now.sizes }
    {
        self.config
    }

    /// Where a replica is reached: the text of the file, which nobody has resolved. None where there is no such replica.
    pub fn address(&self, replica: ReplicaId) -> Option<&'a [u8]>
        ensures { option_map (λ a. a.now) result ≡ slice_get self.now.addresses replica }
    {
        self.addresses.get(usize::from(replica.0)).copied()
    }

    /// How many clients each front has. They take the clients in order.
    pub fn fronts(&self) -> &[u8]
        ensures { result.now ≡ self.now.fronts }
    {
        &self.fronts
    }
}
