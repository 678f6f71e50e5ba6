//! The first three lines: the sizes.

ghost use Rattle.std.specs.Prelude.{◌≡◌, ◌≢◌, IfOk, IfSome, IfNone, OnErr};
ghost use Rattle.ids.specs.Sizes.{Sizes, AreSizes};
ghost use Rattle.definitions.specs.Bytes.{Bytes};
ghost use Rattle.deployment.specs.Deployments.{sizes_text};

use crate::fields::number_at;
use crate::refusal::Refusal;
use ids::Config;

/// These sizes, where they are within their limits.
fn sized(faults: u64, clients: u64, kept: u64) -> Option<Config>
    ensures made { IfSome result
        (λ config. config ≡ record { faults = faults; clients = clients; most_keys = kept }) }
    ensures refused { IfNone result
        (AreSizes (record { faults = faults; clients = clients; most_keys = kept }) → ⊥) }
{
    let (Ok(faults), Ok(clients)) = (u8::try_from(faults), u8::try_from(clients)) else {
        return None;
    };
    Config::new(faults, clients)
        .ok()?
        .with_most_keys(kept as usize)
        .ok()
}

/// The sizes at the front of a text, in three lines, and what stands behind them.
pub fn read_sizes(text: &[u8]) -> Result<(Config, &[u8]), Refusal>
    ensures read { IfOk result (λ read. text.now ≡ sizes_text read.0 read.1.now) }
    ensures bad { OnErr result ((sizes : Sizes) (rest : Bytes) → AreSizes sizes → text.now ≢ sizes_text sizes rest) }
{
    let Some(faults) = number_at(text, b"faults ") else {
        return Err(Refusal::BadLine(1));
    };
    let Some(some) = sized(faults.0, 1, 1) else {
        return Err(Refusal::BadLine(1));
    };
    let Some(clients) = number_at(faults.1, b"clients ") else {
        return Err(Refusal::BadLine(2));
    };
    let Some(more) = sized(faults.0, clients.0, 1) else {
        return Err(Refusal::BadLine(2));
    };
    let Some(kept) = number_at(clients.1, b"keys-held ") else {
        return Err(Refusal::BadLine(3));
    };
    let Some(config) = sized(faults.0, clients.0, kept.0) else {
        return Err(Refusal::BadLine(3));
    };
    Ok((config, kept.1))
}
