//! The lines of the fronts, which end the file.

ghost use Rattle.std.specs.Prelude.{◌≡◌, ◌≢◌, ℕ, List, [], IfOk, Err};
ghost use Rattle.deployment.specs.declared.refusal.Refusal.TheVariants as refusal;
ghost use Rattle.deployment.specs.Deployments.{AreFronts, fronts_text};

use crate::fields::number_of;
use crate::refusal::Refusal;
use ids::Config;
use std::alloc::Global;

/// How many clients each front has, of a text that is their lines, of which the first has this number.
pub(crate) fn read_fronts(
    alloc: Global,
    text: &[u8],
    config: Config,
    first_line: u8,
) -> Result<Vec<u8>, Refusal>
    ensures fronts { IfOk result (λ fronts. AreFronts config.clients fronts.items) }
    ensures text { IfOk result (λ fronts. text.now ≡ fronts_text 0 fronts.items []) }
    ensures bad { (line : ℕ) → result ≡ Err (refusal.BadLine line) → (found : List ℕ)
        → AreFronts config.clients found → text.now ≢ fronts_text 0 found [] }
{
    let clients = config.clients();
    let mut rest = text;
    let mut fronts = Vec::new(alloc);
    let mut placed: u8 = 0;
    let mut front: u8 = 0;
    while placed < clients {
        let bad = Refusal::BadLine(u32::from(first_line) + u32::from(front));
        let Some(line) = number_of(rest, b"front ", front) else {
            return Err(bad);
        };
        if line.0 == 0 || line.0 > u64::from(clients - placed) {
            return Err(bad);
        }
        let count = line.0 as u8;
        fronts.push(count)?;
        placed += count;
        front += 1;
        rest = line.1;
    }
    if rest.is_empty() {
        Ok(fronts)
    } else {
        Err(Refusal::BadLine(u32::from(first_line) + u32::from(front)))
    }
}
