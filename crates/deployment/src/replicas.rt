//! The lines of the replicas.

ghost use Rattle.std.specs.Prelude.{◌≡◌, ◌≢◌, ℕ, List, [], IfOk, Err, map};
ghost use Rattle.ids.specs.Sizes.{replicas};
ghost use Rattle.definitions.specs.Bytes.{Bytes};
ghost use Rattle.deployment.specs.declared.refusal.Refusal.TheVariants as refusal;
ghost use Rattle.deployment.specs.Deployments.{AreAddresses, replicas_text};

use crate::fields::address_of;
use crate::refusal::Refusal;
use ids::Config;

/// Appends the addresses of all replicas, from the front of a text, which is the file's fourth line. What stands behind
/// them.
pub(crate) fn read_replicas<'a>(
    text: &'a [u8],
    config: Config,
    addresses: &mut Vec<&'a [u8]>,
) -> Result<&'a [u8], Refusal>
    requires { addresses.old.items ≡ [] }
    ensures count { IfOk result (λ rest. AreAddresses (replicas config) (map (λ a. a.now) addresses.new.items)) }
    ensures text { IfOk result
        (λ rest. text.now ≡ replicas_text 0 (map (λ a. a.now) addresses.new.items) rest.now) }
    ensures bad { (line : ℕ) → result ≡ Err (refusal.BadLine line) → (found : List Bytes) (rest : Bytes)
        → AreAddresses (replicas config) found → text.now ≢ replicas_text 0 found rest }
{
    let mut rest = text;
    for replica in 0..config.n() {
        let Some(line) = address_of(rest, b"replica ", replica) else {
            return Err(Refusal::BadLine(4 + u32::from(replica)));
        };
        addresses.push(line.0)?;
        rest = line.1;
    }
    Ok(rest)
}
