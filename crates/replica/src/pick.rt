//! The requests that a leader proposes.

ghost use Rattle.std.specs.Prelude.{◌≡◌, ◌≤◌, length, map, reverse, IfOk, OnErr};
ghost use Rattle.std.specs.List.{flat_map};
ghost use Rattle.definitions.specs.Frames.{command_bytes};
ghost use Rattle.replica.specs.Picks.{executed_below, proposed_above, picked};

use crate::branch::keys_between;
use crate::state::State;
use appending::append;
use ids::{Fault, Height};
use mempool::{Pending, RequestId};
use std::alloc::{AllocError, Global};

/// The height above which requests that wait may stand on the leaf's branch: nothing that was executed waits.
fn executed_below(state: &State) -> Height
    ensures { result ≡ executed_below state.now.variables }
{
    let executed = state.rules.executed();
    if state.tree.extends(&state.leaf.digest, &executed.digest) {
        executed.height
    } else {
        state.tree.horizon()
    }
}

/// The clients and numbers of what stands above it on the leaf's branch, in any order.
fn proposed_above(state: &State) -> Result<Vec<RequestId>, AllocError>
    ensures { IfOk result (λ keys. keys.items ≡ reverse (proposed_above state.now.variables)) }
{
    let (tree, leaf) = (&state.tree, &state.leaf.digest);
    let height = tree.height(leaf).unwrap_or(Height(0));
    let from = executed_below(state);
    keys_between(state.alloc, tree, leaf, from.0, height.0)
}

/// The bytes of requests, one behind the other.
fn bytes_of(alloc: Global, requests: &[&Pending]) -> Result<Vec<u8>, Fault>
    ensures joined { IfOk result
        (λ bytes. bytes.items ≡ flat_map command_bytes (map (λ r. r.now) requests.now)) }
    ensures memory { OnErr result (result ≡ Err Fault.Memory) }
{
    let mut bytes = Vec::new(alloc);
    for request in requests {
        append(&mut bytes, &[request.bytes()])?;
    }
    Ok(bytes)
}

/// How many requests were picked.
fn count_of(picked: &[&Pending]) -> u8
    requires { length picked.now ≤ 16 }
    ensures { result ≡ length picked.now }
{
    picked.len() as u8
}

/// The first requests that wait and don't stand on the leaf's branch: how many, and their bytes.
pub(crate) fn picked(state: &State) -> Result<(u8, Vec<u8>), Fault>
    ensures picked { IfOk result (λ p. (p.0 ≡ length (picked state.now))
        × (p.1.items ≡ flat_map command_bytes (picked state.now))) }
    ensures memory { OnErr result (result ≡ Err Fault.Memory) }
{
    let on_branch = proposed_above(state)?;
    let picked = state.pool.pick(&on_branch)?;
    let count = count_of(&picked);
    let commands = bytes_of(state.alloc, &picked)?;
    Ok((count, commands))
}
