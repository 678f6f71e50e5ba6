//! Requests.

ghost use Rattle.std.specs.Prelude.{◌≡◌, IfOk, OnErr};
ghost use Rattle.frames_view.specs.Views.{command_of};
ghost use Rattle.replica.specs.Requests.{again_sent, is_full, IsWaiting, old_change, IsRequested};

use crate::change::{Change, Growth};
use crate::execution::tell_one;
use crate::state::State;
use crate::stored::StoredStep;
use authenticators::ReplicaKeyring;
use executor::Executor;
use frames_view::CommandView;
use ids::Fault;
use mempool::Pending;
use signed_frames::Out;

/// A request that comes after all that was executed for its client: it waits, unless it does so already.
fn wait(state: &State, request: &CommandView) -> Result<Change, Fault>
    ensures { IsWaiting state.now (command_of request.now) result
        (is_full (command_of request.now) state.now.pending) }
{
    let growth = match state.pool.plan(request)? {
        Some(request) => Growth::Request(request),
        None => Growth::Nothing,
    };
    let step = StoredStep::GotRequest(Pending::new(state.alloc, request)?);
    Ok(Change {
        growth,
        ..Change::noting(state, step, Out::none(state.alloc))
    })
}

/// The reply that its client's last executed command had, where it is that one.
fn again(
    state: &State,
    keyring: &ReplicaKeyring,
    executor: &Executor,
    request: &CommandView,
) -> Result<Out, Fault>
    requires room { executor.now.most_keys ≡ keyring.now.sizes.most_keys }
    ensures made { IfOk result (λ out. out ≡ again_sent keyring.now executor.now.history (command_of request.now)) }
    ensures memory { OnErr result (result ≡ Err Fault.Memory) }
{
    let mut out = Out::none(state.alloc);
    let (client, seq) = (request.client(), request.seq());
    if seq == executor.last_seq(client) {
        if let Some(answer) = executor.reply_of(client, seq) {
            tell_one(state.alloc, keyring, answer, &mut out)?;
        }
    }
    Ok(out)
}

/// What a request comes to that comes no later than what was executed for its client: the last
/// reply again, or nothing.
fn repeat(
    state: &State,
    keyring: &ReplicaKeyring,
    executor: &Executor,
    request: &CommandView,
) -> Result<Change, Fault>
    requires room { executor.now.most_keys ≡ keyring.now.sizes.most_keys }
    ensures made { IfOk result
        (λ d. d ≡ old_change keyring.now state.now executor.now.history (command_of request.now)) }
    ensures memory { OnErr result (result ≡ Err Fault.Memory) }
{
    let out = again(state, keyring, executor, request)?;
    let step = StoredStep::GotRequest(Pending::new(state.alloc, request)?);
    Ok(Change::noting(state, step, out))
}

/// What a request comes to: it waits until it is executed. `PoolFull` comes where 4,096 others wait.
pub(crate) fn decide_request(
    state: &State,
    keyring: &ReplicaKeyring,
    executor: &Executor,
    request: &CommandView,
) -> Result<Change, Fault>
    requires room { executor.now.most_keys ≡ keyring.now.sizes.most_keys }
    ensures { IsRequested keyring.now state.now executor.now.history (command_of request.now) result }
{
    if executor.last_seq(request.client()).0 < request.seq().0 {
        wait(state, request)
    } else {
        repeat(state, keyring, executor, request)
    }
}
