//! Executing what was decided.

ghost use Rattle.ids.specs.declared.limits.TheConstants.{MOST_TEXT};
ghost use Rattle.std.specs.Prelude.{◌≡◌, ◌<◌, ◌≤◌, ◌++◌, length, option_map, option_to_list};
ghost use Rattle.std.specs.Prelude.{OnOk, OnErr, IfOk, IfSome, IfNone};
ghost use Rattle.replica.specs.Kept.{waiting, tree_of};
ghost use Rattle.executor.specs.State.{new_answers};
ghost use Rattle.signed_frames.specs.Outs.{sent_of};
ghost use Rattle.replica.specs.Execution.{work, stretch, after_commands, after_all, IsCutShortIn, IsCutShort};
ghost use Rattle.replica.specs.Execution.{told_one, told};

use crate::branch::block_at;
use crate::state::State;
use authenticators::ReplicaKeyring;
use block_tree::{Node, Tree};
use executor::{Answer, Executor, Ledger};
use frame_writers::ReplyText;
use ids::{Digest, Fault, Height, Kind};
use mempool::Mempool;
use signed_frames::{Out, Sending, To, reply_frame};
use std::alloc::Global;

/// Who tells clients: with these keys, in frames whose memory comes from here.
#[derive(Drop)]
struct Teller<'k> {
    alloc: Global,
    keyring: &'k ReplicaKeyring,
}

/// The blocks of a branch above one height, up to another.
#[derive(Drop)]
struct Decided<'t> {
    tree: &'t Tree,
    tip: &'t Digest,
    from: u64,
    to: u64,
}

/// The text of an answer, where it is short enough for a frame.
fn text_of(answer: &Answer) -> Option<ReplyText<'_>>
    ensures short { IfSome result (λ t. (t ≡ answer.now.text) × (length answer.now.text ≤ MOST_TEXT)) }
    ensures long { IfNone result (MOST_TEXT < length answer.now.text) }
{
    let text = ReplyText::new(answer.text())?;
    // For the proof: the text is short enough to be sent.
    let _few = text.as_slice();
    Some(text)
}

/// The reply to an executed command. Each such command came in a frame of these sizes, so it has a
/// client to go to, and its text is short enough.
fn reply(alloc: Global, keyring: &ReplicaKeyring, answer: &Answer) -> Result<Option<Sending>, Fault>
    ensures made { IfOk result (λ r. option_map sent_of r ≡ told_one keyring.now answer.now) }
    ensures memory { OnErr result (result ≡ Err Fault.Memory) }
{
    let client = answer.client();
    if client.0 >= keyring.config().clients() {
        return Ok(None);
    }
    let Some(text) = text_of(answer) else {
        return Ok(None);
    };
    let frame = reply_frame(alloc, keyring, client, answer.seq(), answer.place(), &text)?;
    Ok(Some(Sending {
        to: To::Client(client),
        kind: Kind::Reply,
        frame,
    }))
}

/// The reply to an executed command goes out too.
pub(crate) fn tell_one(
    alloc: Global,
    keyring: &ReplicaKeyring,
    answer: &Answer,
    out: &mut Out,
) -> Result<(), Fault>
    ensures told { OnOk result (out.new ≡ out.old ++ option_to_list (told_one keyring.now answer.now)) }
    ensures memory { OnErr result (result ≡ Err Fault.Memory) }
{
    if let Some(sending) = reply(alloc, keyring, answer)? {
        out.push(sending)?;
    }
    Ok(())
}

/// The replies to executed commands go out too.
fn tell(teller: &Teller<'_>, answers: &[Answer], out: &mut Out) -> Result<(), Fault>
    ensures told { OnOk result (out.new ≡ out.old ++ told teller.now.keyring.now answers.now) }
    ensures some { OnErr result (1 ≤ length answers.now) }
{
    for answer in answers {
        tell_one(teller.alloc, teller.keyring, answer, out)?;
    }
    Ok(())
}

/// Executes the commands of a block, which wait no more then, writes them down, and sends the replies.
/// Where memory is refused, some of them were executed.
fn execute_block<L: Ledger>(
    executor: &mut Executor,
    ledger: &mut L,
    pool: &mut Mempool,
    block: &Node,
    teller: &Teller<'_>,
    out: &mut Out,
) -> Result<(), Fault>
    requires room { executor.old.most_keys ≡ teller.now.keyring.now.sizes.most_keys }
    ensures room { executor.new.most_keys ≡ executor.old.most_keys }
    ensures executed { OnOk result (work executor.new.history pool.new
        ≡ after_commands block.now.core.commands (work executor.old.history pool.old)) }
    ensures written { L.holds ledger.old executor.old.history → L.holds ledger.new executor.new.history }
    ensures told { OnOk result
        (out.new ≡ out.old ++ told teller.now.keyring.now
        (new_answers teller.now.keyring.now.sizes.most_keys executor.old.history executor.new.history)) }
    ensures cut { OnErr result (IsCutShortIn block.now.core.commands (work executor.old.history pool.old)
        (work executor.new.history pool.new)) }
{
    let answers = executor.run_block(block.core().commands(), ledger)?;
    pool.drop_all_executed(block.core().commands());
    tell(teller, &answers, out)
}

/// Executes these blocks, lowest first. Where memory is refused, some of their commands were executed.
fn execute_all<L: Ledger>(
    executor: &mut Executor,
    ledger: &mut L,
    pool: &mut Mempool,
    decided: &Decided<'_>,
    teller: &Teller<'_>,
    out: &mut Out,
) -> Result<(), Fault>
    requires room { executor.old.most_keys ≡ teller.now.keyring.now.sizes.most_keys }
    ensures room { executor.new.most_keys ≡ executor.old.most_keys }
    ensures executed { OnOk result (
        let d = decided.now in
        work executor.new.history pool.new
        ≡ after_all (stretch d.tip.now d.tree.now d.from d.to) (work executor.old.history pool.old)) }
    ensures written { L.holds ledger.old executor.old.history → L.holds ledger.new executor.new.history }
    ensures told { OnOk result
        (out.new ≡ out.old ++ told teller.now.keyring.now
        (new_answers teller.now.keyring.now.sizes.most_keys executor.old.history executor.new.history)) }
    ensures cut { OnErr result (
        let d = decided.now in
        IsCutShort (stretch d.tip.now d.tree.now d.from d.to) (work executor.old.history pool.old)
        (work executor.new.history pool.new)) }
{
    for height in decided.from..decided.to {
        if let Some(block) = block_at(decided.tree, decided.tip, Height(height + 1)) {
            execute_block(executor, ledger, pool, block, teller, out)?;
        }
    }
    Ok(())
}

/// Executes what was decided above a height, lowest first. Where memory is refused, some of the
/// commands were executed.
pub(crate) fn execute<L: Ledger>(
    state: &mut State,
    keyring: &ReplicaKeyring,
    from: Height,
    executor: &mut Executor,
    ledger: &mut L,
    out: &mut Out,
) -> Result<(), Fault>
    requires room { executor.old.most_keys ≡ keyring.now.sizes.most_keys }
    ensures room { executor.new.most_keys ≡ executor.old.most_keys }
    ensures rest { state.new ≡ waiting state.new.pending state.old }
    ensures executed { OnOk result (
        let last = state.old.variables.rules.executed in
        work executor.new.history state.new.pending
        ≡ after_all (stretch last.digest (tree_of state.old.variables) from last.height)
        (work executor.old.history state.old.pending)) }
    ensures written { L.holds ledger.old executor.old.history → L.holds ledger.new executor.new.history }
    ensures told { OnOk result
        (out.new ≡ out.old ++ told keyring.now
        (new_answers keyring.now.sizes.most_keys executor.old.history executor.new.history)) }
    ensures cut { OnErr result (
        let last = state.old.variables.rules.executed in
        IsCutShort (stretch last.digest (tree_of state.old.variables) from last.height)
        (work executor.old.history state.old.pending) (work executor.new.history state.new.pending)) }
{
    let last = state.rules.executed();
    let decided = Decided {
        tree: &state.tree,
        tip: &last.digest,
        from: from.0,
        to: last.height.0,
    };
    let teller = Teller {
        alloc: state.alloc,
        keyring,
    };
    execute_all(executor, ledger, &mut state.pool, &decided, &teller, out)
}
