//! One replica.

ghost use Rattle.std.specs.Prelude.{◌≡◌, ◌<◌, ◌&&◌, ◌⊎◌, [], length, reverse, suc, IsTrue, IsOk, IfOk, IfErr};
ghost use Rattle.std.specs.Prelude.{OnErr};
ghost use Rattle.std.specs.Prelude.{◌↔◌, false, IsNone, Some, option_map};
ghost use Rattle.ids.specs.Sizes.{IsRoom, HasNoRoom, replicas};
ghost use Rattle.audit_ground.specs.Law.{IsLawfullyKept};
ghost use Rattle.definitions.specs.Checks.{identity_of};
ghost use Rattle.definitions.specs.Chronicles.{Chronicle, IsLawful, executed, horizon, standing_blocks};
ghost use Rattle.definitions.specs.Chronicles.{lock, window, vheight, was_pruned};
ghost use Rattle.definitions.specs.Digests.{digest_of};
ghost use Rattle.definitions.specs.Frames.{spelling};
ghost use Rattle.definitions.specs.Replicas.{running, held_history, held_pending};
ghost use Rattle.definitions.specs.Sendings.{fetch_frame};
ghost use Rattle.definitions.specs.States.{find_block, is_known, leaf, view};
ghost use Rattle.replica.specs.Execution.{seen_at};
ghost use Rattle.replica.specs.Locked.{over_lock};
ghost use Rattle.std.specs.Option.{option_and_then};
ghost use Rattle.definitions.specs.WindowAudit.{shown_at};
ghost use Rattle.frames_view.specs.Views.{core_of};
ghost use Rattle.replica.specs.Careful.{is_careless};
ghost use Rattle.replica.specs.Steps.{Stepped};
ghost use Rattle.replica.specs.Wanting.{wants_beat, wants_beat_now};
ghost use Rattle.definitions.specs.Keyrings.{Keys};
ghost use Rattle.replica.specs.Kept.{IsStateOf, AreCertified};
ghost use Rattle.replica.specs.Changes.{Fits};
ghost use Rattle.replica.specs.StepsTo.{StepsTo, answer, after};
ghost use Rattle.replica.specs.Advances.{going, IsWholeOf, Advances};
ghost use Rattle.admission.specs.Inputs.{input_of, is_addressed};
ghost use Rattle.replica.specs.Inputs.{IsFitInput, prunes};
ghost use Rattle.replica.specs.Logs.{Logs, LogsAll};
ghost use Rattle.replica.specs.Replay.{is_pruning, replay};

use crate::announce::{decide_new_view, decide_seen_view, decide_timeout};
use crate::beat::{decide_beat, leads};
use crate::blocks::decide_block;
use crate::change::Change;
use crate::chronicle::ChronicleView;
use crate::execution::execute;
use crate::fetch::decide_fetch;
use crate::grounds::{decide_offer, decide_relay};
use crate::lead::decide_lead;
use crate::offer::Offer;
use crate::prune::decide_prune;
use crate::request::decide_request;
use crate::standing::{Standing, Taken};
use crate::state::{High, State};
use crate::step_log::{NoLog, StepLog};
use crate::stored::StoredStep;
use crate::vote::decide_vote;
use admission::Input;
use authenticators::ReplicaKeyring;
use block_tree::Tree;
use executor::{Executor, Ledger, NoLedger};
use frames_view::{CertificateBuf, CoreView, genesis_digest};
use ghost_list::GhostList;
use ids::{Config, Digest, Fault, Height, MOST_BLOCKS, ReplicaId, View};
use mempool::Mempool;
use pacemaker::Pacemaker;
use replica_rules::{BlockRef, Rules};
use signed_frames::{Out, fetch_frame};
use std::alloc::Global;
use std::hash::RandomState;
use std::marker::Model;
use vote_collector::Collector;

/// One replica: its keys, its chronicle, and all that follows from the chronicle.
pub struct Replica {
    keyring: ReplicaKeyring,
    state: State,
    executor: Executor,
    standing: Standing,
}

/// Written out, so that a crate that drops a replica proves one call, and not the drops of all its parts.
impl Drop for Replica {
    fn drop(self) {
        let Replica {
            keyring: _keyring,
            state: _state,
            executor: _executor,
            standing: _,
        } = self;
    }
}

impl Model for Replica {
    ghost use Rattle.std.specs.Prelude.{◌≡◌};
    ghost use Rattle.replica.specs.Steps.{Held, standing_of};

    ghost Value = { Held };

    ghost use Rattle.std.specs.Prelude.{length};
    ghost use Rattle.replica.specs.Advances.{IsWholeOf};

    ghost view = { λ r. record {
      keys = r.keyring;
      replica =
          record {
            chronicle = r.state.variables.chronicle;
            standing = standing_of r.standing (length r.executor.history);
          };
    } };

    ghost invariant = { λ r. IsWholeOf r.keyring (record {
      chronicle = r.state.variables.chronicle;
      standing = standing_of r.standing (length r.executor.history);
    }) r.state r.executor.history
        × (r.executor.most_keys ≡ r.keyring.sizes.most_keys) };
}

/// What an input comes to: a change that is to be made, or a refusal.
fn decide(
    state: &State,
    keyring: &ReplicaKeyring,
    executor: &Executor,
    input: Input<'_>,
) -> Result<Change, Fault>
    requires own { IsTrue (is_addressed keyring.now input) }
    requires sizes { state.now.pace.sizes ≡ keyring.now.sizes }
    requires votes { state.now.votes.sizes ≡ keyring.now.sizes }
    requires room { executor.now.most_keys ≡ keyring.now.sizes.most_keys }
    requires certified { AreCertified keyring.now.sizes state.now.variables }
    ensures decided { (c : Chronicle) → IsWholeOf keyring.now (going c) state.now executor.now.history
        → StepsTo keyring.now (input_of input.entry) c (answer result) (after result state.now) }
    ensures fits { IfOk result (λ d. Fits state.now d) }
    ensures pruning { IfOk result (λ d. is_pruning d.step ≡ prunes input.entry) }
    ensures fit { IsFitInput keyring.now.sizes (input_of input.entry) }
{
    match input {
        Input::Proposal(proposal) => decide_block(state, keyring, &Offer::of_proposal(&proposal)),
        Input::Block(block) => decide_block(state, keyring, &Offer::of_block(&block)),
        Input::Vote(vote) => decide_vote(state, vote.view()),
        Input::NewView(announced) => decide_new_view(state, keyring, announced.view()),
        Input::Request(asked) => decide_request(state, keyring, executor, asked.view()),
        Input::Fetch(asked) => decide_fetch(state, keyring, asked.view()),
        Input::Timeout => decide_timeout(state, keyring),
        Input::Beat => {
            // For the proof: few steps stand.
            let _count = state.count;
            decide_beat(state, keyring)
        }
        Input::Prune(height) => Ok(decide_prune(state, height)),
        Input::OfferedProposal(proposal) => {
            decide_offer(state, keyring, &Offer::of_offered_proposal(&proposal))
        }
        Input::OfferedBlock(block) => decide_offer(
            state,
            keyring,
            &Offer::of_offered_block(&block),
        ),
        Input::SeenView(announced) => decide_seen_view(state, keyring, announced.view()),
        Input::Relayed(copies) => decide_relay(state, keyring, &Offer::of_copies(&copies)),
        Input::Lead(block) => decide_lead(state, keyring, block),
        Input::Ask(_, _) => Err(Fault::UnknownParent),
    }
}

/// Takes an input of a replica that goes on, and executes nothing yet.
fn take<S: StepLog>(
    state: &mut State,
    keyring: &ReplicaKeyring,
    executor: &Executor,
    input: Input<'_>,
    log: &mut S,
) -> Result<Out, Fault>
    requires own { IsTrue (is_addressed keyring.now input) }
    requires sizes { state.old.pace.sizes ≡ keyring.now.sizes }
    requires votes { state.old.votes.sizes ≡ keyring.now.sizes }
    requires room { executor.now.most_keys ≡ keyring.now.sizes.most_keys }
    requires certified { AreCertified keyring.now.sizes state.old.variables }
    ensures steps { (c : Chronicle) → IsWholeOf keyring.now (going c) state.old executor.now.history
        → StepsTo keyring.now (input_of input.entry) c result state.new }
    ensures fit { IsFitInput keyring.now.sizes (input_of input.entry) }
    ensures logged { prunes input.entry ≡ false
        → Logs (S.holds log.old) state.old.variables.stored state.old.variables.chronicle
        → Logs (S.holds log.new) state.new.variables.stored state.new.variables.chronicle }
{
    let change = decide(state, keyring, executor, input)?;
    let out = state.commit(change, log)?;
    Ok(out)
}

/// Takes an input of a replica that goes on, and executes what it decides.
fn advance<S: StepLog, L: Ledger>(
    state: &mut State,
    executor: &mut Executor,
    keyring: &ReplicaKeyring,
    input: Input<'_>,
    log: &mut S,
    ledger: &mut L,
) -> Taken
    requires own { IsTrue (is_addressed keyring.now input) }
    requires sizes { state.old.pace.sizes ≡ keyring.now.sizes }
    requires votes { state.old.votes.sizes ≡ keyring.now.sizes }
    requires room { executor.old.most_keys ≡ keyring.now.sizes.most_keys }
    requires certified { AreCertified keyring.now.sizes state.old.variables }
    ensures room { executor.new.most_keys ≡ executor.old.most_keys }
    ensures advances { (c : Chronicle) → IsWholeOf keyring.now (going c) state.old executor.old.history
        → Advances keyring.now (input_of input.entry) c result state.new executor.new.history }
    ensures logged { prunes input.entry ≡ false
        → Logs (S.holds log.old) state.old.variables.stored state.old.variables.chronicle
        → Logs (S.holds log.new) state.new.variables.stored state.new.variables.chronicle }
    ensures written { L.holds ledger.old executor.old.history → L.holds ledger.new executor.new.history }
{
    let from = state.rules.executed().height;
    match take(state, keyring, executor, input, log) {
        Err(fault) => Taken::Refused(fault),
        Ok(mut out) => match execute(state, keyring, from, executor, ledger, &mut out) {
            Ok(()) => Taken::Sends(out),
            Err(_) => Taken::CutShort,
        },
    }
}

/// The state of a replica that has made no step.
fn first_state(alloc: Global, config: Config, hasher: RandomState) -> State
    ensures { (keys : Keys) → keys.sizes ≡ config → IsStateOf keys [] result }
{
    let high = High {
        block: BlockRef::genesis(),
        certificate: CertificateBuf::without_votes(alloc, config, genesis_digest()),
    };
    State {
        alloc,
        tree: Tree::new(alloc, MOST_BLOCKS, hasher),
        rules: Rules::new(),
        high,
        leaf: BlockRef::genesis(),
        own: None,
        pace: Pacemaker::new(config),
        votes: Collector::new(alloc, config),
        pool: Mempool::new(alloc),
        count: 0,
        chronicle: GhostList::new(),
    }
}

impl Replica {
    /// A replica that has made no step: it knows genesis alone, and is in view 0.
    pub fn new(
        alloc: Global,
        config: Config,
        number: ReplicaId,
        keyring: ReplicaKeyring,
        hasher: RandomState,
    ) -> Result<Replica, Fault>
        requires sizes { config ≡ keyring.sizes }
        requires number { number ≡ keyring.party }
        ensures made { IfOk result
            (λ r. r ≡ record { keys = keyring; replica = record { chronicle = []; standing = running } }) }
        ensures memory { OnErr result (result ≡ Err Fault.Memory) }
    {
        // For the proof: the cache has room for a key.
        config.holds();
        let executor = Executor::new(alloc, config.most_keys(), hasher)?;
        Ok(Replica {
            keyring,
            state: first_state(alloc, config, hasher),
            executor,
            standing: Standing::Running,
        })
    }

    /// The same, where its cache has room for so many keys: 1 to `MOST_KEYS`, else `BadKeys`.
    pub fn with_keys(
        alloc: Global,
        config: Config,
        number: ReplicaId,
        keyring: ReplicaKeyring,
        most_keys: usize,
        hasher: RandomState,
    ) -> Result<Replica, Fault>
        requires sizes { config ≡ keyring.sizes }
        requires number { number ≡ keyring.party }
        ensures made { IfOk result (λ r. r ≡ record {
          keys = record keyring { sizes = record config { most_keys = most_keys } };
          replica = record { chronicle = []; standing = running };
        }) }
        ensures room { IsOk result → IsRoom most_keys }
        ensures refused { IfErr result (HasNoRoom most_keys) }
    {
        let keyring = keyring.with_most_keys(most_keys)?;
        Replica::new(alloc, keyring.config(), number, keyring, hasher)
    }

    /// Which replica it is.
    pub fn number(&self) -> ReplicaId
        ensures { result ≡ self.now.keys.party }
    {
        self.keyring.replica()
    }

    /// The sizes that it was made with.
    pub fn config(&self) -> Config
        ensures { result ≡ self.now.keys.sizes }
    {
        self.keyring.config()
    }

    /// How many steps stand.
    pub fn steps(&self) -> usize
        ensures count { result ≡ length self.now.replica.chronicle }
        ensures lawful { IsLawful self.now.keys.sizes self.now.replica.chronicle }
    {
        self.state.count()
    }

    /// Says that it is one of the replicas of its sizes, and that its chronicle is kept as an audit
    /// wants it, and does nothing else.
    pub fn holds(&self)
        ensures number { self.now.keys.party < replicas self.now.keys.sizes }
        ensures kept { IsLawfullyKept self.now.keys.sizes self.now.replica.chronicle }
    {
        // For the proof: a body reads a value whose invariant it claims.
        let _number = self.keyring.replica();
        let _steps = self.state.count();
    }

    /// The steps that stand, where these make its chronicle. Oldest first.
    pub(crate) fn chronicle<'a>(&'a self, steps: &'a [StoredStep]) -> ChronicleView<'a>
        requires steps { replay (reverse steps.now) (standing_blocks self.now.replica.chronicle)
            ≡ self.now.replica.chronicle }
        requires unpruned { was_pruned self.now.replica.chronicle ≡ false }
        ensures { result ≡ self.entry.now.replica.chronicle }
    {
        self.state.chronicle(steps)
    }

    /// How many commands it executed.
    pub fn executed(&self) -> usize
        ensures { result ≡ length (held_history self.now.replica) }
    {
        self.executor.len()
    }

    /// How many requests wait.
    pub fn pending(&self) -> usize
        ensures { result ≡ length (held_pending self.now.replica) }
    {
        self.state.pool.len()
    }

    /// Whether a beat brings something: it leads its view and a request waits.
    pub fn wants_beat(&self) -> bool
        ensures { result ≡ wants_beat self.now }
    {
        leads(&self.state, &self.keyring) && !self.state.pool.is_empty()
    }

    /// Whether a beat brings something at once: it wants one, and none of its proposals waits for
    /// votes, or the next one would be too low to be voted for.
    ///
    /// So it is after each certificate while requests wait, when a request comes to a leader that
    /// was idle, and when a new leader begins below heights that were voted for in views before.
    pub fn wants_beat_now(&self) -> bool
        ensures { result ≡ wants_beat_now self.now }
    {
        let (leaf, high) = (&self.state.leaf, &self.state.high.block);
        let is_idle = leaf.digest == high.digest;
        self.wants_beat() && (is_idle || leaf.height < self.state.rules.vheight())
    }

    /// Whether a vote for the block of a core would be careless: the block, or one between it and the block that it
    /// justifies, justifies one below the lock. Its parent stands in the tree; else it is false.
    ///
    /// A careful replica loses such a proposal. Then no certified branch has a block above a decided one that justifies
    /// one below that, so who pruned what lies below can follow it.
    pub fn is_careless(&self, core: &CoreView<'_>) -> bool
        ensures { result ≡ is_careless (core_of core.now) self.now.replica.chronicle }
    {
        self.state.is_careless(core)
    }

    /// Why it stopped: the refusal after which it takes no further input. None while it goes on.
    pub fn stopped(&self) -> Option<Fault>
        ensures { IsNone result ↔ (self.now.replica.standing ≡ running) }
    {
        self.standing.stopped()
    }

    /// The height of the last block that was decided.
    pub fn height(&self) -> Height
        ensures { result ≡ length (executed self.now.replica.chronicle) }
    {
        self.state.rules.executed().height
    }

    /// The greatest height that it voted for, 0 where there was no vote.
    pub fn voted(&self) -> Height
        ensures { result ≡ vheight self.now.replica.chronicle }
    {
        self.state.rules.vheight()
    }

    /// The digest of the block that it is locked on.
    pub fn lock(&self) -> Digest
        ensures { result ≡ digest_of (lock self.now.replica.chronicle) }
    {
        self.state.rules.lock().digest
    }

    /// The height of the block that it is locked on.
    pub fn lock_height(&self) -> Height
        ensures { result ≡ length (lock self.now.replica.chronicle) }
    {
        self.state.rules.lock().height
    }

    /// The height of the block that its next proposal stands on.
    pub fn leaf_height(&self) -> Height
        ensures { result ≡ length (leaf (identity_of self.now.keys) self.now.replica.chronicle) }
    {
        self.state.leaf.height
    }

    /// Whether the block of a digest stands in its window.
    pub fn knows(&self, block: &Digest) -> bool
        ensures { result ≡ is_known block.now self.now.replica.chronicle }
    {
        self.state.knows(block)
    }

    /// A block of the window that justifies its lock and is justified itself, with its height: by the oldest block over
    /// such a one. Genesis where no block of the window stands so over the lock.
    ///
    /// What was pruned may have stood so, which the answer doesn't tell.
    pub fn over_lock(&self) -> (Digest, Height)
        ensures found { horizon self.now.replica.chronicle ≡ 0
            → find_block result.0 self.now.replica.chronicle ≡ Some (over_lock self.now.replica.chronicle) }
        ensures high { horizon self.now.replica.chronicle ≡ 0
            → result.1 ≡ length (over_lock self.now.replica.chronicle) }
    {
        let over = self.state.over_lock();
        over.unwrap_or((genesis_digest(), Height(0)))
    }

    /// The digest of the block of a height on the branch of a block of its window, as far as the window reaches.
    pub fn block_below(&self, block: &Digest, height: Height) -> Option<Digest>
        ensures { result ≡ option_map digest_of
            (option_and_then (seen_at (horizon self.now.replica.chronicle) height)
            (find_block block.now self.now.replica.chronicle)) }
    {
        self.state.block_below(block, height)
    }

    /// The digest of the last block that was decided.
    pub fn executed_block(&self) -> Digest
        ensures { result ≡ digest_of (executed self.now.replica.chronicle) }
    {
        self.state.rules.executed().digest
    }

    /// The digest of the block of a height on the branch that was decided, as far as its window reaches.
    /// None where the height is above the last one, or more than two below the horizon. Genesis is always
    /// there.
    pub fn executed_block_at(&self, height: Height) -> Option<Digest>
        ensures { result ≡ option_map digest_of (shown_at height self.now.replica.chronicle) }
    {
        self.state.executed_block_at(height)
    }

    /// The horizon of its tree: what is more than two heights below it was forgotten. It is 0 until the
    /// replica is given leave to prune.
    pub fn horizon(&self) -> Height
        ensures { result ≡ horizon self.now.replica.chronicle }
    {
        self.state.horizon()
    }

    /// How many blocks it holds, genesis included.
    #[tactic(auto, unfolding(definitions::specs::Chronicles::window))]
    pub fn blocks(&self) -> usize
        ensures { result ≡ length (window self.now.replica.chronicle) }
    {
        self.state.tree.len()
    }

    /// The view that it is in.
    pub fn view(&self) -> View
        ensures { result ≡ view self.now.keys.sizes self.now.replica.chronicle }
    {
        self.state.pace.view()
    }

    /// Its question to a replica for the block of a digest: a Fetch frame.
    ///
    /// After `UnknownParent` it is for the replica that sent what was refused, unless that is this one.
    #[tactic(auto, unfolding(definitions::specs::Sendings::fetch_frame))]
    pub fn write_fetch(&self, to: ReplicaId, block: &Digest) -> Result<Vec<u8>, Fault>
        requires { to < replicas self.now.keys.sizes }
        ensures made { IfOk result
            (λ frame. frame.items ≡ spelling (fetch_frame (identity_of self.now.keys) to block.now)) }
        ensures memory { OnErr result (result ≡ Err Fault.Memory) }
    {
        fetch_frame(self.state.alloc, &self.keyring, to, block)
    }

    /// Takes an input: one step, which answers what goes out.
    ///
    /// After `UnknownParent`, `BadHeight`, `WrongJustify`, `Crowded`, `PoolFull`, `Pruned` and `BadTag`, which
    /// a block without grounds meets, it is as before. After `Conflict` and `Memory` it is stopped, and after
    /// `Full` where its horizon is 0: it can't prune then. Where memory is refused in between, to execute what
    /// the step decided, the step stands, the history ends behind the last command that was executed, and
    /// nothing goes out.
    pub fn step(&mut self, input: Input<'_>) -> Result<Out, Fault>
        requires { IsTrue (is_addressed self.old.keys input) }
        ensures stepped { Stepped (identity_of self.old.keys) (input_of input.entry) self.old.replica result
            self.new.replica }
        ensures keys { self.new.keys ≡ self.old.keys }
        ensures grows { (length self.new.replica.chronicle ≡ length self.old.replica.chronicle)
            ⊎ (length self.new.replica.chronicle ≡ suc (length self.old.replica.chronicle)) }
    {
        self.step_into(input, &mut NoLog, &mut NoLedger)
    }

    /// The same, and what comes to stand is written down. Memory for that is taken before it stands.
    pub(crate) fn step_into<S: StepLog, L: Ledger>(
        &mut self,
        input: Input<'_>,
        log: &mut S,
        ledger: &mut L,
    ) -> Result<Out, Fault>
        requires { IsTrue (is_addressed self.old.keys input) }
        ensures stepped { Stepped (identity_of self.old.keys) (input_of input.entry) self.old.replica result
            self.new.replica }
        ensures keys { self.new.keys ≡ self.old.keys }
        ensures grows { (length self.new.replica.chronicle ≡ length self.old.replica.chronicle)
            ⊎ (length self.new.replica.chronicle ≡ suc (length self.old.replica.chronicle)) }
        ensures logged { prunes input.entry ≡ false
            → LogsAll (S.holds log.old) self.old.replica
            → LogsAll (S.holds log.new) self.new.replica }
        ensures written { L.holds ledger.old (held_history self.old.replica)
            → L.holds ledger.new (held_history self.new.replica) }
    {
        if !self.standing.is_running() {
            return Err(Fault::Stopped);
        }
        let taken = advance(
            &mut self.state,
            &mut self.executor,
            &self.keyring,
            input,
            log,
            ledger,
        );
        self.standing = taken.standing(self.state.horizon());
        taken.into_answer()
    }
}
