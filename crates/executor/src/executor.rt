//! The execution of decided commands.

ghost use Rattle.std.specs.Prelude.{◌≡◌, ◌==◌, ◌<◌, ℕ, vec_len, vec_capacity, option_to_list, true, false};
ghost use Rattle.std.specs.Prelude.{[], ◌∷◌, ◌++◌, take, length, option_map, IsOk, IfOk, IfErr, OnOk, OnErr};
ghost use Rattle.ids.specs.Sizes.{IsRoom, HasNoRoom};
ghost use Rattle.definitions.specs.Histories.{entry_of, is_fresh, last_seq, answer_in, answer_to};
ghost use Rattle.frames_view.specs.Views.{command_of, commands_left};
ghost use Rattle.executor.specs.State.{answer_at, with_commands, new_answers};

use crate::answer::Answer;
use crate::clients::Clients;
use crate::entry::Entry;
use crate::executed::Executed;
use crate::ledger::Ledger;
use cache::Cache;
use frames_view::{CommandView, Commands};
use ids::{ClientId, Fault, Place, Seq};
use std::alloc::{AllocError, Global};
use std::hash::RandomState;
use std::marker::Model;

/// What a replica executed: its history, the cache after it, and the last answer to each client.
#[derive(Drop)]
pub struct Executor {
    alloc: Global,
    most_keys: usize,
    cache: Cache,
    clients: Clients,
    history: Executed,
}

impl Model for Executor {
    ghost use Rattle.executor.specs.State.{Execution, IsStateOf};

    ghost Value = { Execution };

    ghost view = { λ x. record { most_keys = x.most_keys; history = x.history } };

    ghost invariant = { λ x.
        IsStateOf (record { most_keys = x.most_keys; history = x.history }) x.cache x.clients };
}

/// Puts an answer last, where there is one.
fn put(answers: &mut Vec<Answer>, answer: Option<Answer>)
    requires { vec_len answers.old < vec_capacity answers.old }
    ensures { answers.new.items ≡ answers.old.items ++ option_to_list answer }
{
    if let Some(answer) = answer {
        answers.push(answer).unwrap();
    }
}

impl Executor {
    /// An executor that has executed nothing, on a cache with room for so many keys: 1 to `MOST_KEYS`,
    /// else `BadKeys`. It takes the memory of the table of clients.
    pub fn new(alloc: Global, most_keys: usize, hasher: RandomState) -> Result<Executor, Fault>
        ensures made { IfOk result (λ x. x ≡ record { most_keys = most_keys; history = [] }) }
        ensures room { IsOk result → IsRoom most_keys }
        ensures refused { IfErr result (HasNoRoom most_keys) }
    {
        let cache = Cache::new(alloc, most_keys, hasher)?;
        Ok(Executor {
            alloc,
            most_keys,
            cache,
            clients: Clients::new(alloc)?,
            history: Executed::new(),
        })
    }

    /// How many commands were executed.
    pub fn len(&self) -> usize
        ensures { result ≡ length self.now.history }
    {
        self.history.len()
    }

    /// Whether none was executed.
    pub fn is_empty(&self) -> bool
        ensures { result ≡ (length self.now.history == 0) }
    {
        self.history.len() == 0
    }

    /// The greatest number of a client's commands; 0 where it has none.
    pub fn last_seq(&self, client: ClientId) -> Seq
        ensures { result ≡ last_seq client self.now.history }
    {
        self.clients.last_seq(client)
    }

    /// The answer to a client's last fresh command, where that has this number.
    pub fn reply_of(&self, client: ClientId, seq: Seq) -> Option<&Answer>
        ensures { option_map (λ a. a.now) result
            ≡ answer_to self.now.most_keys client seq self.now.history }
    {
        let answer = self.clients.get(client)?;
        if answer.seq() == seq {
            Some(answer)
        } else {
            None
        }
    }

    /// Enters a command that is not fresh.
    fn enter<L: Ledger>(&mut self, entry: &Entry<'_>, ledger: &mut L) -> Result<(), AllocError>
        requires { is_fresh entry.now self.old.history ≡ false }
        ensures entered { OnOk result (self.new ≡ record self.old { history = entry.now ∷ self.old.history }) }
        ensures written { L.holds ledger.old self.old.history → L.holds ledger.new self.new.history }
        ensures unchanged { OnErr result (self.new ≡ self.old) }
    {
        self.history.room()?;
        ledger.push(entry)?;
        self.history.put(entry);
        Ok(())
    }

    /// Executes a fresh command.
    fn execute<L: Ledger>(&mut self, entry: &Entry<'_>, ledger: &mut L) -> Result<Answer, Fault>
        requires { is_fresh entry.now self.old.history ≡ true }
        ensures executed { OnOk result (self.new ≡ record self.old { history = entry.now ∷ self.old.history }) }
        ensures written { L.holds ledger.old self.old.history → L.holds ledger.new self.new.history }
        ensures answered { IfOk result (λ a. a ≡ answer_in self.old.most_keys entry.now self.old.history) }
        ensures unchanged { OnErr result (self.new ≡ self.old) }
        ensures memory { OnErr result (result ≡ Err Fault.Memory) }
    {
        self.history.room()?;
        let texts = ledger.push_applied(self.alloc, &mut self.cache, entry)?;
        self.history.put(entry);
        let place = Place(self.history.len() as u64);
        let answer = Answer::to(entry, place, texts.told);
        self.clients.set(Answer::to(entry, place, texts.kept));
        Ok(answer)
    }

    /// Executes one command: it stands last in the history, and where it is fresh it is applied and answered.
    ///
    /// It is written down in the ledger too. Where that takes memory, it is taken before anything changes.
    pub fn run<L: Ledger>(
        &mut self,
        command: &CommandView<'_>,
        ledger: &mut L,
    ) -> Result<Option<Answer>, Fault>
        ensures executed { OnOk result (self.new
            ≡ record self.old { history = entry_of (command_of command.now) ∷ self.old.history }) }
        ensures written { L.holds ledger.old self.old.history → L.holds ledger.new self.new.history }
        ensures answered { IfOk result (λ a. a
            ≡ answer_at self.old.most_keys (entry_of (command_of command.now)) self.old.history) }
        ensures unchanged { OnErr result (self.new ≡ self.old) }
        ensures memory { OnErr result (result ≡ Err Fault.Memory) }
    {
        let entry = Entry::of(command);
        if self.clients.is_after(entry.client(), entry.seq()) {
            Ok(Some(self.execute(&entry, ledger)?))
        } else {
            self.enter(&entry, ledger)?;
            Ok(None)
        }
    }

    /// Executes the commands of a block in their order, and gives the answers to those that are fresh.
    ///
    /// Where memory is refused, the commands before that one stand.
    pub fn run_block<L: Ledger>(
        &mut self,
        commands: Commands<'_>,
        ledger: &mut L,
    ) -> Result<Vec<Answer>, Fault>
        ensures room { self.new.most_keys ≡ self.old.most_keys }
        ensures executed { OnOk result
            (self.new.history ≡ with_commands (commands_left commands.entry) self.old.history) }
        ensures written { L.holds ledger.old self.old.history → L.holds ledger.new self.new.history }
        ensures answered { IfOk result (λ v. v.items ≡ new_answers self.old.most_keys self.old.history self.new.history) }
        ensures cut { OnErr result (
            let all = commands_left commands.entry in
            (k : ℕ) × (k < length all) × (self.new.history ≡ with_commands (take k all) self.old.history)) }
        ensures memory { OnErr result (result ≡ Err Fault.Memory) }
    {
        let mut answers = Vec::new(self.alloc);
        for command in commands {
            answers.reserve(1)?;
            let answer = self.run(&command, ledger)?;
            put(&mut answers, answer);
        }
        Ok(answers)
    }
}
