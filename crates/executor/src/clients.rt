//! The table of clients.

ghost use Rattle.std.specs.Prelude.{◌≡◌, ◌≢◌, ℕ, None, Some, option_map, IfOk};
ghost use Rattle.executor.specs.Rows.{row, numbered_after, number_in};

use crate::answer::Answer;
use ids::{ClientId, Seq};
use std::alloc::{AllocError, Global};
use std::marker::Model;

/// How many numbers of clients there are.
const NUMBERS: usize = 256;

/// The last answer to each client, by the client's number.
#[derive(Debug, Drop)]
pub(crate) struct Clients {
    rows: Vec<Option<Answer>>,
}

impl Model for Clients {
    ghost use Rattle.std.specs.Prelude.{◌≡◌, List, Option, length};
    ghost use Rattle.definitions.specs.Histories as histories;
    ghost use Rattle.executor.specs.declared.clients.TheConstants.{NUMBERS};

    ghost Value = { List (Option histories.Answer) };

    ghost view = { λ c. c.rows.items };

    ghost invariant = { λ c. length c.rows.items ≡ NUMBERS };
}

impl Clients {
    /// No client was answered yet. It takes all the memory that rows need.
    pub(crate) fn new(alloc: Global) -> Result<Clients, AllocError>
        ensures { IfOk result (λ c. (client : ℕ) → row c client ≡ None) }
    {
        let mut rows = Vec::with_capacity(alloc, NUMBERS)?;
        for _client in 0..NUMBERS {
            rows.push(None)?;
        }
        Ok(Clients { rows })
    }

    /// The last answer to a client.
    pub(crate) fn get(&self, client: ClientId) -> Option<&Answer>
        ensures { option_map (λ a. a.now) result ≡ row self.now client }
    {
        self.rows[usize::from(client.0)].as_ref()
    }

    /// Whether a number is greater than that of the client's last answer, or there is none.
    pub(crate) fn is_after(&self, client: ClientId, seq: Seq) -> bool
        ensures { result ≡ numbered_after seq (row self.now client) }
    {
        match self.get(client) {
            Some(last) => last.seq() < seq,
            None => true,
        }
    }

    /// The number of the client's last answer; 0 where there is none.
    pub(crate) fn last_seq(&self, client: ClientId) -> Seq
        ensures { result ≡ number_in (row self.now client) }
    {
        match self.get(client) {
            Some(last) => last.seq(),
            None => Seq(0),
        }
    }

    /// Keeps the last answer to its client.
    pub(crate) fn set(&mut self, answer: Answer)
        ensures kept { row self.new answer.client ≡ Some answer }
        ensures others { (client : ℕ) → client ≢ answer.client → row self.new client ≡ row self.old client }
    {
        let client = usize::from(answer.client().0);
        self.rows[client] = Some(answer);
    }
}
