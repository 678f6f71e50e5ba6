//! The words.

ghost use Rattle.std.specs.Prelude.{◌≡◌, ◌<◌, ◌≤◌, slice_index, IfOk};
ghost use Rattle.definitions.specs.Marks.{Owns};
ghost use Rattle.marks.specs.Eyes.{IsOwnerOf, seeing, putting, onlooker_of, first_eyes};

use crate::eye::Eye;
use crate::rule::{FirstWord, Look, Marking, Onlooker, Put, Sight};
use atomic_table::{Seat, Table};
use ids::ReplicaId;
use std::alloc::{AllocError, Global};
use std::marker::Model;

/// How far each replica has executed, in one word each. Contracts see which words they are.
#[derive(Drop)]
pub struct Marks {
    table: Table<(), Sight, usize, Marking, Global>,
}

impl Model for Marks {
    ghost use Rattle.std.specs.Prelude.{◌≡◌, ◌<◌};
    ghost use Rattle.atomic_table.specs.Seated.{TableId};

    ghost Value = { TableId };

    ghost view = { λ m. m.table.shared.table_id };

    ghost invariant = { λ m. (m.table.shared.key ≡ m.table.shared.table_id.words)
        × (0 < m.table.shared.table_id.words) };
}

impl Marks {
    /// A word for each of `n` replicas, all at 0, and `n + 1` eyes: the eye of each number owns
    /// that replica's word, and the last owns none.
    pub fn new(alloc: Global, n: u8) -> Result<(Marks, Vec<Eye>), AllocError>
        requires { 0 < n }
        ensures words { IfOk result (λ r. r.0.words ≡ n) }
        ensures eyes { IfOk result (λ r. r.1.items ≡ first_eyes r.0) }
    {
        let replicas = usize::from(n);
        let words = Vec::from_elem(alloc, 0u64, replicas)?;
        let (table, mut rest): (Table<(), Sight, usize, Marking, Global>, Seat<(), Sight>) =
            Table::of_words(alloc, words.as_slice(), &replicas)?;
        let mut eyes = Vec::with_capacity(alloc, replicas + 1)?;
        for _ in 0..replicas {
            let seat = table.shared.split_seat::<FirstWord>(&mut rest);
            eyes.push_reserved(Eye { seat });
        }
        eyes.push_reserved(Eye { seat: rest });
        Ok((Marks { table }, eyes))
    }

    /// How far a replica has executed. It takes no memory and waits for nobody.
    ///
    /// It is at least what this eye has seen of that replica, and is seen from then on. Where the eye owns the word
    /// it is what was last put by it.
    pub fn executed(&self, eye: &mut Eye, replica: ReplicaId) -> u64
        requires from { eye.old.marks ≡ self.now }
        requires number { replica < self.now.words }
        ensures least { slice_index eye.old.sight.seen replica ≤ result }
        ensures own { Owns eye.old.sight replica → result ≡ eye.old.sight.put }
        ensures seen { slice_index eye.new.sight.seen replica ≡ result }
        ensures eye { eye.new ≡ seeing eye.old replica result }
    {
        let word = usize::from(replica.0);
        self.table.shared.load::<Look>(&mut eye.seat, word)
    }

    /// Puts how far a replica has executed. Only the owner of its word can.
    pub fn put(&self, eye: &mut Eye, replica: ReplicaId, executed: u64)
        requires from { eye.old.marks ≡ self.now }
        requires number { replica < self.now.words }
        requires owner { IsOwnerOf replica eye.old.sight }
        requires more { eye.old.sight.put ≤ executed }
        ensures { eye.new ≡ putting eye.old replica executed }
    {
        let word = usize::from(replica.0);
        self.table
            .shared
            .fetch_max::<Put>(&mut eye.seat, word, executed);
    }

    /// One more eye that owns no word, and has seen as much as `from`.
    ///
    /// It takes no memory today, but may come to take some.
    pub fn eye(&self, from: &mut Eye) -> Result<Eye, AllocError>
        requires { from.old.marks ≡ self.now }
        ensures made { IfOk result (λ e. e ≡ onlooker_of from.old) }
        ensures from { from.new ≡ from.old }
    {
        let seat = self.table.shared.split_seat::<Onlooker>(&mut from.seat);
        Ok(Eye { seat })
    }
}
