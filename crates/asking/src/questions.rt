//! All questions.

ghost use Rattle.std.specs.Prelude.{◌≡◌, ◌==◌, ◌↔◌, ◌⊎◌, ◌+◌, ◌<◌, ◌≤◌, ◌&&◌, [], false, true, IfOk, IfSome, IfNone};
ghost use Rattle.std.specs.Prelude.{IsOk};
ghost use Rattle.std.specs.Prelude.{MatchOption, OnOk, OnErr, IsTrue};
ghost use Rattle.std.specs.Prelude.{count_by, find, length, option_copied, option_map, position, map, filter, not};
ghost use Rattle.std.specs.Prelude.{is_some, nat_lt, slice_get, if◌then◌else◌};
ghost use Rattle.std.specs.Option.{option_map_or};
ghost use Rattle.std.specs.List.{list_any};
ghost use Rattle.ids.specs.Sizes.{replicas};
ghost use Rattle.asking.specs.Asking.{Question, Asks, IsBounded, NoneDue, above, allows, asked_for, blocks_among, changed, closed};
ghost use Rattle.asking.specs.Asking.{fits, forgotten, freed, given_up, has_room_ahead, may_wait};
ghost use Rattle.asking.specs.Asking.{has_room, hastened, having_given_up, is_due, is_for, is_paid_by, is_vain};
ghost use Rattle.asking.specs.Asking.{is_wanted, kept_for, needing, one_behind, places_behind, released, waiting_for};
ghost use Rattle.asking.specs.Asking.{taken, waits_for, why_no_copy, with_copy_of};
ghost use Rattle.asking.specs.Choosing.{IsFirstOf, IsSoonerThan};
ghost use Rattle.tuning.specs.declared.asking.TheConstants.{MOST_COPY_BYTES, QUESTION_PAUSE_MILLIS};

use crate::ask::Ask;
use crate::block_copy::BlockCopy;
use crate::pace::{Pace, blocks_among};
use crate::question::Question;
use bytes::Bytes;
use ids::{Config, Digest, Fault, ReplicaId};
use std::alloc::Global;
use std::marker::Model;
use tuning::{MOST_ASKED_AHEAD, MOST_ASKED_FOR, MOST_COPY_BYTES};

/// The blocks that one replica asks others for.
///
/// A block is asked for on the account of the replica whose frame made this one ask. Each account has a part of the
/// questions, and of the bytes of copies, of its own: so what faulty replicas name can't crowd out what a correct one
/// needs. Payers take turns. Times are milliseconds of any clock that doesn't go back.
#[derive(Drop)]
pub struct Questions {
    alloc: Global,
    replicas: u8,
    /// Oldest first.
    questions: Vec<Question>,
    /// Whose turn it is.
    turn: ReplicaId,
    pace: Pace,
}

impl Model for Questions {
    ghost use Rattle.asking.specs.Asking as asking;

    ghost Value = { asking.Asking };

    ghost view = { λ a. record {
      replicas = a.replicas;
      questions = a.questions.items;
      turn = a.turn;
      pace = a.pace;
    } };

    ghost invariant = { λ a. asking.IsBounded (record {
      replicas = a.replicas;
      questions = a.questions.items;
      turn = a.turn;
      pace = a.pace;
    }) };
}

/// The replica behind one, of so many.
fn one_behind(replicas: u8, payer: ReplicaId) -> ReplicaId
    requires { 0 < replicas }
    ensures behind { result ≡ one_behind replicas payer }
    ensures within { result < replicas }
{
    if payer.0 < replicas - 1 {
        ReplicaId(payer.0 + 1)
    } else {
        ReplicaId(0)
    }
}

/// By how many places a replica is behind the one whose turn it is, of so many.
fn places_behind(replicas: u8, turn: ReplicaId, payer: ReplicaId) -> u8
    requires { turn < replicas }
    ensures { result ≡ places_behind replicas turn payer }
{
    if turn.0 <= payer.0 {
        payer.0 - turn.0
    } else {
        replicas - (turn.0 - payer.0)
    }
}

impl Questions {
    /// Nothing lacks. It takes no memory.
    pub fn new(alloc: Global, config: Config) -> Questions
        ensures { result ≡ record {
          replicas = replicas config;
          questions = [];
          turn = 0;
          pace = record { since = 0; asked = 0; wait = QUESTION_PAUSE_MILLIS };
        } }
    {
        Questions {
            alloc,
            replicas: config.n(),
            questions: Vec::new(alloc),
            turn: ReplicaId(0),
            pace: Pace::new(),
        }
    }

    /// Whether no block is wanted.
    pub fn is_empty(&self) -> bool
        ensures empty { result ≡ (length self.now.questions == 0) }
        ensures bounded { IsBounded self.now }
    {
        self.questions.is_empty()
    }

    /// Whether a block is wanted.
    pub fn is_wanted(&self, block: &Digest) -> bool
        ensures { result ≡ is_wanted block.now self.now.questions }
    {
        self.questions.iter().any(|question| question.is_for(block))
    }

    /// The question for a block.
    fn question(&self, block: &Digest) -> Option<&Question>
        ensures { option_copied result ≡ find (is_for block.now) self.now.questions }
    {
        self.questions
            .iter()
            .find(|question| question.is_for(block))
    }

    /// Its place.
    fn place_of(&self, block: &Digest) -> Option<usize>
        ensures { result ≡ position (is_for block.now) self.now.questions }
    {
        self.questions
            .iter()
            .position(|question| question.is_for(block))
    }

    /// On whose account a block was asked for, while it is wanted.
    pub fn payer(&self, block: &Digest) -> Option<ReplicaId>
        ensures { result ≡ option_map (λ q. q.payer) (find (is_for block.now) self.now.questions) }
    {
        Some(self.question(block)?.payer())
    }

    /// The copies of a block that came, each of another sender; none where it isn't wanted.
    pub fn copies(&self, block: &Digest) -> &[BlockCopy]
        ensures { result.now ≡ option_map_or (λ q. q.copies) (find (is_for block.now) self.now.questions) [] }
    {
        match self.question(block) {
            Some(question) => question.copies(),
            None => &[],
        }
    }

    /// How many blocks are wanted on a replica's account.
    fn count_of(&self, payer: ReplicaId) -> usize
        ensures { result ≡ count_by (is_paid_by payer) self.now.questions }
    {
        self.questions
            .iter()
            .filter(|question| question.payer() == payer)
            .count()
    }

    /// Whether a replica's account has room for one more.
    fn has_room(&self, payer: ReplicaId) -> bool
        ensures { result ≡ has_room self.now.replicas payer self.now.questions }
    {
        payer.0 < self.replicas && self.count_of(payer) < MOST_ASKED_FOR
    }

    /// A block lacks, by a frame of this payer: who is named is asked first, then all; where nobody is, all are. A
    /// block that is wanted already stays as it is.
    ///
    /// `Full` comes where the payer's account has no room, or it is no replica; then `Memory`.
    pub fn need(
        &mut self,
        block: Digest,
        payer: ReplicaId,
        whom: Option<ReplicaId>,
        now: u64,
    ) -> Result<(), Fault>
        ensures needing { OnOk result (self.new
            ≡ record self.old { questions = needing block payer whom now self.old.questions }) }
        ensures full { (result ≡ Err Fault.Full)
            ↔ ((is_wanted block self.old.questions ≡ false)
            × (has_room self.old.replicas payer self.old.questions ≡ false)) }
        ensures refused { OnErr result ((result ≡ Err Fault.Full) ⊎ (result ≡ Err Fault.Memory)) }
        ensures unchanged { OnErr result (self.new ≡ self.old) }
    {
        if self.is_wanted(&block) {
            return Ok(());
        }
        if !self.has_room(payer) {
            return Err(Fault::Full);
        }
        self.questions
            .push(Question::new(self.alloc, block, payer, whom, now))?;
        Ok(())
    }

    /// How many bytes of copies are kept on a replica's account.
    fn kept_for(&self, payer: ReplicaId) -> usize
        ensures kept { result ≡ kept_for payer self.now.questions }
        ensures few { result ≤ MOST_COPY_BYTES }
    {
        let mut kept = 0;
        for question in &self.questions {
            if question.payer() == payer {
                kept += question.size();
            }
        }
        kept
    }

    /// Whether so many bytes of a copy have room on the account of its block.
    fn fits(&self, block: &Digest, bytes: usize) -> bool
        ensures { result ≡ fits block.now bytes self.now.questions }
    {
        match self.question(block) {
            Some(question) => bytes <= MOST_COPY_BYTES - self.kept_for(question.payer()),
            None => false,
        }
    }

    /// Whether a copy of a block of so many bytes may wait for the block below it: those that do take half of an account at
    /// most.
    pub fn may_wait(&self, block: &Digest, bytes: usize) -> bool
        ensures { result ≡ may_wait block.now bytes self.now.questions }
    {
        let most = MOST_COPY_BYTES / 2;
        match self.question(block) {
            Some(question) => {
                let kept = self.kept_for(question.payer());
                kept <= most && bytes <= most - kept
            }
            None => false,
        }
    }

    /// Whether a replica's account has room for one more block of those that are asked for ahead, from what others recorded.
    pub fn has_room_ahead(&self, payer: ReplicaId) -> bool
        ensures { result ≡ has_room_ahead payer self.now.questions }
    {
        self.count_of(payer) < MOST_ASKED_AHEAD
    }

    /// The first block whose copies wait for this one.
    pub fn above(&self, block: &Digest) -> Option<Digest>
        ensures { result ≡ above block.now self.now.questions }
    {
        let question = self
            .questions
            .iter()
            .find(|question| question.waits_for(block))?;
        Some(question.block())
    }

    /// The place of the question for a block, of which one more copy of so many bytes may be kept.
    fn place_to_keep(&self, block: &Digest, sender: ReplicaId, bytes: usize) -> Result<usize, Fault>
        ensures place { IfOk result (λ place. position (is_for block.now) self.now.questions ≡ Some place) }
        ensures refused { MatchOption (why_no_copy self.now block.now sender bytes) (IsOk result)
            (λ fault. result ≡ Err fault) }
    {
        let Some(place) = self.place_of(block) else {
            return Err(Fault::NotMine);
        };
        if sender.0 >= self.replicas {
            return Err(Fault::NotMine);
        }
        if !self.fits(block, bytes) {
            return Err(Fault::Full);
        }
        Ok(place)
    }

    /// Keeps a copy of a block that is wanted, which takes the place of the sender's earlier one. It tells of how many
    /// senders there are copies now.
    ///
    /// `NotMine` comes first, where the block isn't wanted or the sender is no replica; then `Full`, where the payer's
    /// account has no room for so many bytes; then `Memory`.
    pub fn keep(&mut self, block: &Digest, sender: ReplicaId, frame: Bytes) -> Result<usize, Fault>
        ensures kept { OnOk result (self.new
            ≡ record self.old { questions = changed block.now (with_copy_of sender frame) self.old.questions }) }
        ensures count { IfOk result (λ count.
            option_map (λ q. length q.copies) (find (is_for block.now) self.new.questions) ≡ Some count) }
        ensures refused { MatchOption (why_no_copy self.old block.now sender (length frame))
            (OnErr result (result ≡ Err Fault.Memory)) (λ fault. result ≡ Err fault) }
        ensures unchanged { OnErr result (self.new ≡ self.old) }
    {
        let place = self.place_to_keep(block, sender, frame.len())?;
        Ok(self.questions[place].keep(sender, frame)?)
    }

    /// Takes the question for a block out.
    fn take_out(&mut self, block: &Digest)
        ensures { self.new ≡ record self.old {
          questions = filter (λ q. not (is_for block.now q)) self.old.questions;
        } }
    {
        let block = *block;
        self.questions.retain(
            |question: &Question| -> bool
                ensures { result ≡ not (is_for block question.now) }
            { !question.is_for(&block) },
        );
    }

    /// What waits for a block waits no longer.
    fn release_all(&mut self, block: &Digest)
        ensures { self.new ≡ record self.old { questions = map (released block.now) self.old.questions } }
    {
        for question in self.questions.iter_mut() {
            question.release(block);
        }
    }

    /// A block is wanted no longer. What waited for it waits no longer.
    fn drop_question(&mut self, block: &Digest)
        ensures { self.new ≡ record self.old { questions = closed block.now self.old.questions } }
    {
        self.take_out(block);
        self.release_all(block);
    }

    /// Takes the questions on a replica's account out.
    fn take_out_of(&mut self, payer: ReplicaId)
        ensures { self.new ≡ record self.old {
          questions = filter (λ q. not (is_paid_by payer q)) self.old.questions;
        } }
    {
        self.questions.retain(
            |question: &Question| -> bool
                ensures { result ≡ not (is_paid_by payer question.now) }
            { question.payer() != payer },
        );
    }

    /// Nothing waits any more.
    fn free_all(&mut self)
        ensures { self.new ≡ record self.old { questions = map freed self.old.questions } }
    {
        for question in self.questions.iter_mut() {
            question.free();
        }
    }

    /// Nothing is wanted on a replica's account any more. No copies wait: those on others' accounts may wait for one of these.
    pub fn forget(&mut self, payer: ReplicaId)
        ensures { self.new ≡ record self.old { questions = forgotten payer self.old.questions } }
    {
        self.take_out_of(payer);
        self.free_all();
    }

    /// When a block was asked for first, while no answer came.
    fn asked_for(&self, block: &Digest) -> Option<u64>
        ensures { result ≡ asked_for block.now self.now.questions }
    {
        self.question(block)?.asked()
    }

    /// A block was taken: it is wanted no longer, and what waited for it waits no longer. Where it was asked for, it tells how
    /// long an answer takes.
    pub fn close(&mut self, block: &Digest, now: u64)
        ensures { self.new ≡ taken now block.now self.old }
    {
        let asked = self.asked_for(block);
        self.drop_question(block);
        if let Some(asked) = asked {
            self.pace.answered(now.saturating_sub(asked));
        }
    }

    /// For how many milliseconds an answer is awaited at first: twice as long as the last one took, as far as that isn't
    /// much less than before.
    pub fn wait(&self) -> u64
        ensures { result ≡ self.now.pace.wait }
    {
        self.pace.wait()
    }

    /// The oldest block that was asked for in vain as often as may be.
    fn vain(&self, now: u64) -> Option<Digest>
        ensures { result ≡ option_map (λ q. q.block) (find (is_vain now) self.now.questions) }
    {
        let question = self
            .questions
            .iter()
            .find(|question| question.is_vain(now))?;
        Some(question.block())
    }

    /// Gives the oldest of these up.
    fn give_up(&mut self, now: u64)
        ensures { self.new ≡ record self.old { questions = given_up now self.old.questions } }
    {
        if let Some(block) = self.vain(now) {
            self.drop_question(&block);
        }
    }

    /// All others are asked for a block at once, where one was asked for it, or is to be first: no copy that came was right.
    pub fn hasten(&mut self, block: &Digest, now: u64)
        ensures { self.new ≡ record self.old { questions = changed block.now (hastened now) self.old.questions } }
    {
        if let Some(place) = self.place_of(block) {
            self.questions[place].hasten(now);
        }
    }

    /// The copies of a block wait for another one, while that is wanted: so long it isn't asked for. The other one
    /// stands below it.
    pub fn wait_for(&mut self, block: &Digest, parent: Digest)
        ensures { self.new ≡ (if is_wanted parent self.old.questions
            then record self.old { questions = changed block.now (waiting_for parent) self.old.questions }
            else self.old) }
    {
        if !self.is_wanted(&parent) {
            return;
        }
        if let Some(place) = self.place_of(block) {
            self.questions[place].wait_for(parent);
        }
    }

    /// Whether the question at a place comes before another one, if there is another.
    fn is_sooner(&self, place: usize, other: Option<usize>) -> bool
        requires place { place < length self.now.questions }
        requires other { IfSome other (λ k. k < length self.now.questions) }
        ensures { (p : Question) → slice_get self.now.questions place ≡ Some p
            → IsSoonerThan self.now p other result }
    {
        let Some(other) = other else {
            return true;
        };
        let (question, other) = (&self.questions[place], &self.questions[other]);
        let own = places_behind(self.replicas, self.turn, question.payer());
        let others = places_behind(self.replicas, self.turn, other.payer());
        own < others || own == others && question.due() < other.due()
    }

    /// The first of those that are due, where the first of those before a place is known.
    fn first_with(&self, first: Option<usize>, place: usize, now: u64) -> Option<usize>
        requires place { place < length self.now.questions }
        requires first { IsFirstOf self.now now place first }
        ensures { IsFirstOf self.now now (place + 1) result }
    {
        if self.questions[place].is_due(now) && self.is_sooner(place, first) {
            Some(place)
        } else {
            first
        }
    }

    /// The place of the question that is asked next.
    fn next_place(&self, now: u64) -> Option<usize>
        ensures { IsFirstOf self.now now (length self.now.questions) result }
    {
        let mut first = None;
        for place in 0..self.questions.len() {
            first = self.first_with(first, place, now);
        }
        first
    }

    /// Asks the question that is next, where one may go out.
    fn ask(&mut self, now: u64) -> Option<Ask>
        ensures asks { IfSome result (λ ask. Asks self.old now ask self.new) }
        ensures none { IfNone result ((self.new ≡ self.old)
            × ((allows (blocks_among self.old.replicas) now self.old.pace ≡ false) ⊎ NoneDue self.old now)) }
    {
        let most = blocks_among(self.replicas);
        if !self.pace.allows(most, now) {
            return None;
        }
        let place = self.next_place(now)?;
        let wait = self.pace.wait();
        self.pace.count(most, now);
        self.turn = one_behind(self.replicas, self.questions[place].payer());
        Some(self.questions[place].ask(now, wait))
    }

    /// The next question, if one is due and may go out. It counts as asked: who is named is asked, or all others where
    /// nobody is. The oldest block that was asked for in vain as often as may be is given up first.
    pub fn next(&mut self, now: u64) -> Option<Ask>
        ensures asks { IfSome result (λ ask. Asks (having_given_up now self.old) now ask self.new) }
        ensures none { IfNone result ((self.new ≡ having_given_up now self.old)
            × ((allows (blocks_among self.old.replicas) now self.old.pace ≡ false) ⊎ NoneDue self.new now)) }
    {
        self.give_up(now);
        self.ask(now)
    }
}
