//! One question.

ghost use Rattle.std.specs.Prelude.{◌≡◌, ◌+◌, ◌-◌, ◌<◌, ◌≤◌, ◌^◌, ◌*◌, ◌&&◌, ◌==◌, count_by, IfOk, OnErr, OnOk, length};
ghost use Rattle.std.specs.Prelude.{not, filter, nat_lt, nat_le};
ghost use Rattle.asking.specs.Asking.{ask_of, asked_at, freed, hastened, is_due, is_for, is_from, is_vain, later, new_question};
ghost use Rattle.asking.specs.Asking.{pause_of, released, size_of, waiting_for, waits_for, with_copy_of};
ghost use Rattle.tuning.specs.declared.asking.TheConstants.{MOST_COPY_BYTES, MOST_TIMES_ASKED};

use crate::ask::Ask;
use crate::block_copy::BlockCopy;
use bytes::Bytes;
use ids::{Digest, ReplicaId};
use std::alloc::{AllocError, Global};
use std::marker::Model;
use tuning::{MOST_ASK_AGAIN_MILLIS, MOST_TIMES_ASKED};

/// A block that lacks.
#[derive(Drop)]
pub(crate) struct Question {
    block: Digest,
    /// Whose frame made the replica ask.
    payer: ReplicaId,
    /// Whom the first question goes to. None: to all, as each later one.
    whom: Option<ReplicaId>,
    /// How often it was asked.
    times: u8,
    /// When it was asked first, while no answer came.
    asked: Option<u64>,
    /// When the next question may go out, in milliseconds.
    due: u64,
    /// The block for which the copies wait.
    behind: Option<Digest>,
    copies: Vec<BlockCopy>,
}

impl Model for Question {
    ghost use Rattle.asking.specs.Asking as asking;
    ghost use Rattle.std.specs.Prelude.{◌≤◌};
    ghost use Rattle.tuning.specs.declared.asking.TheConstants.{MOST_TIMES_ASKED};

    ghost Value = { asking.Question };

    ghost view = { λ q. record {
      block = q.block;
      payer = q.payer;
      whom = q.whom;
      times = q.times;
      asked = q.asked;
      due = q.due;
      behind = q.behind;
      copies = q.copies.items;
    } };

    ghost invariant = { λ q. q.times ≤ MOST_TIMES_ASKED };
}

/// When so many milliseconds have passed.
fn later(now: u64, millis: u64) -> u64
    ensures { result ≡ later now millis }
{
    now.saturating_add(millis)
}

/// For how long the answer to a question is awaited that was asked so often.
fn pause_of(wait: u64, times: u8) -> u64
    ensures { result ≡ pause_of wait times }
{
    wait.saturating_mul(u64::from(times))
        .min(MOST_ASK_AGAIN_MILLIS)
}

impl Question {
    /// It wasn't asked yet, and may be at once.
    pub(crate) fn new(
        alloc: Global,
        block: Digest,
        payer: ReplicaId,
        whom: Option<ReplicaId>,
        now: u64,
    ) -> Question
        ensures { result ≡ new_question block payer whom now }
    {
        Question {
            block,
            payer,
            whom,
            times: 0,
            asked: None,
            due: now,
            behind: None,
            copies: Vec::new(alloc),
        }
    }

    /// The block.
    pub(crate) fn block(&self) -> Digest
        ensures { result ≡ self.now.block }
    {
        self.block
    }

    /// Whether it is for this block.
    pub(crate) fn is_for(&self, block: &Digest) -> bool
        ensures { result ≡ is_for block.now self.now }
    {
        self.block == *block
    }

    /// On whose account it is.
    pub(crate) fn payer(&self) -> ReplicaId
        ensures { result ≡ self.now.payer }
    {
        self.payer
    }

    /// When it was asked first, while no answer came.
    pub(crate) fn asked(&self) -> Option<u64>
        ensures { result ≡ self.now.asked }
    {
        self.asked
    }

    /// When it is due.
    pub(crate) fn due(&self) -> u64
        ensures { result ≡ self.now.due }
    {
        self.due
    }

    /// The copies that came.
    pub(crate) fn copies(&self) -> &[BlockCopy]
        ensures { result.now ≡ self.now.copies }
    {
        &self.copies
    }

    /// Whether it may be asked.
    pub(crate) fn is_due(&self, now: u64) -> bool
        ensures { result ≡ is_due now self.now }
    {
        self.due <= now && self.behind.is_none() && self.times < MOST_TIMES_ASKED
    }

    /// Whether it was asked in vain as often as may be.
    pub(crate) fn is_vain(&self, now: u64) -> bool
        ensures { result ≡ is_vain now self.now }
    {
        self.due <= now && self.behind.is_none() && self.times >= MOST_TIMES_ASKED
    }

    /// Asks. The answer to the first question is awaited for so many milliseconds.
    pub(crate) fn ask(&mut self, now: u64, wait: u64) -> Ask
        requires { self.old.times < MOST_TIMES_ASKED }
        ensures ask { result ≡ ask_of self.old }
        ensures asked { self.new ≡ asked_at now wait self.old }
    {
        let is_again = self.times > 0;
        let ask = Ask {
            block: self.block,
            to: if is_again { None } else { self.whom },
            is_again,
        };
        if !is_again {
            self.asked = Some(now);
        }
        self.times += 1;
        self.due = later(now, pause_of(wait, self.times));
        ask
    }

    /// All are to be asked at once, where one was asked or is to be asked first, and all weren't.
    pub(crate) fn hasten(&mut self, now: u64)
        ensures { self.new ≡ hastened now self.old }
    {
        if self.times <= 1 && self.whom.is_some() {
            self.whom = None;
            self.due = now;
        }
    }

    /// An answer came, and waits for a block.
    pub(crate) fn wait_for(&mut self, parent: Digest)
        ensures { self.new ≡ waiting_for parent self.old }
    {
        self.asked = None;
        self.behind = Some(parent);
    }

    /// Whether the copies wait for this block.
    pub(crate) fn waits_for(&self, parent: &Digest) -> bool
        ensures { result ≡ waits_for parent.now self.now }
    {
        match &self.behind {
            Some(block) => *block == *parent,
            None => false,
        }
    }

    /// They wait for this block no longer.
    pub(crate) fn release(&mut self, parent: &Digest)
        ensures { self.new ≡ released parent.now self.old }
    {
        if self.waits_for(parent) {
            self.behind = None;
        }
    }

    /// They wait for no block any more.
    pub(crate) fn free(&mut self)
        ensures { self.new ≡ freed self.old }
    {
        self.behind = None;
    }

    /// How many bytes the copies have, which are few.
    pub(crate) fn size(&self) -> usize
        requires { size_of self.now.copies ≤ MOST_COPY_BYTES }
        ensures { result ≡ size_of self.now.copies }
    {
        let mut size = 0;
        for copy in &self.copies {
            size += copy.frame.len();
        }
        size
    }

    /// Keeps one more copy, in the place of its sender's. Where memory is refused, nothing changes.
    pub(crate) fn keep(&mut self, sender: ReplicaId, frame: Bytes) -> Result<usize, AllocError>
        ensures kept { OnOk result (self.new ≡ with_copy_of sender frame self.old) }
        ensures count { IfOk result (λ count. count ≡ length self.new.copies) }
        ensures unchanged { OnErr result (self.new ≡ self.old) }
    {
        self.copies.reserve(1)?;
        self.copies.retain(
            |copy: &BlockCopy| -> bool
                ensures { result ≡ not (is_from sender copy.now) }
            { copy.sender != sender },
        );
        self.copies.push_reserved(BlockCopy { sender, frame });
        Ok(self.copies.len())
    }
}
