//! A replica that is kept for several threads.

ghost use Rattle.std.specs.Prelude.{◌≡◌, ◌<◌, ◌+◌, ◌↔◌, ◌++◌, [], ◌∷◌, length, sum, sum_by, IsTrue, IsOk};
ghost use Rattle.std.specs.Prelude.{IfOk, IfErr, OnOk, OnErr, IsErrOf, slice_set, All};
ghost use Rattle.std.specs.Bool.{OnTrue, OnFalse};
ghost use Rattle.definitions.specs.Checks.{identity_of};
ghost use Rattle.definitions.specs.Chronicles.{IsLawful};
ghost use Rattle.replica.specs.Steps.{Stepped};
ghost use Rattle.admission.specs.Inputs.{input_of, same_replica, is_addressed};
ghost use Rattle.marks.specs.Eyes.{IsOwnerOf, putting};
ghost use Rattle.turns.specs.Shares.{with_more_steps, Counts};
ghost use Rattle.locked_replica.specs.Kept.{Holds, is_own, AreAll, gained, mark_of};
ghost use Rattle.locked_replica.specs.Addressed.{may_step};

use crate::closed::{Closed, NotAll};
use crate::once::each_once;
use authenticators::VerifyingKeyring;
use ids::{Fault, ReplicaId};
use marks::{Eye, Marks};
use replica::{Archived, Input, Out};
use std::alloc::Global;
use std::marker::Model;
use std::sync::Mutex;
use turns::Share;

/// A replica, the count of each share made of it, and the eye that owns its mark.
///
/// The counts add up to the steps that stand, and the mark says how many commands were executed.
#[derive(Drop)]
pub struct Kept<'a> {
    replica: Archived,
    shares: Vec<usize>,
    eye: Eye,
    marks: &'a Marks,
}

/// A kept replica under a lock.
pub type Locked<'a> = Mutex<Kept<'a>>;

impl<'a> Model for Kept<'a> {
    ghost use Rattle.std.specs.Prelude.{◌≡◌};
    ghost use Rattle.locked_replica.specs.Kept.{KeptState, Holds};

    ghost Value = { KeptState };

    ghost view = { λ k.
        record { keys = k.replica.keys; replica = k.replica.replica; shares = k.shares.items; eye = k.eye } };

    ghost invariant = { λ k. (k.eye.marks ≡ k.marks.now)
        × Holds (record {
          keys = k.replica.keys;
          replica = k.replica.replica;
          shares = k.shares.items;
          eye = k.eye;
        }) };
}

/// How many commands a replica has executed, as its mark is to say.
fn executed(replica: &Archived) -> u64
    ensures { result ≡ mark_of replica.now.replica }
{
    replica.replica().executed() as u64
}

impl<'a> Kept<'a> {
    /// Keeps a replica that has made no step, and the eye that owns its mark. No share is made of it yet.
    #[tactic(auto, using(crate::proofs::Growth::mark_first))]
    pub fn new(alloc: Global, replica: Archived, eye: Eye, marks: &'a Marks) -> Kept<'a>
        requires no_step { replica.replica.chronicle ≡ [] }
        requires from { eye.marks ≡ marks.now }
        requires owner { (replica.keys.party < marks.now.words) × IsOwnerOf replica.keys.party eye.sight }
        requires put { eye.sight.put ≡ 0 }
        ensures { result ≡ record { keys = replica.keys; replica = replica.replica; shares = []; eye = eye } }
    {
        // For the proof: the replica's chronicle is lawful.
        let _steps = replica.replica().steps();
        Kept {
            replica,
            shares: Vec::new(alloc),
            eye,
            marks,
        }
    }

    /// What holds of each kept replica: its chronicle is lawful, and shares and mark tell of it.
    pub fn holds(&self)
        ensures { Holds self.now }
    {
        // For the proof: a body reads a value whose invariant it claims.
        let _replica = &self.replica;
    }

    /// The replica.
    pub fn replica(&self) -> &Archived
        ensures { result.now ≡ record { keys = self.now.keys; replica = self.now.replica } }
    {
        &self.replica
    }

    /// Which replica it is.
    pub fn number(&self) -> ReplicaId
        ensures { result ≡ self.now.keys.party }
    {
        self.replica.replica().number()
    }

    /// How many steps stand, which the shares made count together.
    pub fn steps(&self) -> usize
        ensures count { result ≡ length self.now.replica.chronicle }
        ensures counted { sum self.now.shares ≡ length self.now.replica.chronicle }
        ensures lawful { IsLawful self.now.keys.sizes self.now.replica.chronicle }
    {
        self.replica.replica().steps()
    }

    /// The next share, which counts no step yet.
    pub fn share(&mut self) -> Result<Share, Fault>
        ensures made { IfOk result
            (λ s. s ≡ record { replica = self.old.keys.party; number = length self.old.shares; count = 0 }) }
        ensures kept { OnOk result (self.new ≡ record self.old { shares = self.old.shares ++ 0 ∷ [] }) }
        ensures unchanged { OnErr result (self.new ≡ self.old) }
        ensures memory { OnErr result (result ≡ Err Fault.Memory) }
    {
        let number = self.shares.len();
        self.shares.push(0)?;
        Ok(Share::new(self.number(), number))
    }

    /// Whether this is one of the shares made, with the count that is kept for it.
    pub fn owns(&self, share: &Share) -> bool
        ensures { result ≡ is_own self.now share.now }
    {
        share.replica() == self.number()
            && share.number() < self.shares.len()
            && self.shares[share.number()] == share.count()
    }

    /// Whether this is a keyring of this replica, at its sizes.
    fn is_mine(&self, keyring: &VerifyingKeyring) -> bool
        ensures { result ≡ same_replica keyring.now self.now.keys }
    {
        keyring.replica() == self.number() && keyring.config() == self.replica.replica().config()
    }

    /// Whether the input was checked for this replica, at its sizes. What didn't come in a frame is for anyone;
    /// who is to be asked has to be a replica.
    pub fn is_addressed(&self, input: &Input) -> bool
        ensures { result ≡ is_addressed self.now.keys input.now }
    {
        match input {
            Input::Proposal(proposal) => self.is_mine(proposal.keyring()),
            Input::Block(block) => self.is_mine(block.keyring()),
            Input::Vote(vote) => self.is_mine(vote.keyring()),
            Input::NewView(announced) => self.is_mine(announced.keyring()),
            Input::Request(request) => self.is_mine(request.keyring()),
            Input::Fetch(asked) => self.is_mine(asked.keyring()),
            Input::OfferedProposal(proposal) => self.is_mine(proposal.keyring()),
            Input::OfferedBlock(block) => self.is_mine(block.keyring()),
            Input::SeenView(announced) => self.is_mine(announced.keyring()),
            Input::Relayed(copies) => self.is_mine(copies.first().keyring()),
            Input::Timeout | Input::Beat | Input::Prune(_) | Input::Lead(_) => true,
            Input::Ask(replica, _) => replica.0 < self.replica.replica().config().n(),
        }
    }

    /// One step of the replica, counted by a share. How far it has executed is put into its mark.
    ///
    /// It is refused with `NotMine` where the input is for another replica, and else with `NotAll`
    /// where the share isn't one of this replica's own.
    #[tactic(auto, using(crate::proofs::Growth::mark_grows))]
    pub fn step(&mut self, share: &mut Share, input: Input<'_>) -> Result<Out, Fault>
        ensures not_mine { OnFalse (is_addressed self.old.keys input.entry) (IsErrOf result Fault.NotMine) }
        ensures not_all { OnTrue (is_addressed self.old.keys input.entry)
            (OnFalse (is_own self.old share.old) (IsErrOf result Fault.NotAll)) }
        ensures unchanged { OnFalse (may_step self.old share.old input.entry) (self.new ≡ self.old) }
        ensures same_share { OnFalse (may_step self.old share.old input.entry) (share.new ≡ share.old) }
        ensures stepped { OnTrue (may_step self.old share.old input.entry)
            (Stepped (identity_of self.old.keys) (input_of input.entry) self.old.replica result
            self.new.replica) }
        ensures share { OnTrue (may_step self.old share.old input.entry)
            (share.new ≡ with_more_steps share.old (gained self.old.replica self.new.replica)) }
        ensures shares { OnTrue (may_step self.old share.old input.entry)
            (self.new.shares ≡ slice_set self.old.shares share.old.number share.new.count) }
        ensures eye { OnTrue (may_step self.old share.old input.entry)
            (self.new.eye ≡ putting self.old.eye self.old.keys.party (mark_of self.new.replica)) }
        ensures keys { self.new.keys ≡ self.old.keys }
        ensures counts { Counts share.old result share.new }
    {
        if !self.is_addressed(&input) {
            return Err(Fault::NotMine);
        }
        if !self.owns(share) {
            return Err(Fault::NotAll);
        }
        let replica = &mut self.replica;
        let before = replica.replica().steps();
        let outcome = replica.step(input);
        share.add(replica.replica().steps() - before);
        self.shares[share.number()] = share.count();
        let (number, length) = (self.replica.replica().number(), executed(&self.replica));
        self.marks.put(&mut self.eye, number, length);
        outcome
    }

    /// Whether each of these is one of the shares made.
    fn owns_all(&self, shares: &[Share]) -> bool
        ensures { IsTrue result ↔ All (λ s. IsTrue (is_own self.now s)) shares.now }
    {
        shares.iter().all(|share| self.owns(share))
    }

    /// How many shares were made.
    fn made(&self) -> usize
        ensures { result ≡ length self.now.shares }
    {
        self.shares.len()
    }

    /// Whether these are all the shares made, each once.
    fn are_all(&self, shares: &[Share]) -> bool
        ensures { IsTrue result ↔ AreAll self.now shares.now }
    {
        self.owns_all(shares) && each_once(self.made(), shares)
    }

    /// Gives the replica and its eye back for all the shares made, each once. Without them all it
    /// hands back what it got.
    pub fn close(self, shares: Vec<Share>) -> Result<Closed, NotAll<'a>>
        ensures exactly { IsOk result ↔ AreAll self.entry shares.items }
        ensures closed { IfOk result
            (λ c. c.replica ≡ record { keys = self.entry.keys; replica = self.entry.replica }) }
        ensures counted { IfOk result
            (λ c. sum_by (λ s. s.count) shares.items ≡ length c.replica.replica.chronicle) }
        ensures eye { IfOk result (λ c. c.eye ≡ self.entry.eye) }
        ensures owner { IfOk result (λ c. IsOwnerOf c.replica.keys.party c.eye.sight
            × (c.eye.sight.put ≡ mark_of c.replica.replica)) }
        ensures kept_back { IfErr result (λ e. e.kept ≡ self.entry) }
        ensures shares_back { IfErr result (λ e. e.shares ≡ shares) }
    {
        if self.are_all(&shares) {
            let Kept {
                replica,
                shares: _,
                eye,
                marks: _,
            } = self;
            Ok(Closed { replica, eye })
        } else {
            Err(NotAll { kept: self, shares })
        }
    }
}
