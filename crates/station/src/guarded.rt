//! A replica, its doorkeeper, and how many blocks it may hold.

ghost use Rattle.std.specs.Prelude.{◌≡◌, ◌<◌, ◌-◌, ◌⊎◌, ◌&&◌, ◌||◌, Err, IsTrue, MatchBool, MatchOption, length, nat_lt, not, if◌then◌else◌};
ghost use Rattle.std.specs.Bool.{OnFalse, OnTrue};
ghost use Rattle.ids.specs.declared.fault.Fault.TheVariants.{Full, Crowded, Memory};
ghost use Rattle.definitions.specs.Chronicles.{horizon, window};
ghost use Rattle.frames_view.specs.Views.{core_of};
ghost use Rattle.doorkeeper.specs.Doors.{passes, remembered, with_block};
ghost use Rattle.admission.specs.Inputs.{input_of};
ghost use Rattle.locked_replica.specs.Heeding as heeding;
ghost use Rattle.station.specs.Guarding as guarding;
ghost use Rattle.station.specs.Guarding.{IsKeptOut};
ghost use Rattle.locked_replica.specs.Stepping.{WholeStep};
ghost use Rattle.turns.specs.Shares.{Counts};
ghost use Rattle.ids.specs.declared.limits.TheConstants.{BELOW_HORIZON};

use asking::Questions;
use doorkeeper::{Brought, Doorkeeper, brings, climbs_too_far};
use frames_view::CoreView;
use ids::{Digest, Fault, Height, ReplicaId, View};
use locked_replica::{Kept, Share};
use replica::{Input, Out, Replica};
use turns::{Prompt, UnderLock};

/// A kept replica, and who lets blocks in to it. They stand under one lock: to ask, to step and to count is
/// one turn.
#[derive(Drop)]
pub(crate) struct Guarded<'a> {
    pub(crate) kept: Kept<'a>,
    pub(crate) door: Doorkeeper,
    /// Once it holds so many blocks it makes no step any more.
    pub(crate) most_blocks: usize,
    /// Whether its last proposal is out: it took no block, vote or view since.
    pub(crate) is_out: bool,
    /// The blocks that were asked for since they had no grounds.
    pub(crate) questions: Questions,
}

/// Whether by an input a proposal may come to stand, or another block be the one to propose on.
fn moves(input: &Input<'_>) -> bool
    ensures { result ≡ guarding.moves input.now }
{
    matches!(
        input,
        Input::Proposal(_)
            | Input::Block(_)
            | Input::Vote(_)
            | Input::NewView(_)
            | Input::OfferedProposal(_)
            | Input::OfferedBlock(_)
            | Input::Relayed(_)
            | Input::Lead(_)
            | Input::SeenView(_)
    )
}

/// Whether an input comes in where all room is taken: leave to forget.
fn takes_none(input: &Input<'_>) -> bool
    ensures { result ≡ guarding.takes_none input.now }
{
    matches!(input, Input::Prune(_))
}

/// The digest of the block that an input brings.
fn brought_block(input: &Input<'_>) -> Option<Digest>
    ensures { result ≡ guarding.brought_block (input_of input.now) }
{
    let block = match input {
        Input::Proposal(checked) => checked.view().core(),
        Input::Block(checked) => checked.view().core(),
        Input::OfferedProposal(tagged) => tagged.view().core(),
        Input::OfferedBlock(tagged) => tagged.view().core(),
        Input::Relayed(copies) => copies.first().view().core(),
        _ => return None,
    };
    Some(block.digest())
}

/// Whether a step was made that sends something.
fn sends(answer: &Result<Out, Fault>) -> bool
    ensures { result ≡ guarding.sends answer.now }
{
    match answer {
        Ok(out) => !out.sendings().is_empty(),
        Err(_) => false,
    }
}

impl<'a> Guarded<'a> {
    /// The replica.
    pub(crate) fn replica(&self) -> &Replica
        ensures { result.now ≡ record { keys = self.now.kept.keys; replica = self.now.kept.replica } }
    {
        self.kept.replica().replica()
    }

    /// Whether it holds fewer blocks than it may.
    fn has_room(&self) -> bool
        ensures { result ≡ nat_lt (length (window self.now.kept.replica.chronicle)) self.now.most_blocks }
    {
        self.replica().blocks() < self.most_blocks
    }

    /// Why it makes no step any more, if it makes none: the replica stopped, or it holds as many blocks as it may.
    pub(crate) fn stopped(&self) -> Option<Fault> {
        if self.has_room() {
            self.replica().stopped()
        } else {
            Some(Fault::Full)
        }
    }

    /// Whether it leads its view.
    fn leads(&self) -> bool
        ensures { result ≡ guarding.leads self.now.kept }
    {
        let replica = self.replica();
        replica.config().leader(replica.view()) == replica.number()
    }

    /// Whether it is leave to propose for a replica that doesn't lead its view. Who leads may propose an empty block, too,
    /// to climb above what others voted for.
    fn is_vain(&self, input: &Input<'_>) -> bool
        ensures { result ≡ guarding.is_vain self.now.kept input.now }
    {
        matches!(input, Input::Beat) && !self.leads()
    }

    /// Whether a vote for a proposal of this view would be careless. One of another view than the replica's, or no higher than
    /// what it voted for, finds no vote anyway: it may bring a block that the replica lacks.
    fn is_careless_in(&self, view: View, core: &CoreView<'_>) -> bool
        ensures { result ≡ guarding.is_careless_in self.now.kept view (core_of core.now) }
    {
        let replica = self.replica();
        replica.view() == view && replica.voted().0 < core.height().0 && replica.is_careless(core)
    }

    /// Whether it is a proposal for which a vote would be careless.
    fn is_careless(&self, input: &Input<'_>) -> bool
        ensures { result ≡ guarding.is_careless self.now.kept (input_of input.now) }
    {
        match input {
            Input::Proposal(checked) => {
                let proposal = checked.view();
                self.is_careless_in(proposal.view(), &proposal.core())
            }
            Input::OfferedProposal(tagged) => {
                let proposal = tagged.view();
                self.is_careless_in(proposal.view(), &proposal.core())
            }
            _ => false,
        }
    }

    /// Why an input is refused before the doorkeeper counts, if it is: a vain beat, a block that climbs too far, or a
    /// careless proposal.
    fn refusal(&self, input: &Input<'_>) -> Option<Fault>
        ensures { result ≡ guarding.refusal self.now.kept input.now }
    {
        if self.is_vain(input) {
            Some(Fault::NotMine)
        } else if climbs_too_far(input, self.replica().view()) {
            Some(Fault::BadHeight)
        } else if self.is_careless(input) {
            Some(Fault::WrongJustify)
        } else {
            None
        }
    }

    /// On whose account a block comes, where it was asked for.
    fn payer(&self, input: &Input<'_>) -> Option<ReplicaId> {
        if self.questions.is_empty() {
            return None;
        }
        self.questions.payer(&brought_block(input)?)
    }

    /// Whether it brings a block that stands: one more frame with it takes no room.
    fn stands(&self, input: &Input<'_>) -> bool
        ensures { result ≡ guarding.stands self.now.kept input.now }
    {
        match brought_block(input) {
            Some(block) => self.replica().knows(&block),
            None => false,
        }
    }

    /// A step, after which it is known whether the last proposal is out.
    fn step_and_note(&mut self, share: &mut Share, input: Input<'_>) -> Result<Out, Fault>
        ensures stepped { WholeStep self.old.kept share.old input.entry result self.new.kept share.new }
        ensures counts { Counts share.old result share.new }
        ensures door { self.new.door ≡ self.old.door }
        ensures limit { self.new.most_blocks ≡ self.old.most_blocks }
        ensures out { self.new.is_out ≡ guarding.out_after self.old.is_out input.entry result }
    {
        let (moves, is_beat) = (moves(&input), matches!(input, Input::Beat));
        let answer = UnderLock::step(&mut self.kept, share, input);
        if moves && answer.is_ok() {
            self.is_out = false;
        } else if is_beat && sends(&answer) {
            self.is_out = true;
        }
        answer
    }

    /// A step with a block that was let in. It is counted where the replica took it: then more blocks stand in its
    /// window.
    fn take_in(
        &mut self,
        share: &mut Share,
        input: Input<'_>,
        block: &Brought,
    ) -> Result<Out, Fault>
        requires passes { IsTrue (passes self.old.door.replicas block.now self.old.door.taken) }
        requires room { 0 < self.old.door.room }
        ensures stepped { WholeStep self.old.kept share.old input.entry result self.new.kept share.new }
        ensures counts { Counts share.old result share.new }
        ensures counted { self.new.door.taken
            ≡ (if nat_lt (length (window self.old.kept.replica.chronicle))
            (length (window self.new.kept.replica.chronicle))
            then with_block self.old.door.base block.now self.old.door.taken
            else self.old.door.taken) }
        ensures out { self.new.is_out ≡ guarding.out_after self.old.is_out input.entry result }
    {
        let before = self.replica().blocks();
        let answer = self.step_and_note(share, input);
        if self.replica().blocks() > before {
            self.door.took(block);
        }
        answer
    }

    /// A step with a block, where the doorkeeper lets it in, or it stands already.
    fn take(&mut self, share: &mut Share, input: Input<'_>, block: &Brought) -> Result<Out, Fault>
        ensures stepped { WholeStep self.old.kept share.old input.entry result self.new.kept share.new
            ⊎ IsKeptOut self.old.kept share.old input.entry result self.new.kept share.new }
        ensures counts { Counts share.old result share.new }
        ensures kept_out { OnFalse (passes self.old.door.replicas block.now self.old.door.taken)
            (OnFalse (guarding.stands self.old.kept input.entry)
            ((result ≡ Err Crowded) × (self.new.kept ≡ self.old.kept))) }
        ensures counted { OnTrue (passes self.old.door.replicas block.now self.old.door.taken)
            (self.new.door.taken
            ≡ (if nat_lt (length (window self.old.kept.replica.chronicle))
            (length (window self.new.kept.replica.chronicle))
            then with_block self.old.door.base block.now self.old.door.taken
            else self.old.door.taken)) }
        ensures out { self.new.is_out ≡ guarding.out_after self.old.is_out input.entry result }
    {
        if !self.door.passes(block) && self.stands(&input) {
            return self.step_and_note(share, input);
        }
        self.door.let_in(block)?;
        self.take_in(share, input, block)
    }

    /// A step without a block. What the replica forgets by it the doorkeeper forgets too.
    fn note(&mut self, share: &mut Share, input: Input<'_>) -> Result<Out, Fault>
        ensures stepped { WholeStep self.old.kept share.old input.entry result self.new.kept share.new }
        ensures counts { Counts share.old result share.new }
        ensures forgotten { self.new.door.taken
            ≡ remembered (horizon self.new.kept.replica.chronicle - BELOW_HORIZON) self.old.door.taken }
        ensures out { self.new.is_out ≡ guarding.out_after self.old.is_out input.entry result }
    {
        let answer = self.step_and_note(share, input);
        let horizon = self.replica().horizon();
        self.door.forget_below(horizon.lowest_kept());
        answer
    }
}

/// Each step is one of the replica, or is refused: with `Full` where it holds as many blocks as it may, unless it is to
/// forget; with `NotMine`
/// for a beat of a replica that doesn't lead; with `BadHeight` for a block that climbs too far; with
/// `WrongJustify` for a proposal that it would vote for, of which a block justifies one below the lock; and for a block that
/// doesn't stand yet and that the doorkeeper doesn't let in with `Crowded`, or with `Memory` where it couldn't be counted. A
/// block that is refused is lost, as on any network.
///
/// It heeds no prompt to propose at once while its last proposal is out: a beat would bring that proposal once more. The
/// clock sends it again.
impl<'a> UnderLock for Guarded<'a> {
    ghost made = { λ old share input answer new share'.
        MatchBool (nat_lt (length (window old.kept.replica.chronicle)) old.most_blocks || guarding.takes_none input)
        (MatchOption (guarding.refusal old.kept input)
        ((WholeStep old.kept share input answer new.kept share' ⊎ IsKeptOut old.kept share input answer new.kept share')
        × (new.is_out ≡ guarding.out_after old.is_out input answer))
        (λ fault. (answer ≡ Err fault) × (new ≡ old) × (share' ≡ share)))
        ((answer ≡ Err Full) × (new ≡ old) × (share' ≡ share)) };

    ghost heeds = { λ guarded prompt.
        nat_lt (length (window guarded.kept.replica.chronicle)) guarded.most_blocks
        && (not (guarded.is_out && guarding.asks_for_proposal prompt) && heeding.heeds guarded.kept prompt) };

    fn step(&mut self, share: &mut Share, input: Input<'_>) -> Result<Out, Fault> {
        if !self.has_room() && !takes_none(&input) {
            return Err(Fault::Full);
        }
        if let Some(fault) = self.refusal(&input) {
            return Err(fault);
        }
        let payer = self.payer(&input);
        match brings(&self.replica().config(), payer, &input) {
            Some(block) => self.take(share, input, &block),
            None => self.note(share, input),
        }
    }

    fn heeds(&self, prompt: Prompt) -> bool {
        let waits = self.is_out && prompt == Prompt::Beat;
        self.has_room() && !waits && self.kept.heeds(prompt)
    }
}
