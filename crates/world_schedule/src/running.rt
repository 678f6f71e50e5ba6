//! The run of a schedule.

ghost use Rattle.std.specs.Prelude.{◌≡◌, ◌⊎◌, ℕ, List, [], Option, None, length, map, IsTrue, IfOk, IfErr, OnErr};
ghost use Rattle.std.specs.Prelude.{MatchResult};
ghost use Rattle.definitions.specs.Frames.{Frame};
ghost use Rattle.std.specs.List.{AllByRecursion};
ghost use Rattle.definitions.specs.Premises.{IsReadFrom, IsReadIn};
ghost use Rattle.definitions.specs.Worlds as worlds;
ghost use Rattle.linear_law.specs.Law.{SentAreFrames};
ghost use Rattle.definitions.specs.Runs.{refusal};
ghost use Rattle.world_schedule.specs.Settings.{start_of};
ghost use Rattle.world_schedule.specs.Schedules.{has_party, has_frame, has_request, why_refused, event_of};
ghost use Rattle.world_schedule.specs.Schedules.{source_of, sources_of};
ghost use Rattle.world_schedule.specs.Schedules.{IsRefusedFor};
ghost use Rattle.world_schedule.specs.Outcomes.{shown_frame, shown_sent, TellsOf};
ghost use Rattle.world_schedule.specs.Seats.{AreSeated, AreOf, Does};
ghost use Rattle.world_schedule.specs.Progress.{IsAt, GoesOn, StandsAt, Happened, IsReplicaOf, IsSessionOf};
ghost use Rattle.ids.specs.Sizes.{replicas};
ghost use Rattle.definitions.specs.Worlds.{Happening};
ghost use Rattle.std.specs.Prelude.{Some, IsSome, IsOk, MatchOption, ◌<◌, reverse};
ghost use Rattle.world_schedule.specs.Running.{IsRunOf};

use crate::effect::Effect;
use crate::event::{Event, Source};
use crate::journal::Journal;
use crate::outcome::{Outcome, SentFrame};
use crate::parties::Parties;
use crate::sources::{are_there, is_there};
use crate::world::{World, has_party};
use client_accept::Session;
use frames_view::read;
use ids::{ClientId, Config, Fault, ReplicaId};
use mc_lines::read_canonical;
use replica::Archived;
use std::marker::Model;

/// Whether the party that an event names is there.
fn names_party(config: &Config, event: &Event) -> bool
    ensures { result ≡ has_party config.now event.now }
{
    match event {
        Event::Submit { client, .. } => client.0 < config.clients(),
        Event::Relay { to, .. } | Event::Inject { to, .. } => has_party(config, *to),
        Event::Offer { to, .. } | Event::Gather { to, .. } => to.0 < config.n(),
        Event::Timeout(replica)
        | Event::Beat(replica)
        | Event::Prune { replica, .. }
        | Event::Lead { replica, .. } => replica.0 < config.n(),
        Event::Ask { replica, to, .. } => replica.0 < config.n() && to.0 < config.n(),
    }
}

/// Whether each frame that an event names is one of the record.
fn names_frame(sent: &[SentFrame], event: &Event) -> bool
    ensures { result ≡ has_frame (length sent.now) event.now }
{
    match event {
        Event::Relay { frame, .. } => *frame < sent.len() as u64,
        Event::Offer { source, .. } => is_there(sent, source),
        Event::Gather { sources, .. } => are_there(sent, sources),
        _ => true,
    }
}

/// Whether the payload of a submission is a canonical request, and a digest that is asked for as long as one.
fn names_request(event: &Event) -> bool
    ensures { result ≡ has_request event.now }
{
    match event {
        Event::Submit { payload, .. } => read_canonical(payload).is_some(),
        Event::Ask { block, .. } => block.0.as_slice().len() == 32,
        _ => true,
    }
}

/// Why a run refuses an event.
fn refusal(config: &Config, sent: &[SentFrame], event: &Event) -> Option<Fault>
    ensures { result ≡ why_refused config.now (length sent.now) event.now }
{
    if !names_party(config, event) {
        return Some(Fault::NoSuchParty);
    }
    if !names_frame(sent, event) {
        return Some(Fault::NoSuchFrame);
    }
    if !names_request(event) {
        return Some(Fault::NotARequest);
    }
    None
}

/// A run so far.
#[derive(Drop)]
struct State {
    parties: Parties,
    journal: Journal,
}

/// Reads the bytes of a source, if it has any: whether they are a frame.
fn is_frame(config: &Config, source: &Source) -> bool
    ensures { (read : Option Frame) × IsReadFrom config.now (source_of read source.now) }
{
    match source {
        Source::Record(_) => false,
        Source::Bytes(bytes) => read(config, bytes).is_ok(),
    }
}

/// Reads the bytes of sources: whether there is a frame among them.
fn are_frames(config: &Config, sources: &[Source]) -> bool
    ensures { (reads : List (Option Frame))
        × AllByRecursion (IsReadFrom config.now) (sources_of reads sources.now) }
{
    let mut found = false;
    for source in sources {
        found = is_frame(config, source) || found;
    }
    found
}

/// Reads the bytes that an event brings, if any: whether there is a frame among them.
fn brings_frame(config: &Config, event: &Event) -> bool
    ensures { (reads : List (Option Frame)) × IsReadIn config.now (event_of reads event.now) }
{
    match event {
        Event::Inject { bytes, .. } => read(config, bytes).is_ok(),
        Event::Offer { source, .. } => is_frame(config, source),
        Event::Gather { sources, .. } => are_frames(config, sources),
        Event::Submit { .. } => false,
        Event::Relay { .. } => false,
        Event::Timeout(_) => false,
        Event::Beat(_) => false,
        Event::Prune { .. } => false,
        Event::Lead { .. } => false,
        Event::Ask { .. } => false,
    }
}

/// What an event does. Nothing happens to a faulty party.
fn do_event(
    parties: &mut Parties,
    world: &World,
    event: &Event,
    sent: &[SentFrame],
) -> Result<Effect, Fault>
    requires seated { AreSeated world.now parties.old.replicas.items parties.old.sessions.items }
    requires allowed { why_refused world.now.sizes (length sent.now) event.now ≡ None }
    ensures done { IfOk result
        (λ e. (w : worlds.World) → AreOf world.now parties.old.replicas.items parties.old.sessions.items w
        → map shown_frame sent.now ≡ map shown_sent w.sent → SentAreFrames w
        → Does world.now w event.now parties.new.replicas.items parties.new.sessions.items e) }
    ensures memory { OnErr result (result ≡ Err Fault.Memory) }
{
    if world.is_faulty(event.party()) {
        // For the proof: what the event would bring is decided all the same.
        let _read = brings_frame(&world.config(), event);
        return Ok(Effect::only(world.alloc(), None));
    }
    parties.act(world, event, sent)
}

impl State {
    /// A run in which nothing happened.
    fn new(world: &World) -> Result<State, Fault>
        ensures made { IfOk result (λ state. IsAt world.now state (start_of world.now)) }
        ensures memory { OnErr result (result ≡ Err Fault.Memory) }
    {
        let parties = Parties::new(world)?;
        let journal = Journal::new(world.alloc());
        Ok(State { parties, journal })
    }

    /// Whether an event may happen.
    fn allow(&self, world: &World, event: &Event) -> Result<(), Fault>
        ensures { MatchResult result
            (λ _. why_refused world.now.sizes (length self.now.journal.frames.items) event.now ≡ None)
            (λ n. why_refused world.now.sizes (length self.now.journal.frames.items) event.now ≡ Some n) }
    {
        match refusal(&world.config(), self.journal.frames.as_slice(), event) {
            None => Ok(()),
            Some(fault) => Err(fault),
        }
    }

    /// One event.
    fn happen(&mut self, world: &World, event: &Event) -> Result<(), Fault>
        requires { AreSeated world.now self.old.parties.replicas.items self.old.parties.sessions.items }
        ensures { (w : worlds.World) → IsAt world.now self.old w → SentAreFrames w
            → MatchResult result (λ _. GoesOn world.now w event.now self.new)
            (λ n. (n ≡ Fault.Memory) ⊎ (refusal w (event_of [] event.now) ≡ Some n)) }
    {
        if let Err(fault) = self.allow(world, event) {
            return Err(fault);
        }
        let sent = self.journal.frames.as_slice();
        match do_event(&mut self.parties, world, event, sent) {
            Ok(effect) => self.journal.note(effect),
            Err(fault) => Err(fault),
        }
    }

    /// What it came to.
    fn into_outcome(self, world: &World) -> Result<Outcome, Fault>
        ensures told { IfOk result (λ o. (w : worlds.World) → IsAt world.now self w → TellsOf w o) }
        ensures memory { OnErr result (result ≡ Err Fault.Memory) }
    {
        let State { parties, journal } = self;
        let histories = parties.into_histories(world)?;
        Ok(journal.into_outcome(histories))
    }
}

/// A run that goes on one event at a time: all parties of a world, and what was told so far.
///
/// The first refusal ends it: then it has no parties and frames any more, and each further call answers `Memory`.
#[derive(Drop)]
pub struct Running<'a> {
    world: &'a World,
    state: Option<State>,
}

impl<'a> Model for Running<'a> {
    ghost use Rattle.std.specs.Prelude.{IfSome};
    ghost use Rattle.world_schedule.specs.Progress.{Stand, HasCome};

    ghost Value = { Stand };

    ghost view = { λ r. record { setting = r.world.now; state = r.state } };

    ghost invariant = { λ r. IfSome r.state (HasCome r.world.now) };
}

impl<'a> Running<'a> {
    /// Nothing has happened yet.
    pub fn new(world: &'a World) -> Result<Running<'a>, Fault>
        ensures made { IfOk result (λ r. StandsAt r [] (start_of world.entry.now)) }
        ensures setting { IfOk result (λ r. r.setting ≡ world.entry.now) }
        ensures memory { OnErr result (result ≡ Err Fault.Memory) }
    {
        let state = State::new(world)?;
        Ok(Running {
            world,
            state: Some(state),
        })
    }

    /// Lets an event happen, or answers why it is refused, as `run` does.
    pub fn happen(&mut self, event: &Event) -> Result<(), Fault>
        ensures same { self.new.setting ≡ self.old.setting }
        ensures goes { IsOk result → IsSome self.old.state }
        ensures over { OnErr result (self.new.state ≡ None) }
        ensures happened { (hs : List Happening) (w : worlds.World) → StandsAt self.old hs w
            → MatchResult result (λ _. Happened self.old.setting hs w event.now self.new)
            (λ n. (n ≡ Fault.Memory) ⊎ (refusal w (event_of [] event.now) ≡ Some n)) }
    {
        // For the proof: the world's keyrings are its parties'.
        self.world.holds();
        let Some(mut state) = self.state.take() else {
            return Err(Fault::Memory);
        };
        if let Err(fault) = state.happen(self.world, event) {
            return Err(fault);
        }
        self.state = Some(state);
        Ok(())
    }

    /// The world that it is of.
    pub fn world(&self) -> &'a World
        ensures { result.now ≡ self.now.setting }
    {
        self.world
    }

    /// The record so far: what correct parties sent, in its order.
    pub fn frames(&self) -> &[SentFrame]
        ensures { (hs : List Happening) (w : worlds.World) → StandsAt self.now hs w
            → map shown_frame result.now ≡ map shown_sent w.sent }
    {
        match &self.state {
            Some(state) => state.journal.frames.as_slice(),
            None => &[],
        }
    }

    /// A replica as it stands now. That of a faulty party has done nothing.
    pub fn replica(&self, number: ReplicaId) -> Option<&Archived>
        ensures { (hs : List Happening) (w : worlds.World) → StandsAt self.now hs w
            → number < replicas self.now.setting.sizes
            → MatchOption result ⊥ (λ r. IsReplicaOf self.now.setting w number r.now) }
    {
        match &self.state {
            Some(state) => state.parties.replica(number),
            None => None,
        }
    }

    /// The session of a client as it stands now.
    pub fn session(&self, client: ClientId) -> Option<&Session>
        ensures { (hs : List Happening) (w : worlds.World) → StandsAt self.now hs w
            → client < self.now.setting.sizes.clients
            → MatchOption result ⊥ (λ s. IsSessionOf self.now.setting w client s.now) }
    {
        match &self.state {
            Some(state) => state.parties.session(client),
            None => None,
        }
    }

    /// What each event so far was answered: a refusal, or none.
    pub fn answers(&self) -> &[Option<Fault>]
        ensures { (hs : List Happening) (w : worlds.World) → StandsAt self.now hs w
            → result.now ≡ reverse w.answers }
    {
        match &self.state {
            Some(state) => state.journal.answers.as_slice(),
            None => &[],
        }
    }

    /// What it came to.
    pub fn into_outcome(self) -> Result<Outcome, Fault>
        ensures told { IfOk result
            (λ o. (hs : List Happening) (w : worlds.World) → StandsAt self.entry hs w → TellsOf w o) }
        ensures goes { IsOk result → IsSome self.entry.state }
        ensures memory { OnErr result (result ≡ Err Fault.Memory) }
    {
        let Running { world, state } = self;
        match state {
            Some(state) => state.into_outcome(world),
            None => Err(Fault::Memory),
        }
    }
}

/// Runs a schedule in a world whose parties have done nothing yet.
///
/// The first event that names no party is refused with `NoSuchParty`, one that names no frame of
/// the record with `NoSuchFrame`, a submission whose payload isn't the canonical text of a request
/// with `NotARequest`, tested in this order, of events at faulty parties too, which else do
/// nothing. What a party refuses is the event's answer, and the run goes on. `Memory` comes where
/// the run's own memory is refused; where a party's is, that is the event's answer.
pub fn run(world: &World, events: &[Event]) -> Result<Outcome, Fault>
    ensures ran { IfOk result (IsRunOf world.now events.now) }
    ensures refused { IfErr result (λ n. (n ≡ Fault.Memory) ⊎ IsRefusedFor world.now events.now n) }
{
    // For the proof: the world's keyrings are its parties'.
    world.holds();
    let mut running = Running::new(world)?;
    for event in events {
        if let Err(fault) = running.happen(event) {
            return Err(fault);
        }
    }
    running.into_outcome()
}
