//! A run that is healed.

ghost use Rattle.std.specs.Prelude.{◌≡◌, ◌==◌, ◌++◌, [], ◌∷◌, not, List, Option, IfOk, OnOk, MatchOption, length, map, drop, take};
ghost use Rattle.std.specs.Prelude.{Some, slice_get, option_map};
ghost use Rattle.definitions.specs.Worlds as worlds;
ghost use Rattle.definitions.specs.Worlds.{Happening, Sent, relay, offer, of_record};
ghost use Rattle.recovery.specs.Correct.{amply, chronicle_of, lock_of};
ghost use Rattle.definitions.specs.States.{is_known};
ghost use Rattle.world_schedule.specs.Outcomes.{shown_frame, shown_sent, TellsOf};
ghost use Rattle.recovery.specs.Healing.{comes_to, offered_to, receivers, sent_since, delivered, delivered_since};
ghost use Rattle.world_schedule.specs.Progress.{HasRun, StandsAt};
ghost use Rattle.world_schedule.specs.Running.{IsRunOf};
ghost use Rattle.world_schedule.specs.Settings.{Holds};
ghost use Rattle.healer.specs.Courses.{Takes, Goes, GoesWhere, Told, ToldWhere, HasReplica, AreCorrect, IsReplicaIn};
ghost use Rattle.healer.specs.Courses.{HasClient};
ghost use Rattle.healer.specs.Asked.{session_of};
ghost use Rattle.healer.specs.Records.{is_of, GoesTo};
ghost use Rattle.ids.specs.Numbers.{kind_number};
ghost use Rattle.signed_frames.specs.Outs.{to_of};
ghost use Rattle.healer.specs.Supplied.{asks_in, lacked};

use client_accept::Session;
use ids::{ClientId, Config, Digest, Fault, Height, Kind, PartyId, ReplicaId};
use replica::{Replica, To};
use std::alloc::Global;
use std::marker::Model;
use world_schedule::{Event, Outcome, Running, SentFrame, Source, World};

/// A run of a schedule that goes on, and the events that healing added to it.
#[derive(Drop)]
pub struct Healer<'a> {
    alloc: Global,
    schedule: &'a [Event],
    running: Running<'a>,
    events: Vec<Event>,
}

impl<'a> Model for Healer<'a> {
    ghost use Rattle.healer.specs.Courses.{Course, IsTheirs};

    ghost Value = { Course };

    ghost view = { λ h. record {
      origin = record { setting = h.running.setting; schedule = h.schedule.now };
      added = h.events.items;
      stand = h.running;
    } };

    ghost invariant = { λ h. IsTheirs (record {
      origin = record { setting = h.running.setting; schedule = h.schedule.now };
      added = h.events.items;
      stand = h.running;
    }) };
}

/// Whether a replica that lacks a block sends a question in this event. Who is to ask itself sends none, and for what
/// is gathered or led from nobody is asked.
fn asks(event: &Event) -> bool
    ensures { result ≡ asks_in event.now }
{
    match event {
        Event::Relay { .. } => true,
        Event::Inject { .. } => true,
        Event::Offer { .. } => true,
        Event::Ask { replica, to, .. } => *replica != *to,
        Event::Submit { .. } => false,
        Event::Timeout(_) => false,
        Event::Beat(_) => false,
        Event::Prune { .. } => false,
        Event::Gather { .. } => false,
        Event::Lead { .. } => false,
    }
}

/// What the last event was answered: a refusal, or none.
fn last_answer(running: &Running<'_>) -> Option<Fault>
    ensures { (hs : List Happening) (w : worlds.World) (a : Option Fault) (more : List (Option Fault))
        → StandsAt running.now hs w → w.answers ≡ a ∷ more → result ≡ a }
{
    match running.answers().last() {
        Some(answer) => *answer,
        None => None,
    }
}

/// Whether a frame of the record is of a kind.
fn is_of(sent: &SentFrame, kind: Kind) -> bool
    ensures { result ≡ (kind_number sent.now.kind == kind_number kind) }
{
    sent.kind.number() == kind.number()
}

/// How many frames were sent.
fn count_frames(running: &Running<'_>) -> usize
    ensures { (hs : List Happening) (w : worlds.World) → StandsAt running.now hs w → result ≡ length w.sent }
{
    running.frames().len()
}

/// Whether memory was refused to the party of an event that was answered so. Where a block was lacking, the question
/// for it, if one was due, shows that it wasn't.
fn lacked_memory(asks: bool, is_silent: bool, answer: Option<Fault>) -> bool
    ensures { result ≡ lacked asks is_silent answer }
{
    match answer {
        Some(Fault::Memory) => true,
        Some(Fault::UnknownParent) => asks && is_silent,
        _ => false,
    }
}

impl<'a> Healer<'a> {
    /// Runs a schedule.
    pub fn new(alloc: Global, world: &'a World, schedule: &'a [Event]) -> Result<Healer<'a>, Fault>
        ensures origin { IfOk result
            (λ h. h.origin ≡ record { setting = world.entry.now; schedule = schedule.entry.now }) }
        ensures ran { IfOk result (λ h. HasRun world.entry.now schedule.entry.now h.stand) }
    {
        let mut running = Running::new(world)?;
        for event in schedule {
            running.happen(event)?;
        }
        Ok(Healer {
            alloc,
            schedule,
            running,
            events: Vec::new(alloc),
        })
    }

    /// Lets an event happen. `Memory` where it was refused to the party, too.
    pub(crate) fn take(&mut self, event: Event) -> Result<(), Fault>
        ensures origin { self.new.origin ≡ self.old.origin }
        ensures taken { OnOk result (Takes self.old event self.new) }
    {
        // For the proof: each party has its own keys.
        self.running.world().holds();
        let before = count_frames(&self.running);
        self.events.reserve(1)?;
        self.running.happen(&event)?;
        let is_silent = count_frames(&self.running) == before;
        let lacked = lacked_memory(asks(&event), is_silent, last_answer(&self.running));
        self.events.push_reserved(event);
        if lacked { Err(Fault::Memory) } else { Ok(()) }
    }

    /// Says that its run is one in a world, and does nothing else.
    pub(crate) fn holds(&self)
        ensures own { self.now.stand.setting ≡ self.now.origin.setting }
        ensures world { Holds self.now.origin.setting }
    {
        // For the proof: few replicas are faulty, and each party has its own keys.
        self.running.world().holds();
    }

    /// Where memory comes from.
    pub(crate) fn alloc(&self) -> Global {
        self.alloc
    }

    /// The sizes of the world.
    pub(crate) fn config(&self) -> Config
        ensures { Told self.now (λ w. result ≡ w.sizes) }
    {
        self.running.world().config()
    }

    /// How many frames were sent.
    pub(crate) fn sent(&self) -> u64
        ensures { Told self.now (λ w. result ≡ length w.sent) }
    {
        count_frames(&self.running) as u64
    }

    /// The record so far.
    pub(crate) fn frames(&self) -> &[SentFrame]
        ensures { Told self.now (λ w. map shown_frame result.now ≡ map shown_sent w.sent) }
    {
        self.running.frames()
    }

    /// A replica as it stands.
    pub(crate) fn replica(&self, number: ReplicaId) -> Option<&Replica>
        ensures { ToldWhere self.now (HasReplica number)
            (λ w. MatchOption result ⊥ (λ r. IsReplicaIn w number r.now)) }
    {
        match self.running.replica(number) {
            Some(archived) => Some(archived.replica()),
            None => None,
        }
    }

    /// The session of a correct client. None where there is no such client.
    pub(crate) fn session(&self, client: ClientId) -> Option<&Session>
        ensures { ToldWhere self.now (HasClient client)
            (λ w. option_map (λ s. s.now.session) result ≡ session_of client w) }
    {
        if self.running.world().is_faulty(PartyId::from(client)) {
            return None;
        }
        self.running.session(client)
    }

    /// Whether a replica isn't faulty.
    fn is_correct(&self, replica: ReplicaId) -> bool
        ensures { Told self.now (λ w. result ≡ not (w.is_faulty replica)) }
    {
        !self.running.world().is_faulty(PartyId::from(replica))
    }

    /// The correct replicas, by their numbers.
    pub(crate) fn correct_replicas(&self) -> Result<Vec<ReplicaId>, Fault>
        ensures { IfOk result (λ rs. Told self.now (AreCorrect rs.items)) }
    {
        let mut correct = Vec::new(self.alloc);
        for number in 0..self.config().n() {
            if self.is_correct(ReplicaId(number)) {
                correct.push(ReplicaId(number))?;
            }
        }
        Ok(correct)
    }

    /// The numbers of the frames of a kind that were sent since there were so many.
    pub(crate) fn sent_since(&self, before: u64, kind: Kind) -> Result<Vec<u64>, Fault>
        ensures { IfOk result (λ ks. Told self.now (λ w. ks.items ≡ sent_since before (is_of kind) w)) }
    {
        let mut numbers = Vec::new(self.alloc);
        let frames = self.frames();
        for number in before..frames.len() as u64 {
            if is_of(&frames[number as usize], kind) {
                numbers.push(number)?;
            }
        }
        Ok(numbers)
    }

    /// The events that healing added, and what the run of the schedule and these came to.
    pub fn finish(self) -> Result<(Vec<Event>, Outcome), Fault>
        ensures ran { IfOk result
            (λ x. IsRunOf self.entry.origin.setting (self.entry.origin.schedule ++ x.0.items) x.1) }
        ensures told { IfOk result (λ x. Told self.entry (λ w. TellsOf w x.1)) }
    {
        // For the proof: the world's keyrings are its parties'.
        self.running.world().holds();
        let Healer {
            alloc: _,
            schedule: _,
            running,
            events,
        } = self;
        let outcome = running.into_outcome()?;
        Ok((events, outcome))
    }
}

/// Each of these frames comes to each of these replicas.
pub(crate) fn bring_to_each(
    healer: &mut Healer<'_>,
    replicas: &[ReplicaId],
    frames: &[u64],
) -> Result<(), Fault>
    ensures origin { healer.new.origin ≡ healer.old.origin }
    ensures came { OnOk result (Goes healer.old (λ w. amply (comes_to replicas.now frames.now)) healer.new) }
{
    for replica in replicas {
        bring_all(healer, PartyId::from(*replica), frames)?;
    }
    Ok(())
}

/// Each of these frames comes to a party.
fn bring_all(healer: &mut Healer<'_>, to: PartyId, frames: &[u64]) -> Result<(), Fault>
    ensures origin { healer.new.origin ≡ healer.old.origin }
    ensures came { OnOk result (Goes healer.old (λ w. amply (map (λ k. relay k to) frames.now)) healer.new) }
{
    for frame in frames {
        healer.take(Event::Relay { frame: *frame, to })?;
    }
    Ok(())
}

/// Each of these frames is offered to each of these replicas, so that its certificate needn't be good there.
pub(crate) fn offer_to_each(
    healer: &mut Healer<'_>,
    replicas: &[ReplicaId],
    frames: &[u64],
) -> Result<(), Fault>
    ensures origin { healer.new.origin ≡ healer.old.origin }
    ensures came { OnOk result (Goes healer.old (λ w. amply (offered_to replicas.now frames.now)) healer.new) }
{
    for replica in replicas {
        offer_all(healer, *replica, frames)?;
    }
    Ok(())
}

/// Each of these frames is offered to a replica.
fn offer_all(healer: &mut Healer<'_>, to: ReplicaId, frames: &[u64]) -> Result<(), Fault>
    ensures origin { healer.new.origin ≡ healer.old.origin }
    ensures came { OnOk result
        (Goes healer.old (λ w. amply (map (λ k. offer to (of_record k)) frames.now)) healer.new) }
{
    for frame in frames {
        let source = Source::Record(*frame);
        healer.take(Event::Offer { to, source })?;
    }
    Ok(())
}

/// To whom a frame of the record goes, if it is of this kind.
fn receiver(healer: &Healer<'_>, frame: u64, kind: Kind) -> Result<Option<To>, Fault>
    ensures { IfOk result
        (λ to. Told healer.now (λ w. (s : Sent) × (slice_get w.sent frame ≡ Some s) × GoesTo kind s to)) }
{
    let frames = healer.frames();
    if frame >= frames.len() as u64 {
        return Err(Fault::NoSuchFrame);
    }
    let sent = &frames[frame as usize];
    if is_of(sent, kind) {
        Ok(Some(sent.to))
    } else {
        Ok(None)
    }
}

/// A frame of the record comes to all correct replicas, or to one party.
fn bring_where(
    healer: &mut Healer<'_>,
    correct: &[ReplicaId],
    frame: u64,
    to: To,
) -> Result<(), Fault>
    ensures origin { healer.new.origin ≡ healer.old.origin }
    ensures came { OnOk result (GoesWhere healer.old (AreCorrect correct.now)
        (λ w. amply (comes_to (receivers w (to_of to)) (frame ∷ []))) healer.new) }
{
    match to {
        To::All => bring_to_each(healer, correct, &[frame]),
        To::Replica(replica) => bring_all(healer, PartyId::from(replica), &[frame]),
        To::Client(client) => bring_all(healer, PartyId::from(client), &[frame]),
    }
}

/// A frame of the record comes to whom it goes, if it is of this kind.
fn deliver(
    healer: &mut Healer<'_>,
    correct: &[ReplicaId],
    frame: u64,
    kind: Kind,
) -> Result<(), Fault>
    ensures origin { healer.new.origin ≡ healer.old.origin }
    ensures came { OnOk result (GoesWhere healer.old (AreCorrect correct.now)
        (λ w. amply (delivered (is_of kind) w frame (take 1 (drop frame w.sent)))) healer.new) }
{
    let receiver = receiver(healer, frame, kind)?;
    match receiver {
        Some(to) => bring_where(healer, correct, frame, to),
        None => Ok(()),
    }
}

/// Each frame of a kind that was sent since there were so many comes to whom it goes.
pub(crate) fn deliver_since(
    healer: &mut Healer<'_>,
    correct: &[ReplicaId],
    before: u64,
    kind: Kind,
) -> Result<(), Fault>
    ensures origin { healer.new.origin ≡ healer.old.origin }
    ensures came { OnOk result (GoesWhere healer.old (AreCorrect correct.now)
        (λ w. amply (delivered_since before (is_of kind) w)) healer.new) }
{
    let end = healer.sent();
    for frame in before..end {
        deliver(healer, correct, frame, kind)?;
    }
    Ok(())
}

/// The height of the block that a replica is locked on.
pub(crate) fn lock_height(healer: &Healer<'_>, replica: ReplicaId) -> Height
    ensures { ToldWhere healer.now (HasReplica replica) (λ w. result ≡ length (lock_of w replica)) }
{
    match healer.replica(replica) {
        Some(replica) => replica.lock_height(),
        None => Height(0),
    }
}

/// Whether the block of a digest stands in a replica's window.
pub(crate) fn is_known(healer: &Healer<'_>, replica: ReplicaId, block: &Digest) -> bool
    ensures { ToldWhere healer.now (HasReplica replica) (λ w. result ≡ is_known block.now (chronicle_of w replica)) }
{
    match healer.replica(replica) {
        Some(replica) => replica.knows(block),
        None => false,
    }
}
