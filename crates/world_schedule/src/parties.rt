//! The parties of a run.

ghost use Rattle.std.specs.Prelude.{◌≡◌, ◌<◌, ℕ, List, [], ◌∷◌, ◌++◌, None, length, map, IsTrue, IfOk, OnOk};
ghost use Rattle.std.specs.Prelude.{OnErr, option_map, slice_get};
ghost use Rattle.ids.specs.Sizes.{client_party, replicas};
ghost use Rattle.definitions.specs.Keyrings.{is_party_of};
ghost use Rattle.definitions.specs.Canonical.{is_canonical};
ghost use Rattle.std.specs.Borrow.{Bor};
ghost use Rattle.std.specs.List.{list_all};
ghost use Rattle.definitions.specs.Bytes.{Bytes};
ghost use Rattle.admission.specs.Inputs.{input_of};
ghost use Rattle.world_schedule.specs.Turns.{IsMove};
ghost use Rattle.world_schedule.specs.Sources.{AreBytesOf};
ghost use Rattle.definitions.specs.Worlds as worlds;
ghost use Rattle.linear_law.specs.Law.{SentAreFrames};
ghost use Rattle.world_schedule.specs.Settings.{Setting, start_of};
ghost use Rattle.world_schedule.specs.Schedules.{why_refused, has_source};
ghost use Rattle.world_schedule.specs.Outcomes.{shown_frame, shown_sent, told_by, histories_of};
ghost use Rattle.world_schedule.specs.Seats.{EachBelow, IsNewReplica, IsNewSession, AreSeated, AreOf};
ghost use Rattle.world_schedule.specs.Seats.{Brings, Offers, Gathers, Hands, Moves, Acts};

use crate::effect::Effect;
use crate::event::{Event, Source};
use crate::outcome::{History, SentFrame};
use crate::replica_party::ReplicaParty;
use crate::sources::bytes_of;
use crate::way::Way;
use crate::world::World;
use crate::{client, replica_turn};
use client_accept::Session;
use ids::{ClientId, Fault, PartyId, ReplicaId};
use replica::{Archived, Input};

/// All replicas and clients, also the faulty ones, which no event changes.
#[derive(Drop)]
pub(crate) struct Parties {
    pub(crate) replicas: Vec<ReplicaParty>,
    pub(crate) sessions: Vec<Session>,
}

/// The session of a client that has sent nothing.
fn new_session(world: &World, client: ClientId) -> Result<Session, Fault>
    requires { client < world.now.sizes.clients }
    ensures made { IfOk result (IsNewSession world.now client) }
    ensures memory { OnErr result (result ≡ Err Fault.Memory) }
{
    let keyring = world.keyring(client.into()).duplicate(world.alloc())?;
    Ok(Session::new(world.alloc(), world.config(), client, keyring))
}

/// Replicas that have made no step.
#[tactic(auto, using(crate::proofs::Seated::one_more, crate::proofs::Seated::none_below))]
fn new_replicas(world: &World) -> Result<Vec<ReplicaParty>, Fault>
    ensures made { IfOk result
        (λ rs. EachBelow (IsNewReplica world.now) (replicas world.now.sizes) rs.items) }
    ensures memory { OnErr result (result ≡ Err Fault.Memory) }
{
    let mut replicas = Vec::new(world.alloc());
    for i in 0..world.config().n() {
        let replica = ReplicaParty::new(world, ReplicaId(i))?;
        replicas.push(replica)?;
    }
    Ok(replicas)
}

/// Sessions of clients that have sent nothing.
#[tactic(auto, using(crate::proofs::Seated::one_more, crate::proofs::Seated::none_below))]
fn new_sessions(world: &World) -> Result<Vec<Session>, Fault>
    ensures made { IfOk result (λ ss. EachBelow (IsNewSession world.now) world.now.sizes.clients ss.items) }
    ensures memory { OnErr result (result ≡ Err Fault.Memory) }
{
    let mut sessions = Vec::new(world.alloc());
    for i in 0..world.config().clients() {
        let session = new_session(world, ClientId(i))?;
        sessions.push(session)?;
    }
    Ok(sessions)
}

/// Keeps the history of a correct replica.
fn keep_correct(
    world: &World,
    histories: &mut Vec<History>,
    replica: ReplicaParty,
) -> Result<(), Fault>
    ensures kept { OnOk result
        (histories.new.items ≡ histories.old.items ++ told_by world.now (replica ∷ [])) }
    ensures memory { OnErr result (result ≡ Err Fault.Memory) }
{
    if world.is_faulty(replica.replica().number().into()) {
        return Ok(());
    }
    histories.push(History::of(replica.into_replica()))?;
    Ok(())
}

/// The histories of the correct ones.
#[tactic(auto, using(crate::proofs::Telling::told_append))]
fn correct_histories(world: &World, replicas: Vec<ReplicaParty>) -> Result<Vec<History>, Fault>
    ensures made { IfOk result (λ hs. hs.items ≡ told_by world.now replicas.items) }
    ensures memory { OnErr result (result ≡ Err Fault.Memory) }
{
    let mut histories = Vec::new(world.alloc());
    for replica in replicas {
        keep_correct(world, &mut histories, replica)?;
    }
    Ok(histories)
}

impl Parties {
    /// All parties at the start.
    pub(crate) fn new(world: &World) -> Result<Parties, Fault>
        ensures made { IfOk result
            (λ p. AreOf world.now p.replicas.items p.sessions.items (start_of world.now)) }
        ensures memory { OnErr result (result ≡ Err Fault.Memory) }
    {
        let replicas = new_replicas(world)?;
        let sessions = new_sessions(world)?;
        Ok(Parties { replicas, sessions })
    }

    /// Brings bytes to a replica.
    fn bring_to_replica(
        &mut self,
        world: &World,
        to: PartyId,
        bytes: &[u8],
    ) -> Result<Effect, Fault>
        requires seated { AreSeated world.now self.old.replicas.items self.old.sessions.items }
        requires party { IsTrue (is_party_of world.now.sizes to) }
        requires replica { to < replicas world.now.sizes }
        ensures brought { IfOk result
            (λ e. (w : worlds.World) → AreOf world.now self.old.replicas.items self.old.sessions.items w
            → Brings world.now w to bytes.now self.new.replicas.items self.new.sessions.items e) }
        ensures memory { OnErr result (result ≡ Err Fault.Memory) }
    {
        let replica = &mut self.replicas[usize::from(to.0)];
        replica_turn::receive(world.alloc(), replica, Way::Brought, bytes)
    }

    /// Brings bytes to a client, which is the party of this number.
    fn bring_to_client(&mut self, world: &World, to: PartyId, client: u16, bytes: &[u8]) -> Effect
        requires seated { AreSeated world.now self.old.replicas.items self.old.sessions.items }
        requires number { to ≡ client_party client }
        requires party { client < world.now.sizes.clients }
        ensures { (w : worlds.World) → AreOf world.now self.old.replicas.items self.old.sessions.items w
            → Brings world.now w to bytes.now self.new.replicas.items self.new.sessions.items result }
    {
        // For the proof: the world's keyrings are its parties'.
        world.holds();
        let session = &mut self.sessions[usize::from(client)];
        client::receive(world.alloc(), session, bytes)
    }

    /// Brings bytes to a party.
    fn bring(&mut self, world: &World, to: PartyId, bytes: &[u8]) -> Result<Effect, Fault>
        requires seated { AreSeated world.now self.old.replicas.items self.old.sessions.items }
        requires party { IsTrue (is_party_of world.now.sizes to) }
        ensures brought { IfOk result
            (λ e. (w : worlds.World) → AreOf world.now self.old.replicas.items self.old.sessions.items w
            → Brings world.now w to bytes.now self.new.replicas.items self.new.sessions.items e) }
        ensures memory { OnErr result (result ≡ Err Fault.Memory) }
    {
        // For the proof: the world's keyrings are its parties'.
        world.holds();
        match to.client() {
            None => self.bring_to_replica(world, to, bytes),
            Some(client) => Ok(self.bring_to_client(world, to, client, bytes)),
        }
    }

    /// Has a client submit what a payload spells.
    fn submit(&mut self, world: &World, client: ClientId, payload: &[u8]) -> Result<Effect, Fault>
        requires seated { AreSeated world.now self.old.replicas.items self.old.sessions.items }
        requires client { client < world.now.sizes.clients }
        requires request { IsTrue (is_canonical payload.now) }
        ensures submitted { IfOk result
            (λ e. (w : worlds.World) → AreOf world.now self.old.replicas.items self.old.sessions.items w
            → Hands world.now w client payload.now self.new.replicas.items self.new.sessions.items e) }
        ensures memory { OnErr result (result ≡ Err Fault.Memory) }
    {
        let session = &mut self.sessions[usize::from(client.0)];
        client::submit(world.alloc(), session, payload)
    }

    /// Has a replica take an input that no frame brings.
    fn step(&mut self, world: &World, replica: ReplicaId, input: Input<'_>) -> Result<Effect, Fault>
        requires seated { AreSeated world.now self.old.replicas.items self.old.sessions.items }
        requires replica { replica < replicas world.now.sizes }
        requires moves { IsMove world.now.sizes (input_of input) }
        ensures moved { IfOk result
            (λ e. (w : worlds.World) → AreOf world.now self.old.replicas.items self.old.sessions.items w
            → Moves world.now w (input_of input.entry) replica self.new.replicas.items
            self.new.sessions.items e) }
        ensures memory { OnErr result (result ≡ Err Fault.Memory) }
    {
        let replica = &mut self.replicas[usize::from(replica.0)];
        replica_turn::step(world.alloc(), replica, input)
    }

    /// Offers bytes to a replica.
    fn offer(&mut self, world: &World, to: ReplicaId, bytes: &[u8]) -> Result<Effect, Fault>
        requires seated { AreSeated world.now self.old.replicas.items self.old.sessions.items }
        requires replica { to < replicas world.now.sizes }
        ensures offered { IfOk result
            (λ e. (w : worlds.World) → AreOf world.now self.old.replicas.items self.old.sessions.items w
            → Offers world.now w to bytes.now self.new.replicas.items self.new.sessions.items e) }
        ensures memory { OnErr result (result ≡ Err Fault.Memory) }
    {
        let replica = &mut self.replicas[usize::from(to.0)];
        replica_turn::receive(world.alloc(), replica, Way::Offered, bytes)
    }

    /// Brings the frames of these sources to a replica together.
    fn gather(
        &mut self,
        world: &World,
        to: ReplicaId,
        sent: &[SentFrame],
        sources: &[Source],
    ) -> Result<Effect, Fault>
        requires seated { AreSeated world.now self.old.replicas.items self.old.sessions.items }
        requires replica { to < replicas world.now.sizes }
        requires there { IsTrue (list_all (has_source (length sent.now)) sources.now) }
        ensures gathered { IfOk result (λ e. (frames : List (Bor Bytes))
            × AreBytesOf sent.now sources.now frames
            × ((w : worlds.World) → AreOf world.now self.old.replicas.items self.old.sessions.items w
            → Gathers world.now w to frames self.new.replicas.items self.new.sessions.items e)) }
        ensures memory { OnErr result (result ≡ Err Fault.Memory) }
    {
        let replica = &mut self.replicas[usize::from(to.0)];
        replica.take_copies(world.alloc(), sent, sources)
    }

    /// Has the party that an event names take it.
    pub(crate) fn act(
        &mut self,
        world: &World,
        event: &Event,
        sent: &[SentFrame],
    ) -> Result<Effect, Fault>
        requires seated { AreSeated world.now self.old.replicas.items self.old.sessions.items }
        requires allowed { why_refused world.now.sizes (length sent.now) event.now ≡ None }
        ensures acted { IfOk result
            (λ e. (w : worlds.World) → AreOf world.now self.old.replicas.items self.old.sessions.items w
            → map shown_frame sent.now ≡ map shown_sent w.sent → SentAreFrames w
            → Acts world.now w event.now self.new.replicas.items self.new.sessions.items e) }
        ensures memory { OnErr result (result ≡ Err Fault.Memory) }
    {
        // For the proof: the world's keyrings are its parties'.
        world.holds();
        match event {
            Event::Submit { client, payload } => self.submit(world, *client, payload),
            Event::Relay { frame, to } => self.bring(world, *to, &sent[*frame as usize].frame),
            Event::Inject { to, bytes } => self.bring(world, *to, bytes),
            Event::Timeout(replica) => self.step(world, *replica, Input::Timeout),
            Event::Beat(replica) => self.step(world, *replica, Input::Beat),
            Event::Prune { replica, height } => self.step(world, *replica, Input::Prune(*height)),
            Event::Offer { to, source } => self.offer(world, *to, bytes_of(sent, source)),
            Event::Gather { to, sources } => self.gather(world, *to, sent, sources),
            Event::Lead { replica, block } => self.step(world, *replica, Input::Lead(*block)),
            Event::Ask { replica, to, block } => self.step(
                world,
                *replica,
                Input::Ask(*to, *block),
            ),
        }
    }

    /// A replica.
    pub(crate) fn replica(&self, number: ReplicaId) -> Option<&Archived>
        ensures { option_map (λ r. r.now) result ≡ slice_get self.now.replicas.items number }
    {
        match self.replicas.get(usize::from(number.0)) {
            Some(party) => Some(party.archived()),
            None => None,
        }
    }

    /// The session of a client.
    pub(crate) fn session(&self, client: ClientId) -> Option<&Session>
        ensures { option_map (λ s. s.now) result ≡ slice_get self.now.sessions.items client }
    {
        self.sessions.get(usize::from(client.0))
    }

    /// What the correct replicas executed, by their numbers.
    pub(crate) fn into_histories(self, world: &World) -> Result<Vec<History>, Fault>
        ensures told { IfOk result (λ hs. (w : worlds.World)
            → AreOf world.now self.replicas.items self.sessions.items w → hs.items ≡ histories_of w) }
        ensures memory { OnErr result (result ≡ Err Fault.Memory) }
    {
        let Parties {
            replicas,
            sessions: _,
        } = self;
        correct_histories(world, replicas)
    }
}
