//! All of it.

ghost use Rattle.std.specs.Prelude.{◌≡◌, ◌++◌, IfOk, OnOk};
ghost use Rattle.recovery.specs.Healing.{agree_on, heal, highest_locked};
ghost use Rattle.world_schedule.specs.Running.{IsRunOf};
ghost use Rattle.healer.specs.Courses.{Goes, GoesWhere, ToldWhere, HasReplica, HasClient, AreCorrect};
ghost use Rattle.healer.specs.Grounds.{IsGround};
ghost use Rattle.healer.specs.Receipts.{Answers};
ghost use Rattle.healer.specs.Served.{heal_client, AreServed};

use crate::blocks::{rounds, to_climb};
use crate::fetching::{fetch_all, lowest_first};
use crate::healer::Healer;
use crate::leading::{highest_locked, lead_with, lock_of, make_first, over_lock};
use crate::requests::{ask_again, request_of};
use crate::views::{come_to, view_to_come};
use ids::{ClientId, Digest, Fault, Height, ReplicaId};
use recovery::{never_wedged, requests_name_clients, waiting_clients_asked};
use std::alloc::Global;
use world_schedule::{Event, Outcome, World};

/// What a leader leads from: its lock, and the block that justifies that, with its height, and the digests of that and
/// of all below it, the lowest first.
#[derive(Drop)]
struct Ground {
    lock: Digest,
    over: Digest,
    height: Height,
    digests: Vec<Digest>,
}

/// The ground of a leader. `Pruned` where it has forgotten any block.
fn ground_of(healer: &Healer<'_>, leader: ReplicaId) -> Result<Ground, Fault>
    ensures { IfOk result (λ g. ToldWhere healer.now (HasReplica leader)
        (IsGround leader g.lock g.height g.digests.items)) }
{
    let (over, height) = over_lock(healer, leader)?;
    let digests = lowest_first(healer, leader, &over, height)?;
    let lock = lock_of(healer, leader);
    Ok(Ground {
        lock,
        over,
        height,
        digests,
    })
}

/// Frame k is a client's request. The leader, a replica of the highest lock, brings all into a view that it leads. All
/// get what justifies its lock. It leads from its lock, with that request alone, above all that was voted for; and three
/// more blocks decide.
fn agree_under(
    healer: &mut Healer<'_>,
    correct: &[ReplicaId],
    request: u64,
    leader: ReplicaId,
    ground: &Ground,
) -> Result<(), Fault>
    ensures origin { healer.new.origin ≡ healer.old.origin }
    ensures came { OnOk result (GoesWhere healer.old
        (λ w. AreCorrect correct.now w × (leader ≡ highest_locked w correct.now)
        × IsGround leader ground.now.lock ground.now.height ground.now.digests.items w)
        (agree_on request) healer.new) }
{
    let view = view_to_come(healer, correct, leader)?;
    come_to(healer, correct, view)?;
    make_first(healer, correct, leader, ground.height)?;
    fetch_all(healer, correct, &ground.digests)?;
    lead_with(healer, request, leader, ground.lock)?;
    let count = to_climb(healer, correct, leader)?;
    rounds(healer, correct, count, leader)
}

/// All correct replicas agree on a request, which is frame k, under one of them.
fn agree_on(healer: &mut Healer<'_>, correct: &[ReplicaId], request: u64) -> Result<(), Fault>
    ensures origin { healer.new.origin ≡ healer.old.origin }
    ensures came { OnOk result (GoesWhere healer.old (AreCorrect correct.now) (agree_on request) healer.new) }
{
    let leader = highest_locked(healer, correct);
    let ground = ground_of(healer, leader)?;
    agree_under(healer, correct, request, leader, &ground)
}

impl<'a> Healer<'a> {
    /// Brings the client of a request its receipt: frame k of the record is that request.
    ///
    /// So nobody is wedged: what `recovery::never_wedged` promises of healing has come about.
    pub fn heal(&mut self, request: u64) -> Result<(), Fault>
        ensures origin { self.new.origin ≡ self.old.origin }
        ensures came { OnOk result (Goes self.old (heal request) self.new) }
        ensures answers { OnOk result (Answers self.old request self.new) }
    {
        // For the proof: nobody is wedged, and the run is one in a world.
        never_wedged();
        self.holds();
        let correct = self.correct_replicas()?;
        agree_on(self, &correct, request)?;
        ask_again(self, &correct, request)
    }

    /// The same of a client, if it is correct and waits.
    fn heal_client(&mut self, client: ClientId) -> Result<(), Fault>
        ensures origin { self.new.origin ≡ self.old.origin }
        ensures turn { OnOk result (GoesWhere self.old (HasClient client) (heal_client client) self.new) }
    {
        match request_of(self, client) {
            Some(request) => self.heal(request),
            None => Ok(()),
        }
    }
}

/// What healing added to a schedule, and what the run of both came to.
#[derive(Drop)]
pub struct Healed {
    /// The events behind those of the schedule.
    pub events: Vec<Event>,
    pub outcome: Outcome,
}

/// Runs a schedule, and brings each correct client that waits its receipt, one after the other.
pub fn heal_all(alloc: Global, world: &World, schedule: &[Event]) -> Result<Healed, Fault>
    ensures ran { IfOk result (λ h. IsRunOf world.now (schedule.now ++ h.events.items) h.outcome) }
    ensures served { IfOk result (λ h. AreServed world.now schedule.now h.outcome) }
{
    let mut healer = Healer::new(alloc, world, schedule)?;
    for client in 0..world.config().clients() {
        healer.heal_client(ClientId(client))?;
    }
    // For the proof: nobody is wedged, who waits sent its request, and the run is one in a world.
    never_wedged();
    waiting_clients_asked();
    requests_name_clients();
    healer.holds();
    let (events, outcome) = healer.finish()?;
    Ok(Healed { events, outcome })
}
