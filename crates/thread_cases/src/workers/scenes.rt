//! The runs: what is handed in to which replicas, and what is told of it.

ghost use Rattle.std.specs.Prelude.{◌<◌};
ghost use Rattle.ids.specs.Sizes.{replicas};

use crate::workers::frames;
use crate::workers::held::Held;
use crate::workers::runs::{Told, Until, run};
use crate::workers::seen::Seen;
use anyhow::Result;
use bytes::Bytes;
use ids::{Config, ReplicaId};
use std::alloc::Global;
use std::hash::RandomState;
use std::ops::Range;
use std::random::RandomSource;
use std::sync::Wait;
use std::thread::Threads;
use std::time::Clock;

/// A run of workers.
#[derive(Clone, Copy)]
pub(crate) enum Scene {
    /// Two workers of one replica: the turn of frame 1 is held, after its check and before its step,
    /// until frame 2 was stepped. A third frame has a spoilt tag.
    TwoTurns,
    /// The same, held where the replica is stepped: the call for frame 1 waits until that for
    /// frame 2 began.
    TwoCalls,
    /// One proposal, brought twice to one replica.
    OneVote,
    /// A thousand requests for replica 1, whose stand-in answers one of them with a frame to all, one
    /// to replica 2, and one to each client.
    EachOnce,
    /// One request for all replicas, which each of them executes.
    OneSet,
}

/// The questions of these numbers for a replica.
fn questions(
    alloc: Global,
    config: Config,
    to: ReplicaId,
    numbers: Range<u16>,
) -> Result<Vec<(ReplicaId, Bytes)>>
    requires { to < replicas config }
{
    let mut handed = Vec::new(alloc);
    for number in numbers {
        handed.push((to, frames::question(alloc, config, to, number)?))?;
    }
    Ok(handed)
}

/// Questions 1 and 2 for replica 0, and then a frame with a spoilt tag.
fn questions_and_spoilt(alloc: Global, config: Config) -> Result<Vec<(ReplicaId, Bytes)>> {
    let spoilt = frames::spoilt(alloc, config)?;
    let mut handed = questions(alloc, config, ReplicaId(0), 1..3)?;
    handed.push((ReplicaId(0), spoilt))?;
    Ok(handed)
}

/// A thousand requests of client 0 for replica 1, which leads no view.
fn requests(alloc: Global, config: Config) -> Result<Vec<(ReplicaId, Bytes)>> {
    let mut handed = Vec::new(alloc);
    for number in 1..1001 {
        handed.push((ReplicaId(1), frames::set(alloc, config, number)?))?;
    }
    Ok(handed)
}

/// The same frame for each of these replicas.
fn to_each(alloc: Global, replicas: &[u8], frame: Bytes) -> Result<Vec<(ReplicaId, Bytes)>> {
    let mut handed = Vec::new(alloc);
    for replica in replicas {
        handed.push((ReplicaId(*replica), frame.clone()?))?;
    }
    Ok(handed)
}

impl Scene {
    /// What is handed in.
    fn handed(self, alloc: Global, config: Config) -> Result<Vec<(ReplicaId, Bytes)>> {
        match self {
            Scene::TwoTurns => questions_and_spoilt(alloc, config),
            Scene::TwoCalls => questions(alloc, config, ReplicaId(0), 1..3),
            Scene::OneVote => to_each(alloc, &[1, 1], frames::proposal(alloc, config)?),
            Scene::EachOnce => requests(alloc, config),
            Scene::OneSet => to_each(alloc, &[0, 1, 2, 3], frames::set(alloc, config, 1)?),
        }
    }

    /// For which replicas there are workers.
    fn replicas(self) -> Range<u8> {
        match self {
            Scene::TwoTurns | Scene::TwoCalls => 0..1,
            Scene::OneVote => 1..2,
            Scene::EachOnce | Scene::OneSet => 0..4,
        }
    }

    /// When the run ends.
    fn until(self) -> Until {
        match self {
            Scene::TwoTurns | Scene::TwoCalls | Scene::OneVote => Until::Inputs(2),
            Scene::EachOnce => Until::Inputs(1005),
            Scene::OneSet => Until::Executed,
        }
    }

    /// What came of it.
    fn tell(self, alloc: Global, gate: &Held<'_>, seen: &Seen, told: &Told) -> Result<String> {
        match self {
            Scene::TwoTurns => tell_turns(alloc, gate, told),
            Scene::TwoCalls => tell_calls(alloc, seen, told),
            Scene::OneVote => tell_votes(alloc, told),
            Scene::EachOnce => tell_each(alloc, seen, told),
            Scene::OneSet => tell_executed(alloc, told),
        }
    }

    /// Plays the scene with these stand-ins and this gate, and tells what came of it.
    fn play_with<R: Threads + Wait + Clock + Sync>(
        self,
        rt: &R,
        alloc: Global,
        config: Config,
        hasher: RandomState,
        gate: &Held<'_>,
        seen: &Seen,
    ) -> Result<String> {
        let handed = self.handed(alloc, config)?;
        let (replicas, until) = (self.replicas(), self.until());
        let told = run(
            rt, alloc, config, hasher, replicas, gate, seen, handed, until,
        )?;
        self.tell(alloc, gate, seen, &told)
    }

    /// Plays the scene, and tells what came of it.
    pub(crate) fn play<R: Threads + Wait + Clock + Sync + RandomSource>(
        self,
        rt: &R,
        alloc: Global,
    ) -> Result<String> {
        let config = Config::new(1, 2)?;
        let hasher = RandomState::new(rt)?;
        let answers = frames::answers(alloc, config)?;
        let seen = Seen::new(alloc, matches!(self, Scene::TwoCalls), answers)?;
        let gate = Held::new(matches!(self, Scene::TwoTurns), &seen);
        self.play_with(rt, alloc, config, hasher, &gate, &seen)
    }
}

/// What came of a turn that was held.
fn tell_turns(alloc: Global, gate: &Held<'_>, told: &Told) -> Result<String> {
    Ok(format!(in alloc;
        "frame 1 waited for frame 2's step: {}; its own was made before: {}; a spoilt frame was entered: {}; \
        steps: {}",
        gate.has_met(),
        gate.was_stepped_before(),
        gate.saw_third(),
        told.steps
    )?)
}

/// What came of a call that was held.
fn tell_calls(alloc: Global, seen: &Seen, told: &Told) -> Result<String> {
    Ok(format!(in alloc;
        "call 1 waited for call 2: {}; steps: {}",
        seen.has_met(),
        told.steps
    )?)
}

/// What came of a proposal that was brought twice.
fn tell_votes(alloc: Global, told: &Told) -> Result<String> {
    Ok(format!(in alloc;
        "one proposal twice: votes {}, steps {}",
        told.left, told.steps
    )?)
}

/// What came of a thousand requests.
fn tell_each(alloc: Global, seen: &Seen, told: &Told) -> Result<String> {
    let requested = seen.requested(alloc)?;
    let (announced, voted) = (seen.announced(alloc)?, seen.voted(alloc)?);
    let once = seen.came_once();
    let [first, second] = told.replies;
    let mut text = format!(in alloc; "of 1000 requests {once} came once; requests{requested}")?;
    write!(text, ", announcements{announced}, votes{voted}")?;
    write!(text, ", replies {first} {second}, others {}", told.left)?;
    Ok(text)
}

/// What came of a request for all replicas.
fn tell_executed(alloc: Global, told: &Told) -> Result<String> {
    let [first, second, third, fourth] = told.executed;
    Ok(format!(in alloc; "one set: a new eye reads {first} {second} {third} {fourth}")?)
}
