//! Runs workers in threads, and prints what must be seen whatever the schedule.

mod fake;
mod frames;
mod held;
mod meeting;
mod order;
mod padding;
mod runs;
mod scenes;
mod seen;
mod stations;
mod timeouts;

use crate::workers::scenes::Scene;
use anyhow::Result;
use std::random::RandomSource;
use std::sync::Wait;
use std::thread::Threads;
use std::time::Clock;

/// The runs, in the order in which they are told.
const SCENES: [Scene; 5] = [
    Scene::TwoTurns,
    Scene::TwoCalls,
    Scene::OneVote,
    Scene::EachOnce,
    Scene::OneSet,
];

/// Plays all runs.
pub(crate) fn play_all<R>(rt: &R) -> Result<()>
where
    R: Threads + Wait + Clock + Sync + RandomSource + AllocGlobal + Print,
{
    for scene in SCENES {
        println!(rt; "{}", scene.play(rt, rt.alloc())?)?;
    }
    let alloc = rt.alloc();
    println!(rt;
        "one late vote, the second of three: voters{}",
        order::late_vote(rt, alloc)?
    )?;
    println!(rt;
        "its own vote, sent behind the first of three: voters{}",
        order::own_vote(rt, alloc)?
    )?;
    println!(rt;
        "a leader that proposes 100 times: {}",
        padding::play(rt, alloc)?
    )?;
    println!(rt;
        "timeouts of views 0, 0, 7, 1 and 0: {}",
        timeouts::play(rt, alloc)?
    )?;
    Ok(())
}
