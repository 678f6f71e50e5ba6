//! Runs schedules, and judges by itself what came of each: whether the run is linear, and whether replicas
//! that were refused memory did nothing more.
//!
//! Each schedule stands behind a line `: NAME`. By `:E NAME` the answer of event E is
//! taken to be a refusal of memory when the run is judged, whatever it was. By `:keys=N NAME` the replicas'
//! caches have room for N keys. Printed are, of each:
//!
//! - `: NAME`, once the schedule was read;
//! - `no run: N`, where the world or the run was refused with N; else
//! - how many events there were, how many frames were sent, and how many events were answered 19 and 20;
//! - the length of each correct replica's history, and each receipt with its place;
//! - `linear`, or a line for each rule that doesn't hold.
//!
//! Where this program itself is refused memory, before a run or after it, it ends with status 1, and what
//! it printed tells how far it was.

mod answers;
mod case;
mod history;
mod receipts;
mod run;
mod told;
mod wrong;

use crate::judged::case::Case;
use crate::judged::run::Run;
use crate::judged::told::tell;
use anyhow::Result;
use ids::Fault;
use simulator::{Heading, Schedule, keyrings_of, parse};
use std::alloc::Global;
use std::hash::RandomState;
use world_schedule::{Event, Outcome, World};

/// Takes the answer of an event to be a refusal of memory.
fn refuse(outcome: &mut Outcome, event: Option<usize>) {
    let Some(before) = event.and_then(|event| event.checked_sub(1)) else {
        return;
    };
    if let Some(answer) = outcome.answers.get_mut(before) {
        *answer = Some(Fault::Memory);
    }
}

/// Tells why there is no run.
fn tell_refusal(rt: &HostRuntime, fault: Fault) -> Result<()> {
    println!(rt; "no run: {}", fault.number())?;
    Ok(())
}

/// Runs events in a world, and tells what is judged of the run.
fn judge_events(
    rt: &HostRuntime,
    world: &World,
    events: &[Event],
    refused: Option<usize>,
) -> Result<()> {
    match world_schedule::run(world, events) {
        Ok(outcome) => {
            let mut outcome = outcome;
            refuse(&mut outcome, refused);
            tell(rt, &Run::new(world, events, &outcome))
        }
        Err(fault) => tell_refusal(rt, fault),
    }
}

/// The world of a heading, in which caches have room for so many keys.
fn world_of(
    alloc: Global,
    hasher: RandomState,
    heading: Heading,
    most_keys: usize,
) -> Result<World, Fault> {
    let config = heading.config()?;
    let keyrings = keyrings_of(alloc, config)?;
    World::with_keys(alloc, config, heading.faulty, keyrings, most_keys, hasher)
}

/// Judges the run of a case.
fn judge(rt: &HostRuntime, hasher: RandomState, case: &Case<'_>) -> Result<()> {
    let Schedule { heading, events } = parse(rt.alloc(), case.schedule)?;
    println!(rt; ": {}", case.name)?;
    match world_of(rt.alloc(), hasher, heading, case.most_keys) {
        Ok(world) => judge_events(rt, &world, &events, case.refused),
        Err(fault) => tell_refusal(rt, fault),
    }
}

/// Judges the runs of all cases.
pub(crate) fn judge_all(rt: &HostRuntime, hasher: RandomState, cases: &[u8]) -> Result<()> {
    for text in cases.split(|byte| *byte == b':').skip(1) {
        judge(rt, hasher, &Case::read(text)?)?;
    }
    Ok(())
}
