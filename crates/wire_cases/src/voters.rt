//! Whose votes a replica does without. A line is F and the events one after the other, with numbers of replicas between `,`:
//!
//! - `find=NUMBERS`: votes of these weren't right.
//! - `hear=FROM:NUMBERS`: a replica told so of these.
//! - `forget` and `all`: the replica leads from its lock; another view began.
//!
//! Told is who is passed over after each event. `enough=NUMBERS` tells whether these and one more are a quorum, and
//! `spare=FROM:NUMBERS` whether one is left without these, of whom a replica tells.

use anyhow::{Context, Result, bail};
use ids::{Config, MOST_REPLICAS, ReplicaId};
use std::alloc::Global;
use suspicion::{Passing, ReplicaSet, are_enough};

/// These replicas.
fn set_of(numbers: &str) -> Result<ReplicaSet> {
    let mut set = ReplicaSet::none();
    if numbers == "-" {
        return Ok(set);
    }
    for number in numbers.split(',') {
        set.add(ReplicaId(number.parse()?));
    }
    Ok(set)
}

/// A replica, and whom it tells of.
fn told_by(whom: &str) -> Result<(ReplicaId, ReplicaSet)> {
    let (from, numbers) = whom.split_once(':').context("who told?")?;
    Ok((ReplicaId(from.parse()?), set_of(numbers)?))
}

/// An event happens.
fn happen(passing: &mut Passing, name: &str, whom: &str) -> Result<()> {
    match name {
        "find" => passing.find(set_of(whom)?),
        "hear" => {
            let (from, voters) = told_by(whom)?;
            passing.hear(from, &voters);
        }
        "forget" => passing.forget(),
        "all" => passing.hear_all(),
        _ => bail!("no such event: {name}"),
    }
    Ok(())
}

/// Who is passed over.
fn passed_told(alloc: Global, passing: &Passing) -> Result<String> {
    let mut text = String::new(alloc);
    for number in 0..MOST_REPLICAS as u8 {
        if passing.has(ReplicaId(number)) {
            write!(text, " {number}")?;
        }
    }
    Ok(text)
}

/// What is printed of a case.
pub(crate) fn case_told(alloc: Global, case: &str) -> Result<String> {
    let (faults, events) = case.split_once(' ').context("no events")?;
    let config = Config::new(faults.parse()?, 1)?;
    let mut passing = Passing::none(config);
    let mut text = String::from_str(alloc, "voters")?;
    for event in events.split(' ') {
        let (name, whom) = event.split_once('=').unwrap_or((event, "-"));
        match name {
            "enough" => write!(text, ", {}", are_enough(&set_of(whom)?, config))?,
            "spare" => {
                let (from, voters) = told_by(whom)?;
                write!(text, ", {}", passing.spares(from, &voters))?;
            }
            _ => {
                happen(&mut passing, name, whom)?;
                let passed = passed_told(alloc, &passing)?;
                write!(text, ",{passed}")?;
            }
        }
    }
    Ok(text)
}
