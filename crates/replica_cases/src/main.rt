//! Cases of one replica, part by part, and of a client's session. Each line of standard input is a case behind the
//! name of its subject:
//!
//! - `tree`: a block tree and the rules on it (`tree.rt`).
//! - `check`: frames, certificates and votes that are checked (`check.rt`).
//! - `step`: a kept replica that is stepped (`step.rt`).
//! - `execute`: commands that are executed, and pending requests (`execute.rt`).
//! - `session`: a client's session, and replies (`session.rt`).
//!
//! A line is printed of each. What is wanted was computed by an independent program.
#![tactic(auto)]

mod carried;
mod check;
mod execute;
mod session;
mod step;
mod tree;

use crate::carried::beside;
use crate::execute::Parts;
use crate::tree::blocks::{Blocks, tree_of};
use anyhow::{Result, bail};
use ids::{Config, MOST_KEYS};
use std::alloc::Global;
use std::hash::RandomState;

/// What cases after one another speak of.
#[derive(Drop)]
struct Known {
    config: Config,
    hasher: RandomState,
    blocks: Blocks,
    parts: Parts,
}

/// What is printed of a line of the input.
fn case_told(alloc: Global, known: &mut Known, line: &str) -> Result<String> {
    let Some((subject, case)) = line.split_once(' ') else {
        bail!("a case without a subject");
    };
    match subject {
        "tree" => Ok(tree::tell(alloc, known.hasher, &mut known.blocks, case)?),
        "check" => Ok(check::tell(alloc, case)?),
        "step" => Ok(step::tell(alloc, known.hasher, case)?),
        "execute" => Ok(execute::answer(alloc, &known.config, &mut known.parts, case)?),
        "session" => session::tell(alloc, case),
        _ => bail!("no such subject"),
    }
}

/// A line for each line of the input.
fn tell_all(rt: &HostRuntime, known: &mut Known) -> Result<()> {
    let alloc = rt.alloc();
    for line in rt.lines(alloc) {
        let line = line?;
        println!(rt; "{}", case_told(alloc, known, line.as_str())?)?;
    }
    Ok(())
}

fn main(rt: HostRuntime) -> Result<()> {
    let config = Config::new(1, 8)?;
    let hasher = RandomState::new(&rt)?;
    let blocks = tree_of(rt.alloc(), hasher, 1)?;
    let (blocks, parts) = beside(blocks, Parts::new(rt.alloc(), MOST_KEYS, hasher))?;
    let mut known = Known {
        config,
        hasher,
        blocks,
        parts,
    };
    tell_all(&rt, &mut known)
}
