//! Cases of whole schedules, and of what is judged after them. Each part of standard input stands behind a line
//! that names its subject:
//!
//! - `#runs`: schedules that are run as `hsim` runs them (`runs.rt`).
//! - `#heals`: schedules that are healed as `hsim heal` does (`heals.rt`).
//! - `#judged`: schedules whose runs are judged here, also without memory (`judged.rt`).
//!
//! What is wanted was computed by an independent program.
#![tactic(auto)]

mod heals;
mod judged;
mod runs;

use anyhow::{Result, bail};
use std::hash::RandomState;
use std::io::Read as _;

/// Prints what is told of the cases of a part of the input.
fn tell_part(rt: &HostRuntime, hasher: RandomState, part: &[u8]) -> Result<()> {
    if let Some(cases) = part.strip_prefix(b"runs\n") {
        return runs::tell_all(rt, hasher, cases);
    }
    if let Some(cases) = part.strip_prefix(b"heals\n") {
        return heals::tell_all(rt, hasher, cases);
    }
    match part.strip_prefix(b"judged\n") {
        Some(cases) => judged::judge_all(rt, hasher, cases),
        None => bail!("no such subject"),
    }
}

fn main(rt: HostRuntime) -> Result<()> {
    let mut input = Vec::new(rt.alloc());
    rt.reader().read_to_end(&mut input)?;
    let hasher = RandomState::new(&rt)?;
    for part in input.split(|byte| *byte == b'#').skip(1) {
        tell_part(&rt, hasher, part)?;
    }
    Ok(())
}
