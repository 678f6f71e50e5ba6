//! Runs many schedules of the simulator, each behind a line that names it, and prints what happened
//! in each.
//!
//! A line that begins with `:` isn't one of a schedule: `: NAME` begins a
//! schedule, `:cut` takes away the last byte of what stands so far, by `:reader fails` a read fails
//! behind the schedule, and by `:room N` the writer has room for N bytes. Printed are the line of
//! the name, what is written of the run and, where there is no outcome, the line that `hsim` prints
//! on standard error.

pub(crate) mod cases;
mod failing;

use crate::runs::cases::{Case, Trouble, parse};
use crate::runs::failing::Failing;
use anyhow::Result;
use simulator::{SimFault, simulate};
use std::alloc::Global;
use std::hash::RandomState;
use std::io::{self, Write as _};

/// What is written where there is room for so many bytes.
fn run_in(
    alloc: Global,
    hasher: RandomState,
    mut text: &[u8],
    room: &mut [u8],
) -> (usize, Result<(), SimFault>) {
    let most = room.len();
    let mut left = room;
    let outcome = simulate(alloc, hasher, &mut text, &mut left);
    (most.saturating_sub(left.len()), outcome)
}

/// Runs a case, and appends what is written.
fn run(
    alloc: Global,
    hasher: RandomState,
    case: &Case,
    out: &mut Vec<u8>,
) -> Result<Result<(), SimFault>> {
    let mut text = case.text.as_slice();
    match case.trouble {
        Trouble::Nothing => Ok(simulate(alloc, hasher, &mut text, out)),
        Trouble::ReaderFails => Ok(simulate(alloc, hasher, &mut Failing(text), out)),
        Trouble::Room(most) => {
            let mut room = vec![in alloc; 0; most]?;
            let (written, outcome) = run_in(alloc, hasher, text, room.as_mut_slice());
            out.extend_from_slice(room.get(..written).unwrap_or(&[]))?;
            out.push(b'\n')?;
            Ok(outcome)
        }
    }
}

/// What is told of a case.
fn tell(alloc: Global, hasher: RandomState, case: &Case) -> Result<Vec<u8>> {
    let mut out = Vec::new(alloc);
    writeln!(out, ": {}", case.name)?;
    if let Err(fault) = run(alloc, hasher, case, &mut out)? {
        writeln!(out, "hsim: {fault}")?;
    }
    Ok(out)
}

/// Prints what is told of all cases.
pub(crate) fn tell_all(rt: &HostRuntime, hasher: RandomState, cases: &[u8]) -> Result<()> {
    let alloc = rt.alloc();
    let mut writer = io::writer(rt);
    for case in &parse(alloc, cases)? {
        writer.write_all(&tell(alloc, hasher, case)?)?;
    }
    Ok(())
}
