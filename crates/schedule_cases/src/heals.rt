//! Heals many schedules as `hsim heal` does, each behind a line that names it, and prints the lines that healing adds,
//! and what clients accept once the whole is run.
//!
//! `: NAME` begins a schedule. Where there is no outcome, the line stands there that `hsim` prints on standard error.

use crate::runs::cases::{Case, parse};
use anyhow::Result;
use simulator::{SimFault, heal, simulate};
use std::alloc::Global;
use std::hash::RandomState;
use std::io::{self, Write as _};

/// Appends the lines of a report that tell what was accepted.
fn tell_accepted(report: &[u8], out: &mut Vec<u8>) -> Result<()> {
    for line in report.split_inclusive(|byte| *byte == b'\n') {
        if line.starts_with(b"accepted ") {
            out.extend_from_slice(line)?;
        }
    }
    Ok(())
}

/// Heals a schedule: what is added to it, and what is then accepted.
fn heal_text(
    alloc: Global,
    hasher: RandomState,
    text: &[u8],
    out: &mut Vec<u8>,
) -> Result<Result<(), SimFault>> {
    let mut healed = Vec::new(alloc);
    let mut reader = text;
    if let Err(fault) = heal(alloc, hasher, &mut reader, &mut healed) {
        return Ok(Err(fault));
    }
    out.extend_from_slice(healed.strip_prefix(text).unwrap_or(&[]))?;
    let mut report = Vec::new(alloc);
    let mut again = healed.as_slice();
    let told = simulate(alloc, hasher, &mut again, &mut report);
    tell_accepted(&report, out)?;
    Ok(told)
}

/// What is told of a case.
fn tell(alloc: Global, hasher: RandomState, case: &Case) -> Result<Vec<u8>> {
    let mut out = Vec::new(alloc);
    writeln!(out, ": {}", case.name)?;
    if let Err(fault) = heal_text(alloc, hasher, &case.text, &mut out)? {
        writeln!(out, "hsim: {fault}")?;
    }
    Ok(out)
}

/// Prints what is told of all cases.
pub(crate) fn tell_all(rt: &HostRuntime, hasher: RandomState, cases: &[u8]) -> Result<()> {
    let alloc = rt.alloc();
    let mut writer = io::writer(rt);
    for case in &parse(alloc, cases)? {
        writer.write_all(&tell(alloc, hasher, case)?)?;
    }
    Ok(())
}
