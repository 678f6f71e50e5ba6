//! Cases of the formats. Each line of standard input is a case behind the name of its subject:
//!
//! - `line`: a text of request lines, or a dialogue (`lines.rt`).
//! - `connection`: a text that is fed in pieces, and served (`connections.rt`).
//! - `frame`: bytes that may be a frame (`frames.rt`).
//!
//! A line is printed of each. What is wanted was computed by an independent program.
#![tactic(auto)]

mod connections;
mod frames;
mod lines;

use anyhow::{Result, bail};
use std::alloc::Global;
use std::hash::RandomState;

/// What is printed of a line of the input.
fn case_told(alloc: Global, hasher: RandomState, line: &str) -> Result<String> {
    let Some((subject, case)) = line.split_once(' ') else {
        bail!("a case without a subject");
    };
    match subject {
        "line" => lines::case_told(alloc, hasher, case),
        "connection" => connections::case_told(alloc, case),
        "frame" => frames::case_told(alloc, case),
        _ => bail!("no such subject"),
    }
}

fn main(rt: HostRuntime) -> Result<()> {
    let alloc = rt.alloc();
    let hasher = RandomState::new(&rt)?;
    for line in rt.lines(alloc) {
        let line = line?;
        println!(rt; "{}", case_told(alloc, hasher, line.as_str())?)?;
    }
    Ok(())
}
