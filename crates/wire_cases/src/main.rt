//! Cases of what goes over wires, of what a process reads when it begins, and of whom a replica believes. Each line of standard
//! input is a case behind the name of its subject:
//!
//! - `longest`, `put`, `cuts`, `pieces`, `room`: frames on a wire (`streams.rt`).
//! - `letter`: texts of letters (`letter_texts.rt`).
//! - `greeting`, `dial`, `admit`, `hear`, and these with a changed byte: handshakes (`handshakes.rt`).
//! - `outbox`: calls of an outbox (`outboxes.rt`).
//! - `keys`, `deployment`, `mark`, `begin`: key files of holders, deployment files, marks (`state.rt`).
//! - `window`, `judge`: window files (`windows.rt`).
//! - `clients`: whose requests a leader lets in (`clients.rt`).
//! - `voters`: whose votes a replica does without (`voters.rt`).
//!
//! A line is printed of each. What is wanted was computed by an independent program, `reference/wire_cases`.
#![tactic(auto)]

mod clients;
mod endpoints;
mod fields;
mod handshakes;
mod letter_texts;
mod outboxes;
mod state;
mod streams;
mod voters;
mod windows;

use anyhow::{Result, bail};
use std::alloc::Global;

/// What is printed of a line of the input.
fn case_told(alloc: Global, line: &str) -> Result<String> {
    let Some((subject, case)) = line.split_once(' ') else {
        bail!("a case without a subject");
    };
    match subject {
        "longest" | "put" | "cuts" | "pieces" | "room" => streams::case_told(alloc, subject, case),
        "letter" => letter_texts::case_told(alloc, case),
        "outbox" => outboxes::case_told(alloc, case),
        "keys" | "deployment" | "mark" | "begin" => state::case_told(alloc, subject, case),
        "window" | "judge" => windows::case_told(alloc, subject, case),
        "clients" => clients::case_told(alloc, case),
        "voters" => voters::case_told(alloc, case),
        _ => handshakes::case_told(alloc, subject, case),
    }
}

fn main(rt: HostRuntime) -> Result<()> {
    let alloc = rt.alloc();
    for line in rt.lines(alloc) {
        let line = line?;
        println!(rt; "{}", case_told(alloc, line.as_str())?)?;
    }
    Ok(())
}
