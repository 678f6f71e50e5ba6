//! `mcbft` serves memcached's text protocol on 127.0.0.1, from replicas of which some may lie.
//!
//! `mcbft replica` and `mcbft front` run one party of a deployment of which each is a process of its own; `mcbft ask` asks a
//! replica's process to do something, and `mcbft audit` judges the windows that replicas wrote.
//!
//! Its exit status is 0; or 1 with one line on standard error; or 2 for bad words on the command line; or 3 where a replica has
//! run before.
#![tactic(auto)]

mod faults;
mod parties;
mod party_faults;
mod serving;
mod window_audit;

use crate::faults::MainFault;
use crate::parties::{run_as_front, run_as_replica};
use crate::party_faults::PartyFault;
use crate::serving::serve;
use crate::window_audit::{AuditFault, judge_files};
use apart::{Refusal, ask};
use audit::WindowVerdict;
use clap::Error;
use clap::error::ErrorKind;
use command_line::{Wanted, matches_of, words_of};
use ids::{Fault, ReplicaId};
use server::{EndAudit, Ended};
use std::hash::RandomState;
use std::process::ExitCode;
use std::{env, io};

/// Tells why words aren't a command line, or what they ask for, as `--help`.
fn tell(rt: &HostRuntime, error: &Error) -> io::Result<ExitCode> {
    if error.kind() == ErrorKind::OutOfMemory {
        return fail(rt, MainFault::Fault(Fault::Memory));
    }
    error.print(rt)?;
    Ok(ExitCode::from(error.exit_code() as u8))
}

/// Tells why nothing more is served, and on a line of its own what to do.
fn fail(rt: &HostRuntime, fault: MainFault) -> io::Result<ExitCode> {
    eprintln!(rt; "mcbft: {fault}")?;
    eprintln!(rt; "mcbft: {}", fault.advice())?;
    Ok(ExitCode::FAILURE)
}

/// Tells what is said of replicas.
fn tell_words(rt: &HostRuntime, audit: &EndAudit) -> io::Result<()> {
    println!(rt; "audit {}", words_of(audit))
}

/// Tells how many replicas the audit left out, where it did: the windows of all were judged beside it.
fn tell_part(rt: &HostRuntime, audit: &EndAudit) -> io::Result<()> {
    if let EndAudit::Part { judged, .. } = audit {
        eprintln!(rt;
            "mcbft: the audit judged {judged} replicas; the others have forgotten, and only their windows were judged"
        )?;
    }
    Ok(())
}

/// Tells how it ended.
fn end(rt: &HostRuntime, ended: &Ended) -> io::Result<ExitCode> {
    if let Ok(served) = ended.served {
        println!(rt; "served {served} connections")?;
    }
    tell_words(rt, &ended.audit)?;
    tell_part(rt, &ended.audit)?;
    match ended.served {
        Ok(_) => Ok(ExitCode::SUCCESS),
        Err(fault) => fail(rt, MainFault::from(fault)),
    }
}

/// Tells why a party doesn't begin, or ends, and on a line of its own what to do.
fn fail_as(rt: &HostRuntime, party: &str, number: u8, fault: PartyFault) -> io::Result<ExitCode> {
    eprintln!(rt; "mcbft: {party} {number}: {fault}")?;
    eprintln!(rt; "mcbft: {}", fault.advice())?;
    Ok(ExitCode::from(fault.status()))
}

/// Tells whether a replica's process did what it was asked.
fn end_ask(rt: &HostRuntime, asked: Result<(), Refusal>) -> io::Result<ExitCode> {
    match asked {
        Ok(()) => Ok(ExitCode::SUCCESS),
        Err(refusal) => {
            eprintln!(rt; "mcbft: {refusal}")?;
            eprintln!(rt; "mcbft: {}", PartyFault::from(refusal).advice())?;
            Ok(ExitCode::FAILURE)
        }
    }
}

/// Tells which two replicas' windows don't agree.
fn tell_two(rt: &HostRuntime, lower: ReplicaId, higher: ReplicaId) -> io::Result<ExitCode> {
    let (lower, higher) = (lower.0, higher.0);
    println!(rt; "replica {lower} beside replica {higher}")?;
    Ok(ExitCode::FAILURE)
}

/// Tells why windows can't be judged.
fn fail_audit(rt: &HostRuntime, fault: AuditFault) -> io::Result<ExitCode> {
    eprintln!(rt; "mcbft: {fault}")?;
    Ok(ExitCode::FAILURE)
}

/// Tells what windows say of one another. The status is 0 where they agree.
fn end_audit(rt: &HostRuntime, verdict: &WindowVerdict) -> io::Result<ExitCode> {
    tell_words(rt, &EndAudit::Windows(*verdict))?;
    match *verdict {
        WindowVerdict::Agree => Ok(ExitCode::SUCCESS),
        WindowVerdict::Fork { lower, higher } => tell_two(rt, lower, higher),
        WindowVerdict::Unmet { lower, higher } => tell_two(rt, lower, higher),
    }
}

/// Tells how a replica ended.
fn end_replica(
    rt: &HostRuntime,
    number: u8,
    ended: Result<Option<Fault>, PartyFault>,
) -> io::Result<ExitCode> {
    match ended {
        Ok(None) => Ok(ExitCode::SUCCESS),
        Ok(Some(fault)) => fail_as(rt, "replica", number, PartyFault::from(fault)),
        Err(fault) => fail_as(rt, "replica", number, fault),
    }
}

/// Tells how a front ended.
fn end_front(rt: &HostRuntime, number: u8, ended: Result<u64, PartyFault>) -> io::Result<ExitCode> {
    match ended {
        Ok(served) => {
            println!(rt; "served {served} connections")?;
            Ok(ExitCode::SUCCESS)
        }
        Err(fault) => fail_as(rt, "front", number, fault),
    }
}

fn main(rt: HostRuntime) -> io::Result<ExitCode> {
    let words: Vec<String> = env::args(&rt)?.collect(rt.alloc())?;
    let matches = match matches_of(rt.alloc(), &words) {
        Ok(matches) => matches,
        Err(error) => return tell(&rt, &error),
    };
    match Wanted::read(&matches, RandomState::new(&rt)?) {
        Some(Wanted::Here(options)) => match serve(&rt, &options) {
            Ok(ended) => end(&rt, &ended),
            Err(fault) => fail(&rt, fault),
        },
        Some(Wanted::Replica(options)) => {
            end_replica(&rt, options.number, run_as_replica(&rt, &options))
        }
        Some(Wanted::Front(options)) => {
            end_front(&rt, options.number, run_as_front(&rt, &options))
        }
        Some(Wanted::Ask(options)) => end_ask(&rt, ask(&rt, options.state, options.ask)),
        Some(Wanted::Audit(options)) => match judge_files(&rt, options.paths) {
            Ok(verdict) => end_audit(&rt, &verdict),
            Err(fault) => fail_audit(&rt, fault),
        },
        None => fail(&rt, MainFault::Fault(Fault::BadSize)),
    }
}
