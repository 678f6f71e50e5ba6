//! `hsim [FILE]` runs the schedule of a file, or of standard input, and prints what happened. `hsim heal [FILE]` prints
//! the schedule itself, with events behind it that bring each correct client that waits its receipt.
//!
//! Its exit status is 0; or 1 with one line on standard error, where the schedule has no outcome;
//! or 2 for bad words on the command line.
#![tactic(auto)]

use clap::error::ErrorKind;
use clap::{Arg, ArgMatches, Command, Error};
use ids::Fault;
use simulator::{SimFault, heal, read_fault, simulate};
use std::alloc::Global;
use std::hash::RandomState;
use std::process::ExitCode;
use std::rt::Files;
use std::{env, fs, io};

/// The lines of a schedule, and an example.
const SCHEDULES: &str = "\
A schedule, each line ended by LF, one space between fields:
  world F C [PARTY..]   the first line: F faulty replicas are tolerated, C clients; who is faulty
  submit cN HEX         client N is handed a request, as memcached's text in hexadecimal digits
  relay K PARTY         frame K of those sent so far, from 0, comes to a party
  inject PARTY HEX      bytes come to a party
  timeout rN            replica N goes on to its next view
  beat rN               replica N is told to propose, if it leads its view
  prune rN H            replica N may forget what is deep below height H
A party is r or c and its number: r0 is the first leader of the 3F + 1 replicas.

An example: client 0 asks for a get, replica 0 proposes it, and replica 1 votes.
  world 1 1
  submit c0 67657420610d0a
  relay 0 r0
  beat r0
  relay 0 r1
  relay 1 r1";

/// What the words of a command line say.
fn matches_of(alloc: Global, words: &[String]) -> Result<ArgMatches<'_>, Error> {
    let file = Arg::new(alloc, "FILE").help("The schedule; standard input where it is left out");
    let healed = Arg::new(alloc, "FILE").help("The schedule; standard input where it is left out");
    let heal = Command::new(alloc, "heal")
        .about("Prints the schedule with events that bring each waiting correct client its receipt")
        .arg(healed)?;
    let command = Command::new(alloc, "hsim")
        .bin_name("hsim")?
        .about(
            "Runs a schedule of events in a world of replicas and clients, and prints what happened",
        )
        .version("0.1.0")
        .after_help(SCHEDULES)
        .arg(file)?
        .subcommand(heal)?;
    command.try_get_matches_from(words)
}

/// What becomes of a schedule.
#[derive(Clone, Copy)]
enum Task {
    /// It is run.
    Run,
    /// It is healed.
    Heal,
}

/// Does it with the schedule that a reader gives.
fn do_task<I: io::Read, O: io::Write>(
    alloc: Global,
    hasher: RandomState,
    task: Task,
    reader: &mut I,
    writer: &mut O,
) -> Result<(), SimFault> {
    match task {
        Task::Run => simulate(alloc, hasher, reader, writer),
        Task::Heal => heal(alloc, hasher, reader, writer),
    }
}

/// Does it with the schedule of a file, or of standard input.
fn run<R: Files + Input + Print + AllocGlobal>(
    rt: &R,
    hasher: RandomState,
    task: Task,
    file: Option<&str>,
) -> Result<(), SimFault> {
    let mut writer = io::writer(rt);
    match file {
        Some(path) => {
            let opened = fs::open(rt, path);
            let mut reader = opened.map_err(|error| read_fault(&error))?;
            do_task(rt.alloc(), hasher, task, &mut reader, &mut writer)
        }
        None => do_task(rt.alloc(), hasher, task, &mut rt.reader(), &mut writer),
    }
}

/// Tells why there is no outcome.
fn tell(rt: &impl Eprint, file: Option<&str>, fault: SimFault) -> io::Result<()> {
    match fault {
        SimFault::Fault(Fault::ReadFailed) => {
            eprintln!(rt; "hsim: cannot read {}", file.unwrap_or("-"))
        }
        _ => eprintln!(rt; "hsim: {fault}"),
    }
}

fn main(rt: HostRuntime) -> io::Result<ExitCode> {
    let words: Vec<String> = env::args(&rt)?.collect(rt.alloc())?;
    let matches = match matches_of(rt.alloc(), &words) {
        Ok(matches) => matches,
        Err(error) if error.kind() == ErrorKind::OutOfMemory => {
            tell(&rt, None, SimFault::Fault(Fault::Memory))?;
            return Ok(ExitCode::FAILURE);
        }
        Err(error) => {
            error.print(&rt)?;
            return Ok(ExitCode::from(error.exit_code() as u8));
        }
    };
    let (task, file) = match matches.subcommand() {
        Some((_, heal)) => (Task::Heal, heal.get_str("FILE")),
        None => (Task::Run, matches.get_str("FILE")),
    };
    match run(&rt, RandomState::new(&rt)?, task, file) {
        Ok(()) => Ok(ExitCode::SUCCESS),
        Err(fault) => {
            tell(&rt, file, fault)?;
            Ok(ExitCode::FAILURE)
        }
    }
}
