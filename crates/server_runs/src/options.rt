//! Command lines of `mcbft`, and what they ask for.

use anyhow::{Result, bail};
use command_line::{
    AuditOptions, Files, FrontOptions, Options, ReplicaOptions, Wanted, matches_of,
};
use server::Terms;
use std::alloc::Global;
use std::hash::RandomState;
use std::random::RandomSource;

/// Command lines: what is left out has a value that stands for it; each option has one of its own; an archive; too many
/// that are to lie, and too few keys; each lie by its name; words that are none; the same of a replica and of a front,
/// before whose names no option may stand; what a replica can be asked; and files of windows.
const LINES: [&str; 38] = [
    "--keys k",
    "--keys k --faults 10 --clients 64 --port 11211 --liar mute --liars 3 --liar-until 5 --liar-seed 8 \
        --liar-client 2 --serve 7 --keys-held 9 --blocks 60 --window 4 --window-most 6 --workers 2 --watch 1 --record 3 --late 11",
    "--keys k --archive --window 4",
    "--keys k --liars 2",
    "--keys k --keys-held 0",
    "--keys k --liar mute",
    "--keys k --liar two-faced",
    "--keys k --liar bad-reply",
    "--keys k --liar crowder",
    "--keys k --liar flooder",
    "--keys k --liar half-voter",
    "--keys k --liar late-half-voter",
    "--keys k --liar half-votes",
    "--keys k --liar climber",
    "--keys k --liar low-justifier",
    "--keys k --liar spoiler",
    "--keys k --liar wrong-answers",
    "--keys k --liar false-claims",
    "--keys k --liar one-left-out",
    "--keys k --liar wrong-records",
    "--keys k --liar false-doubts",
    "--keys k --liar any --liar-seed 5",
    "--keys k --workers 3",
    "--faults 1",
    "replica --id 2 --deployment d --keys k --state s",
    "replica --id 3 --deployment d --keys k --state s --listen 10.0.0.4:7450 --window 4 --window-most 6 --blocks 60 \
        --record 3 --workers 2 --patience 7 --watch 1 --liar any --liar-seed 8 --liar-until 5",
    "replica --id 2 --deployment d --keys k",
    "replica --id 2 --deployment d --keys k --state s --archive",
    "front --id 0 --deployment d --keys k --state s --port 11211",
    "front --id 1 --deployment d --keys k --state s --port 0 --listen 10.0.0.4 --serve 7 --watch 1",
    "front --id 0 --deployment d --keys k --state s",
    "--keys k replica --id 2 --deployment d --keys k --state s",
    "ask window --state s",
    "ask stop --state s",
    "ask leave --state s",
    "ask stop",
    "audit a b c",
    "audit",
];

/// How replicas are to run, but for the caches' secret.
fn write_terms(text: &mut String, terms: &Terms) -> Result<()> {
    write!(text, "; {:?}, {}", terms.liars, terms.liar_clients)?;
    write!(
        text,
        "; {} {:?} {:?} {:?}",
        terms.most, terms.blocks, terms.window, terms.window_most
    )?;
    write!(
        text,
        " {} {:?} {:?} {} {:?}",
        terms.record, terms.late, terms.workers, terms.patience, terms.watch
    )?;
    Ok(())
}

/// What options ask of all replicas.
fn text_here(alloc: Global, options: &Options<'_>) -> Result<String> {
    let (keys, faults, clients) = (options.keys, options.faults, options.clients);
    let (port, held) = (options.port, options.keys_held);
    let mut text = format!(in alloc; "{keys} {faults} {clients} {port} {held}")?;
    if let Err(fault) = options.config() {
        write!(text, " fault {}", fault.number())?;
    }
    write_terms(&mut text, &options.terms)?;
    Ok(text)
}

/// The number and the files of a process.
fn text_begun(alloc: Global, name: &str, number: u8, files: &Files<'_>) -> Result<String> {
    let (deployment, keys, state) = (files.deployment, files.keys, files.state);
    Ok(format!(in alloc; "{name} {number} {deployment} {keys} {state}")?)
}

/// What options ask of a replica.
fn text_of_replica(alloc: Global, options: &ReplicaOptions<'_>) -> Result<String> {
    let mut text = text_begun(alloc, "replica", options.number, &options.files)?;
    write!(text, " {:?}", options.listen)?;
    write_terms(&mut text, &options.terms)?;
    Ok(text)
}

/// What options ask of a front.
fn text_of_front(alloc: Global, options: &FrontOptions<'_>) -> Result<String> {
    let mut text = text_begun(alloc, "front", options.number, &options.files)?;
    let (listen, port, most) = (options.listen, options.port, options.most);
    write!(text, " {listen} {port}; {most} {:?}", options.watch)?;
    Ok(text)
}

/// Which windows are to be judged.
fn text_of_audit(alloc: Global, options: &AuditOptions<'_, '_>) -> Result<String> {
    let mut text = format!(in alloc; "audit")?;
    for path in options.paths {
        write!(text, " {path}")?;
    }
    Ok(text)
}

/// What is wanted.
fn text_of(alloc: Global, wanted: &Wanted<'_, '_>) -> Result<String> {
    match wanted {
        Wanted::Here(options) => text_here(alloc, options),
        Wanted::Replica(options) => text_of_replica(alloc, options),
        Wanted::Front(options) => text_of_front(alloc, options),
        Wanted::Ask(options) => Ok(format!(in alloc; "ask {:?} {}", options.ask, options.state)?),
        Wanted::Audit(options) => text_of_audit(alloc, options),
    }
}

/// What a command line asks for. None where it isn't one.
fn told_of(alloc: Global, hasher: RandomState, line: &str) -> Result<Option<String>> {
    let mut words = Vec::new(alloc);
    words.push("mcbft")?;
    for word in line.split_whitespace() {
        words.push(word)?;
    }
    let Ok(matches) = matches_of(alloc, words.as_slice()) else {
        return Ok(None);
    };
    match Wanted::read(&matches, hasher) {
        Some(wanted) => Ok(Some(text_of(alloc, &wanted)?)),
        None => bail!("no options"),
    }
}

/// Prints what all lines ask for.
pub(crate) fn tell_all_options<R: AllocGlobal + Print + RandomSource>(rt: &R) -> Result<()> {
    let hasher = RandomState::new(rt)?;
    for line in LINES {
        match told_of(rt.alloc(), hasher, line)? {
            Some(text) => println!(rt; "{text}")?,
            None => println!(rt; "no options")?,
        }
    }
    Ok(())
}
