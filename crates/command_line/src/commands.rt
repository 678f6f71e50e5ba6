//! The commands of `mcbft`, and which options each takes.

use crate::table::with_words;
use crate::{of_ask, of_audit, of_front, of_replica, options};
use clap::{ArgMatches, Command, Error};
use std::alloc::{AllocError, Global};
use std::convert::AsStr;

/// What stands behind the options in `--help`.
const EXAMPLE: &str = "\
Example: bin/make-keys 1 8 > keys; mcbft --keys keys --port 11211
docs/OPERATING.md tells its limits, and what to do at each message.";

/// The name of the command that runs one replica.
pub(crate) const REPLICA: &str = "replica";

/// The name of the command that runs one front.
pub(crate) const FRONT: &str = "front";

/// The name of the command that asks a replica's process to do something.
pub(crate) const ASK: &str = "ask";

/// The name of the command that judges windows.
pub(crate) const AUDIT: &str = "audit";

fn replica_command<'a>(alloc: Global) -> Result<Command<'a>, AllocError> {
    let command = Command::new(alloc, REPLICA).about("Runs one replica, which others reach by TCP");
    with_words(alloc, command, &of_replica::WORDS)
}

fn front_command<'a>(alloc: Global) -> Result<Command<'a>, AllocError> {
    let command = Command::new(alloc, FRONT).about(
        "Serves memcached's text protocol from replicas elsewhere",
    );
    with_words(alloc, command, &of_front::WORDS)
}

fn ask_command<'a>(alloc: Global) -> Result<Command<'a>, AllocError> {
    let command = Command::new(alloc, ASK).about(
        "Asks a replica that runs with this state directory",
    );
    with_words(alloc, command, &of_ask::WORDS)
}

fn audit_command<'a>(alloc: Global) -> Result<Command<'a>, AllocError> {
    let command = Command::new(alloc, AUDIT).about("Judges whether replicas' windows agree");
    with_words(alloc, command, &of_audit::WORDS)
}

/// What the words of a command line say. Without a command, all replicas are to run here.
pub fn matches_of<S: AsStr>(alloc: Global, words: &[S]) -> Result<ArgMatches<'_>, Error> {
    let command = Command::new(alloc, "mcbft")
        .bin_name("mcbft")?
        .version("0.1.0")
        .about("Serves memcached's text protocol from replicas, some of which may lie")
        .after_help(EXAMPLE)
        .args_conflicts_with_subcommands(true);
    with_words(alloc, command, &options::WORDS)?
        .subcommand(replica_command(alloc)?)?
        .subcommand(front_command(alloc)?)?
        .subcommand(ask_command(alloc)?)?
        .subcommand(audit_command(alloc)?)?
        .try_get_matches_from(words)
}
