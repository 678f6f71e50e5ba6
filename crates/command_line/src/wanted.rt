ghost use Rattle.std.specs.Prelude.{IfSome};
ghost use Rattle.command_line.specs.Options.{IsWanted};

use crate::commands::{ASK, AUDIT, FRONT, REPLICA};
use crate::of_ask::AskOptions;
use crate::of_audit::AuditOptions;
use crate::of_front::FrontOptions;
use crate::of_replica::ReplicaOptions;
use crate::options::Options;
use clap::ArgMatches;
use std::hash::RandomState;

/// What the words want to be run.
#[derive(Clone, Copy)]
pub enum Wanted<'m, 'a> {
    /// All replicas of a deployment in this process, and its clients' connections.
    Here(Options<'a>),
    /// One replica.
    Replica(ReplicaOptions<'a>),
    /// One front.
    Front(FrontOptions<'a>),
    /// That a replica's process does something.
    Ask(AskOptions<'a>),
    /// A judgement of windows.
    Audit(AuditOptions<'m, 'a>),
}

impl<'m, 'a> Wanted<'m, 'a> {
    /// What was read. The hasher is the caches'.
    pub fn read(matches: &'m ArgMatches<'a>, hasher: RandomState) -> Option<Wanted<'m, 'a>>
        ensures { IfSome result (IsWanted matches.now) }
    {
        let Some((command, behind)) = matches.subcommand() else {
            return match Options::read(matches, hasher) {
                Some(options) => Some(Wanted::Here(options)),
                None => None,
            };
        };
        match command {
            REPLICA => match ReplicaOptions::read(behind, hasher) {
                Some(options) => Some(Wanted::Replica(options)),
                None => None,
            },
            FRONT => match FrontOptions::read(behind) {
                Some(options) => Some(Wanted::Front(options)),
                None => None,
            },
            ASK => match AskOptions::read(behind) {
                Some(options) => Some(Wanted::Ask(options)),
                None => None,
            },
            AUDIT => match AuditOptions::read(behind) {
                Some(options) => Some(Wanted::Audit(options)),
                None => None,
            },
            _ => None,
        }
    }
}
