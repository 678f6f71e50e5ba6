//! What `mcbft replica` is asked for.

ghost use Rattle.std.specs.Prelude.{IfSome};
ghost use Rattle.clap.specs.Words.{found_of};
ghost use Rattle.command_line.specs.Options.{AreReplicaOptions};

use crate::files::Files;
use crate::reading::read_number;
use crate::shared;
use crate::table::{LeftOut, MOST_OF_32_BITS, Number, Text, Word};
use crate::terms::terms_of_one;
use clap::ArgMatches;
use station::Terms;
use std::hash::RandomState;

/// All options, in the order in which help has them.
pub(crate) const WORDS: [Word; 15] = [
    Word::Number(Number {
        name: "id",
        value: "I",
        least: 0,
        most: 255,
        left_out: LeftOut::Refused,
        help: "Which replica of the deployment it is",
    }),
    shared::DEPLOYMENT,
    shared::OWN_KEYS,
    shared::STATE,
    Word::Text(Text {
        name: "listen",
        value: "ADDRESS:PORT",
        left_out: LeftOut::Nothing,
        help: "Where it listens, if not where the deployment file has it",
    }),
    shared::WINDOW,
    shared::WINDOW_MOST,
    shared::BLOCKS,
    shared::RECORD,
    shared::WORKERS,
    Word::Number(Number {
        name: "patience",
        value: "N",
        least: 1,
        most: MOST_OF_32_BITS,
        left_out: LeftOut::Default("1"),
        help: "Views last N times as long: for slow links",
    }),
    shared::WATCH,
    Word::Liar("It lies"),
    shared::LIAR_SEED,
    shared::LIAR_UNTIL,
];

/// What the words ask of a replica that is a process of its own.
#[derive(Clone, Copy)]
pub struct ReplicaOptions<'a> {
    /// Its number. Nobody has looked whether the deployment has such a replica.
    pub number: u8,
    pub files: Files<'a>,
    /// Where it listens. None for where the deployment file says that it is reached.
    pub listen: Option<&'a str>,
    /// If a lie is named, replicas of all numbers lie, so this one.
    pub terms: Terms,
}

impl<'a> ReplicaOptions<'a> {
    /// The options that were read, all that are needed. The hasher is the cache's.
    pub fn read(matches: &ArgMatches<'a>, hasher: RandomState) -> Option<ReplicaOptions<'a>>
        ensures { IfSome result (AreReplicaOptions (found_of matches.now)) }
    {
        Some(ReplicaOptions {
            number: u8::try_from(read_number(matches, "id")?).ok()?,
            files: Files::read(matches)?,
            listen: matches.get_str("listen"),
            terms: Terms {
                patience: read_number(matches, "patience")?,
                ..terms_of_one(matches, u8::MAX, hasher)?
            },
        })
    }
}
