//! What `mcbft front` is asked for.

ghost use Rattle.std.specs.Prelude.{IfSome};
ghost use Rattle.clap.specs.Words.{found_of};
ghost use Rattle.command_line.specs.Options.{AreFrontOptions};

use crate::files::Files;
use crate::reading::{most_of, read_number, unless_zero};
use crate::shared;
use crate::table::{LeftOut, Number, Text, Word};
use clap::ArgMatches;

/// All options, in the order in which help has them.
pub(crate) const WORDS: [Word; 8] = [
    Word::Number(Number {
        name: "id",
        value: "K",
        least: 0,
        most: 255,
        left_out: LeftOut::Refused,
        help: "Which front of the deployment it is",
    }),
    shared::DEPLOYMENT,
    shared::OWN_KEYS,
    shared::STATE,
    Word::Text(Text {
        name: "listen",
        value: "ADDRESS",
        left_out: LeftOut::Default("127.0.0.1"),
        help: "Where it listens for clients; they trust it, and the way to it",
    }),
    Word::Number(Number {
        name: "port",
        value: "P",
        least: 0,
        most: 65_535,
        left_out: LeftOut::Refused,
        help: "Port for clients; 0: a free one",
    }),
    shared::SERVE,
    shared::WATCH,
];

/// What the words ask of a front.
#[derive(Clone, Copy)]
pub struct FrontOptions<'a> {
    /// Its number. Nobody has looked whether the deployment has such a front.
    pub number: u8,
    pub files: Files<'a>,
    /// The address on which it listens for clients, without a port.
    pub listen: &'a str,
    pub port: u16,
    /// How many connections are served.
    pub most: u64,
    /// Each how many seconds a line is logged that tells how it goes. None for no lines.
    pub watch: Option<u64>,
}

impl<'a> FrontOptions<'a> {
    /// The options that were read, all that are needed.
    pub fn read(matches: &ArgMatches<'a>) -> Option<FrontOptions<'a>>
        ensures { IfSome result (AreFrontOptions (found_of matches.now)) }
    {
        Some(FrontOptions {
            number: u8::try_from(read_number(matches, "id")?).ok()?,
            files: Files::read(matches)?,
            listen: matches.get_str("listen")?,
            port: u16::try_from(read_number(matches, "port")?).ok()?,
            most: most_of(matches)?,
            watch: unless_zero(read_number(matches, "watch")?),
        })
    }
}
