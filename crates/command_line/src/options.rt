//! What `mcbft` is asked for without a command: all replicas in this process.

ghost use Rattle.std.specs.Prelude.{◌≡◌, IfOk, IfSome};
ghost use Rattle.clap.specs.Words.{found_of};
ghost use Rattle.command_line.specs.Options.{AreOptions, sizes_of};

use crate::reading::read_number;
use crate::shared;
use crate::table::{LeftOut, MOST_OF_32_BITS, Number, Text, Word};
use crate::terms::terms_of;
use clap::ArgMatches;
use ids::{Config, Fault};
use station::Terms;
use std::hash::RandomState;

/// All options, in the order in which help has them.
pub(crate) const WORDS: [Word; 19] = [
    Word::Text(Text {
        name: "keys",
        value: "FILE",
        left_out: LeftOut::Refused,
        help: "Key file, made by bin/make-keys F C",
    }),
    Word::Number(Number {
        name: "faults",
        value: "F",
        least: 0,
        most: 255,
        left_out: LeftOut::Default("1"),
        help: "Faulty replicas, of 3F + 1: 1 to 10",
    }),
    Word::Number(Number {
        name: "clients",
        value: "C",
        least: 0,
        most: 255,
        left_out: LeftOut::Default("8"),
        help: "Connections at once: 1 to 64",
    }),
    Word::Number(Number {
        name: "port",
        value: "P",
        least: 0,
        most: 65_535,
        left_out: LeftOut::Default("0"),
        help: "Port on 127.0.0.1; 0: a free one",
    }),
    Word::Liar("Replicas lie, from 0 on"),
    Word::Number(Number {
        name: "liars",
        value: "COUNT",
        least: 0,
        most: 255,
        left_out: LeftOut::Default("1"),
        help: "Replicas that lie, if any: 1 to F",
    }),
    shared::LIAR_UNTIL,
    shared::LIAR_SEED,
    Word::Number(Number {
        name: "liar-client",
        value: "COUNT",
        least: 0,
        most: 255,
        left_out: LeftOut::Default("0"),
        help: "Clients that lie, of the first seats",
    }),
    shared::SERVE,
    Word::Number(Number {
        name: "keys-held",
        value: "N",
        least: 0,
        most: MOST_OF_32_BITS,
        left_out: LeftOut::Default("65536"),
        help: "Keys in the cache: 1 to 65,536",
    }),
    shared::BLOCKS,
    shared::WINDOW,
    shared::WINDOW_MOST,
    shared::RECORD,
    Word::Number(Number {
        name: "late",
        value: "HEIGHT",
        least: 0,
        most: MOST_OF_32_BITS,
        left_out: LeftOut::Default("0"),
        help: "The last replica begins when others are there; 0: at once",
    }),
    Word::Archive,
    shared::WORKERS,
    shared::WATCH,
];

/// What the words ask for.
#[derive(Clone, Copy)]
pub struct Options<'a> {
    /// The key file's path.
    pub keys: &'a str,
    pub faults: u8,
    pub clients: u8,
    pub port: u16,
    /// How many keys the cache holds.
    pub keys_held: u32,
    /// How many replicas lie, where a lie is named.
    pub liars: u8,
    pub terms: Terms,
}

impl<'a> Options<'a> {
    /// The sizes of the deployment. `BadSize` where they are out of their limits, or nobody or more than F are to lie;
    /// `BadKeys` where the cache has no such room.
    pub fn config(&self) -> Result<Config, Fault>
        ensures { IfOk result (λ config. config ≡ sizes_of self.now) }
    {
        let sizes = Config::new(self.faults, self.clients)?;
        if self.liars == 0 || self.liars > self.faults {
            return Err(Fault::BadSize);
        }
        sizes.with_most_keys(self.keys_held as usize)
    }

    /// The options that were read. All have a value, or a default. The hasher is the caches'.
    pub fn read(matches: &ArgMatches<'a>, hasher: RandomState) -> Option<Options<'a>>
        ensures { IfSome result (AreOptions (found_of matches.now)) }
    {
        let liars = u8::try_from(read_number(matches, "liars")?).ok()?;
        Some(Options {
            keys: matches.get_str("keys")?,
            faults: u8::try_from(read_number(matches, "faults")?).ok()?,
            clients: u8::try_from(read_number(matches, "clients")?).ok()?,
            port: u16::try_from(read_number(matches, "port")?).ok()?,
            keys_held: u32::try_from(read_number(matches, "keys-held")?).ok()?,
            liars,
            terms: terms_of(matches, liars, hasher)?,
        })
    }
}
