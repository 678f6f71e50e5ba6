//! What `mcbft ask` is asked for.

ghost use Rattle.std.specs.Prelude.{◌≡◌, IfSome};
ghost use Rattle.clap.specs.Words.{found_of};
ghost use Rattle.command_line.specs.Options.{AreAskOptions, name_of};

use crate::shared;
use crate::table::Word;
use clap::ArgMatches;
use state_marks::Ask;

/// The names of all that a replica can be asked.
pub(crate) const ASKS: [&str; 2] = ["window", "stop"];

/// All words, in the order in which help has them.
pub(crate) const WORDS: [Word; 2] = [Word::Ask, shared::STATE];

/// What the words ask of a replica's process.
#[derive(Clone, Copy)]
pub struct AskOptions<'a> {
    pub ask: Ask,
    /// The path of its state directory.
    pub state: &'a str,
}

/// What is asked by this name.
fn ask_of(name: &str) -> Option<Ask>
    ensures { IfSome result (λ ask. name.now ≡ name_of ask) }
{
    match name {
        "window" => Some(Ask::Window),
        "stop" => Some(Ask::Stop),
        _ => None,
    }
}

impl<'a> AskOptions<'a> {
    /// What was read, all that is needed.
    pub fn read(matches: &ArgMatches<'a>) -> Option<AskOptions<'a>>
        ensures { IfSome result (AreAskOptions (found_of matches.now)) }
    {
        Some(AskOptions {
            ask: ask_of(matches.get_str("what")?)?,
            state: matches.get_str("state")?,
        })
    }
}
