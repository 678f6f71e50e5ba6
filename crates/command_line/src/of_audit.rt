//! What `mcbft audit` is asked for.

ghost use Rattle.std.specs.Prelude.{IfSome};
ghost use Rattle.clap.specs.Words.{found_of};
ghost use Rattle.command_line.specs.Options.{AreAuditOptions};

use crate::table::Word;
use clap::ArgMatches;

/// All words, in the order in which help has them.
pub(crate) const WORDS: [Word; 1] = [Word::Windows];

/// Which windows are to be judged.
#[derive(Clone, Copy)]
pub struct AuditOptions<'m, 'a> {
    /// The paths of their files.
    pub paths: &'m [&'a str],
}

impl<'m, 'a> AuditOptions<'m, 'a> {
    /// What was read, all that is needed.
    pub fn read(matches: &'m ArgMatches<'a>) -> Option<AuditOptions<'m, 'a>>
        ensures { IfSome result (AreAuditOptions (found_of matches.now)) }
    {
        Some(AuditOptions {
            paths: matches.get_strs("windows")?,
        })
    }
}
