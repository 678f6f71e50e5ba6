ghost use Rattle.std.specs.Prelude.{IfSome};
ghost use Rattle.clap.specs.Words.{found_of};
ghost use Rattle.command_line.specs.Options.{AreFiles};

use clap::ArgMatches;

/// The files of a process that is one party of a deployment.
#[derive(Clone, Copy)]
pub struct Files<'a> {
    /// The deployment file's path.
    pub deployment: &'a str,
    /// The path of the party's own key file.
    pub keys: &'a str,
    /// The path of its state directory.
    pub state: &'a str,
}

impl<'a> Files<'a> {
    /// Those that the words name.
    pub(crate) fn read(matches: &ArgMatches<'a>) -> Option<Files<'a>>
        ensures { IfSome result (AreFiles (found_of matches.now)) }
    {
        Some(Files {
            deployment: matches.get_str("deployment")?,
            keys: matches.get_str("keys")?,
            state: matches.get_str("state")?,
        })
    }
}
