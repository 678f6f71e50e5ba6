//! Numbers, as the words say them.

ghost use Rattle.std.specs.Prelude.{◌≡◌, IfSome, Some, codes, option_map};
ghost use Rattle.clap.specs.Words.{found_of};
ghost use Rattle.command_line.specs.Options.{most_of, number_of, unless_zero};

use clap::ArgMatches;

/// The number of an option, or what stands for it.
pub(crate) fn read_number(matches: &ArgMatches<'_>, name: &str) -> Option<u64>
    ensures { IfSome result (λ n. number_of (found_of matches.now) name.now ≡ Some n) }
{
    matches.get_one(name)
}

/// A number for which 0 stands for none.
pub(crate) fn unless_zero(number: u64) -> Option<u64>
    ensures { result ≡ unless_zero number }
{
    if number == 0 { None } else { Some(number) }
}

/// How many connections are to be served.
pub(crate) fn most_of(matches: &ArgMatches<'_>) -> Option<u64>
    ensures { IfSome result (λ most. option_map most_of (number_of (found_of matches.now) (codes "serve")) ≡ Some most) }
{
    let most = read_number(matches, "serve")?;
    Some(unless_zero(most).unwrap_or(u64::MAX))
}
