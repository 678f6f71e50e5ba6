//! The names of lies.

ghost use Rattle.command_line.specs.Options.{AreLiars};
ghost use Rattle.clap.specs.Words.{found_of};

use crate::reading::{read_number, unless_zero};
use clap::ArgMatches;
use liars::{Liar, Lie};
use station::Liars;

/// All of them, in the order in which help has them.
pub(crate) const LIARS: [&str; 17] = [
    "mute",
    "two-faced",
    "bad-reply",
    "crowder",
    "flooder",
    "half-voter",
    "late-half-voter",
    "half-votes",
    "climber",
    "low-justifier",
    "spoiler",
    "wrong-answers",
    "false-claims",
    "one-left-out",
    "wrong-records",
    "false-doubts",
    "any",
];

/// The lie of this name, if it needs no memory.
fn lie_of(name: &str) -> Option<Lie> {
    match name {
        "mute" => Some(Lie::Mute),
        "two-faced" => Some(Lie::TwoFaced),
        "bad-reply" => Some(Lie::BadReply),
        "crowder" => Some(Lie::Crowder),
        "flooder" => Some(Lie::Flooder),
        "half-voter" => Some(Lie::HalfVoter),
        "late-half-voter" => Some(Lie::LateHalfVoter),
        "half-votes" => Some(Lie::HalfVotes),
        "climber" => Some(Lie::Climber),
        "spoiler" => Some(Lie::Spoiler),
        "wrong-answers" => Some(Lie::WrongAnswers),
        "one-left-out" => Some(Lie::OneLeftOut),
        "wrong-records" => Some(Lie::WrongRecords),
        "false-doubts" => Some(Lie::FalseDoubts),
        _ => None,
    }
}

/// The liar of this name, which draws from this seed where it draws.
fn liar_of(name: &str, seed: u64) -> Option<Liar> {
    match name {
        "low-justifier" => Some(Liar::LowJustifier),
        "false-claims" => Some(Liar::FalseClaims),
        "any" => Some(Liar::Any(seed)),
        _ => lie_of(name).map(Liar::Plain),
    }
}

/// The replicas that are to lie, if some are.
pub(crate) fn liars_of(matches: &ArgMatches<'_>, count: u8) -> Option<Liars>
    ensures { AreLiars (found_of matches.now) count result }
{
    let name = matches.get_str("liar")?;
    let seed = read_number(matches, "liar-seed")?;
    let until = unless_zero(read_number(matches, "liar-until")?);
    Some(Liars {
        liar: liar_of(name, seed)?,
        count,
        until,
    })
}
