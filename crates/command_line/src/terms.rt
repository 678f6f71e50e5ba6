//! How replicas are to run.

ghost use Rattle.std.specs.Prelude.{◌≡◌, IfSome};
ghost use Rattle.clap.specs.Words.{found_of};
ghost use Rattle.command_line.specs.Options.{AreTerms, AreTermsOfOne, IsWindow, workers_of};

use crate::lies::liars_of;
use crate::reading::{most_of, read_number, unless_zero};
use clap::ArgMatches;
use ids::Height;
use station::{Terms, Workers};
use std::hash::RandomState;

/// So many workers, of which there are at most two.
fn workers_of(number: u64) -> Workers
    ensures { result ≡ workers_of number }
{
    if number < 2 {
        Workers::One
    } else {
        Workers::Two
    }
}

/// How a replica is to run that is a process of its own, where so many lie.
pub(crate) fn terms_of_one(
    matches: &ArgMatches<'_>,
    liars: u8,
    hasher: RandomState,
) -> Option<Terms>
    ensures { IfSome result (AreTermsOfOne (found_of matches.now) liars) }
{
    Some(Terms {
        liars: liars_of(matches, liars),
        liar_clients: 0,
        most: u64::MAX,
        blocks: unless_zero(read_number(matches, "blocks")?).map(|blocks| blocks as usize),
        window: Some(read_number(matches, "window")?),
        window_most: unless_zero(read_number(matches, "window-most")?),
        record: read_number(matches, "record")?,
        late: None,
        workers: workers_of(read_number(matches, "workers")?),
        patience: 1,
        watch: unless_zero(read_number(matches, "watch")?),
        hasher,
    })
}

/// How many heights replicas keep: none is forgotten where there is to be an archive.
fn window_of(matches: &ArgMatches<'_>, window: u64) -> Option<u64>
    ensures { IsWindow (found_of matches.now) window result }
{
    if matches.get_flag("archive") {
        None
    } else {
        Some(window)
    }
}

/// How all replicas are to run, of which so many lie.
pub(crate) fn terms_of(matches: &ArgMatches<'_>, liars: u8, hasher: RandomState) -> Option<Terms>
    ensures { IfSome result (AreTerms (found_of matches.now) liars) }
{
    let of_one = terms_of_one(matches, liars, hasher)?;
    let window = read_number(matches, "window")?;
    Some(Terms {
        liar_clients: u8::try_from(read_number(matches, "liar-client")?).ok()?,
        most: most_of(matches)?,
        window: window_of(matches, window),
        patience: 1,
        late: unless_zero(read_number(matches, "late")?).map(|height| Height(height)),
        ..of_one
    })
}
