//! The cases of the input.

use anyhow::{Context, Result};
use ids::MOST_KEYS;

/// A schedule, its name, and what is particular of it.
#[derive(Drop)]
pub(crate) struct Case<'a> {
    pub(crate) name: &'a str,
    /// The event that is taken to be refused memory, if any.
    pub(crate) refused: Option<usize>,
    /// For how many keys the replicas' caches have room.
    pub(crate) most_keys: usize,
    pub(crate) schedule: &'a [u8],
}

/// The event that a word names, if it isn't empty.
fn event_of(word: &str) -> Result<Option<usize>> {
    match word {
        "" => Ok(None),
        _ => Ok(Some(word.parse()?)),
    }
}

impl<'a> Case<'a> {
    /// A case of what stands between its colon and the next one.
    pub(crate) fn read(text: &'a [u8]) -> Result<Case<'a>> {
        let text = str::from_utf8(text)?;
        let (heading, schedule) = text.split_once('\n').context("a case without a schedule")?;
        let (word, name) = heading.split_once(' ').context("a case without a name")?;
        let (refused, most_keys) = match word.strip_prefix("keys=") {
            Some(number) => (None, number.parse()?),
            None => (event_of(word)?, MOST_KEYS),
        };
        Ok(Case {
            name,
            refused,
            most_keys,
            schedule: schedule.as_bytes(),
        })
    }
}
