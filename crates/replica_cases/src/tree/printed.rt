//! How the words of `ids` are printed that no other case prints.

use crate::tree::blocks::number;
use ids::{Fault, Height, LineFault, NotAFrame, PartyId, View};
use std::alloc::Global;
use std::fmt::Display;

/// Anything that is printed.
fn shown<T: Display + Drop>(alloc: Global, value: T) -> Result<String, Fault> {
    Ok(format!(in alloc; "{value}")?)
}

/// The words of a refusal.
fn fault(alloc: Global, number: u64) -> Result<String, Fault> {
    match number {
        5 => shown(alloc, LineFault::BadChunk),
        10 => shown(alloc, NotAFrame),
        44 => shown(alloc, Fault::TooFew),
        _ => Err(Fault::BadFields),
    }
}

/// How a number is printed that is of this word.
pub(crate) fn printed(alloc: Global, words: &str) -> Result<String, Fault> {
    let (word, digits) = words.split_once(' ').unwrap_or((words, ""));
    let number = number(digits)?;
    match word {
        "fault" => fault(alloc, number),
        "height" => shown(alloc, Height(number)),
        "view" => shown(alloc, View(number)),
        "party" if number < 512 => shown(alloc, PartyId(number as u16)),
        _ => Err(Fault::BadFields),
    }
}
