//! Letters. Of a text the letter that it spells is told, by its name and what it says, and then what is written of that
//! letter; or `none`.

use crate::fields::{bytes_of, told};
use anyhow::Result;
use letters::{Letter, Progress, read, write};
use std::alloc::Global;

/// A yes or no.
fn word(says: bool) -> &'static str {
    if says { "yes" } else { "no" }
}

/// How far a replica is.
fn progress_told(alloc: Global, progress: &Progress) -> Result<String> {
    let Progress {
        height,
        horizon,
        recorded,
        view,
        goes_on,
        is_away,
    } = progress;
    let goes_on = word(*goes_on);
    let is_away = word(*is_away);
    Ok(format!(in alloc; "told {height} {horizon} {recorded} {view} {goes_on} {is_away}")?)
}

/// What a letter says.
fn words(alloc: Global, letter: &Letter<'_>) -> Result<String> {
    Ok(match letter {
        Letter::Frame(frame) => format!(in alloc; "frame {}", told(alloc, frame)?)?,
        Letter::Passed(request) => format!(in alloc; "passed {}", told(alloc, request)?)?,
        Letter::Doubted(voters) => format!(in alloc; "doubted {voters}")?,
        Letter::Asked { from, bytes } => format!(in alloc; "asked {from} {bytes}")?,
        Letter::Recorded { from, frame } => {
            format!(in alloc; "recorded {from} {}", told(alloc, frame)?)?
        }
        Letter::Announced { from, frame } => {
            format!(in alloc; "announced {from} {}", told(alloc, frame)?)?
        }
        Letter::Answered {
            from,
            bytes,
            is_last,
        } => format!(in alloc; "answered {from} {bytes} {}", word(*is_last))?,
        Letter::Told(progress) => progress_told(alloc, progress)?,
    })
}

/// What is printed of a case.
pub(crate) fn case_told(alloc: Global, text: &str) -> Result<String> {
    let text = bytes_of(alloc, text)?;
    let Some(letter) = read(&text) else {
        return Ok(String::from_str(alloc, "none")?);
    };
    let written = write(alloc, &letter)?;
    Ok(format!(in alloc; "{} {}", words(alloc, &letter)?, told(alloc, &written)?)?)
}
