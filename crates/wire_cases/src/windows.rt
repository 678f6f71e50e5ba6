//! Window files. A text is a field of bytes.
//!
//! - Of `window TEXT` the sizes, the number, the last height, the lowest one, the digest of the last block and the text
//!   that is written again; or which line is bad.
//! - Of `judge TEXT ..` what the files show: `agree`, `fork` or `unmet` with two numbers, or `too few`.

use crate::fields::{bytes_of, next, told};
use anyhow::{Result, bail};
use audit::WindowVerdict;
use std::alloc::Global;
use std::str::Split;
use window_files::{Window, judge};

fn window_told(alloc: Global, field: &str) -> Result<String> {
    let text = bytes_of(alloc, field)?;
    let window = match Window::read(alloc, &text) {
        Ok(window) => window,
        Err(refusal) => return Ok(format!(in alloc; "{refusal}")?),
    };
    let head = window.head();
    let (faults, clients) = (head.config.faults(), head.config.clients());
    let again = told(alloc, &window.write(alloc)?)?;
    let mut line = format!(in alloc; "{faults} {clients} {}", head.config.most_keys())?;
    let number = head.number.0;
    write!(line, " {number} {} {}", head.height, head.lowest)?;
    write!(line, " {} {again}", window.last())?;
    Ok(line)
}

/// The windows of these files.
fn windows_of(alloc: Global, fields: &mut Split<'_, char>) -> Result<Vec<Window>> {
    let mut windows = Vec::new(alloc);
    for field in fields {
        let text = bytes_of(alloc, field)?;
        match Window::read(alloc, &text) {
            Ok(window) => windows.push(window)?,
            Err(_) => bail!("no window file"),
        }
    }
    Ok(windows)
}

fn verdict_told(alloc: Global, verdict: &WindowVerdict) -> Result<String> {
    let mut text = String::new(alloc);
    match verdict {
        WindowVerdict::Agree => text.push_str("agree")?,
        WindowVerdict::Fork { lower, higher } => write!(text, "fork {} {}", lower.0, higher.0)?,
        WindowVerdict::Unmet { lower, higher } => write!(text, "unmet {} {}", lower.0, higher.0)?,
    }
    Ok(text)
}

fn judge_told(alloc: Global, fields: &mut Split<'_, char>) -> Result<String> {
    let windows = windows_of(alloc, fields)?;
    let mut lent = Vec::new(alloc);
    for window in &windows {
        lent.push(window)?;
    }
    match judge(&lent) {
        Ok(verdict) => verdict_told(alloc, &verdict),
        Err(_) => Ok(String::from_str(alloc, "too few")?),
    }
}

/// What is printed of a case.
pub(crate) fn case_told(alloc: Global, subject: &str, case: &str) -> Result<String> {
    let mut fields = case.split(' ');
    match subject {
        "window" => window_told(alloc, next(&mut fields)?),
        "judge" => judge_told(alloc, &mut fields),
        _ => bail!("no such subject"),
    }
}
