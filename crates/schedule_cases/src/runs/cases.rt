//! The schedules of the input.

use anyhow::{Result, bail};
use std::alloc::Global;

/// What goes wrong with the reader or the writer of a schedule.
#[derive(Clone, Copy)]
pub(crate) enum Trouble {
    Nothing,
    ReaderFails,
    Room(usize),
}

/// A schedule, and its name.
#[derive(Drop)]
pub(crate) struct Case<'a> {
    pub(crate) name: &'a str,
    pub(crate) text: Vec<u8>,
    pub(crate) trouble: Trouble,
}

impl<'a> Case<'a> {
    /// Does what a line says that isn't one of the schedule.
    fn direct(&mut self, words: &str) -> Result<()> {
        match words {
            "cut" => {
                let _ = self.text.pop();
            }
            "reader fails" => self.trouble = Trouble::ReaderFails,
            _ => match words.strip_prefix("room ") {
                Some(most) => self.trouble = Trouble::Room(most.parse()?),
                None => bail!("what is {words}?"),
            },
        }
        Ok(())
    }
}

/// Adds a line to the cases so far.
fn add_line<'a>(alloc: Global, cases: &mut Vec<Case<'a>>, line: &'a [u8]) -> Result<()> {
    if let Some(words) = line.strip_prefix(b": ") {
        let name = str::from_utf8(words)?.trim_end();
        cases.push(Case {
            name,
            text: Vec::new(alloc),
            trouble: Trouble::Nothing,
        })?;
        return Ok(());
    }
    let Some(case) = cases.last_mut() else {
        bail!("a line before the first name");
    };
    match line.strip_prefix(b":") {
        Some(words) => case.direct(str::from_utf8(words)?.trim_end()),
        None => {
            case.text.extend_from_slice(line)?;
            Ok(())
        }
    }
}

/// The cases of the input.
pub(crate) fn parse(alloc: Global, input: &[u8]) -> Result<Vec<Case<'_>>> {
    let mut cases = Vec::new(alloc);
    for line in input.split_inclusive(|byte| *byte == b'\n') {
        add_line(alloc, &mut cases, line)?;
    }
    Ok(cases)
}
