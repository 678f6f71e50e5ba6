//! Runs the feed and the service of a connection over cases, each a line:
//!
//! - A text in hexadecimal, pushed into a feed in pieces of 1, 2, 3, 5, 8 and 13 bytes. Printed is
//!   how many items were given and the first half of the SHA-256 digest of what they are, if all
//!   pieces agree on that; then what serving the text comes to.
//! - `cuts` and a text, pushed in two pieces, cut at every place. Printed are the places and the
//!   same of the items.
//! - Seven numbers and a text that is served: how much the first read gives and how much each other
//!   one, the read that fails, whether each read and write is interrupted once before it goes well,
//!   how much each write takes, the write that fails, and the call that the service refuses, where
//!   0 is none. Printed are the end or the refusal, what was written, the payloads of the calls,
//!   and how often reader and writer failed.
//! - `waits` and a text of requests, each of which is sent only when the answers to all before it were seen.
//!
//! The service answers `STORED`.

mod devices;
mod feeding;
mod patience;
mod serving;

use crate::connections::feeding::{cut_in_two, in_pieces};
use crate::connections::patience::holds_texts_back;
use crate::connections::serving::{Plan, served};
use anyhow::Result;
use std::alloc::Global;

/// What is printed of a case.
pub(crate) fn case_told(alloc: Global, case: &str) -> Result<String> {
    let Some((how, text)) = case.split_once(' ') else {
        let text = hex::decode(alloc, case)?;
        let items = in_pieces(alloc, &text)?;
        let plan = Plan::in_pieces(7);
        let served = served(alloc, &plan, &text)?;
        return Ok(format!(in alloc; "{items}; {served}")?);
    };
    let text = hex::decode(alloc, text)?;
    if how == "cuts" {
        return Ok(cut_in_two(alloc, &text)?);
    }
    if how == "waits" {
        return Ok(holds_texts_back(alloc, &text)?);
    }
    let plan = Plan::parse(how)?;
    Ok(served(alloc, &plan, &text)?)
}
