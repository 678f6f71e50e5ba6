//! What clients accepted.

use crate::judged::history::fresh;
use crate::judged::run::{Run, number_of};
use crate::judged::wrong::Wrong;
use cache::Cache;
use executor::{Entries, Entry};
use ids::Fault;
use mc_lines::{Reply, read_canonical, write_reply};
use std::alloc::Global;
use world_schedule::{Accepted, World};

/// Does what a payload asks, and writes the reply.
fn answer(cache: &mut Cache, payload: &[u8], text: &mut Vec<u8>) -> Result<(), Fault> {
    let reply = match read_canonical(payload) {
        Some(request) => cache.apply(&request)?,
        None => Reply::NoRequest,
    };
    write_reply(&reply, text)
}

/// Applies the fresh ones of so many entries to a cache, and leaves the text of the last reply.
fn answer_all(
    cache: &mut Cache,
    whole: &Entries,
    count: usize,
    text: &mut Vec<u8>,
) -> Result<(), Fault> {
    for before in 0..count {
        if let Some(entry) = fresh(whole, before) {
            text.clear();
            answer(cache, entry.payload(), text)?;
        }
    }
    Ok(())
}

/// Whether the sequential cache replies so to the last of so many entries, which is fresh.
fn is_reply(
    alloc: Global,
    world: &World,
    whole: &Entries,
    count: usize,
    told: &[u8],
) -> Result<bool, Fault> {
    let mut cache = Cache::new(alloc, world.config().most_keys(), world.hasher())?;
    let mut text = Vec::new(alloc);
    answer_all(&mut cache, whole, count, &mut text)?;
    Ok(text.as_slice() == told)
}

/// Whether an entry is of the command that a receipt is for.
fn is_for(accepted: &Accepted, entry: &Entry<'_>) -> bool {
    accepted.client == entry.client() && accepted.receipt.seq == entry.seq()
}

/// How many entries there are up to the one that a receipt is for, if it stands at its place.
fn count_to(whole: &Entries, accepted: &Accepted) -> Option<usize> {
    let count = usize::try_from(accepted.receipt.place.0).ok()?;
    let before = count.checked_sub(1)?;
    let entry = fresh(whole, before)?;
    if is_for(accepted, &entry) {
        Some(count)
    } else {
        None
    }
}

/// The receipt stands at its place in the one history, with the text that the cache gives there.
pub(crate) fn check_receipt(
    alloc: Global,
    world: &World,
    whole: &Entries,
    accepted: &Accepted,
) -> Result<Result<(), Wrong>, Fault> {
    let Some(count) = count_to(whole, accepted) else {
        return Ok(Err(Wrong::Misplaced(accepted.event)));
    };
    if is_reply(alloc, world, whole, count, &accepted.receipt.text)? {
        Ok(Ok(()))
    } else {
        Ok(Err(Wrong::Misread(accepted.event)))
    }
}

/// Whether an entry was submitted after an event.
fn is_later(run: &Run<'_>, entry: &Entry<'_>, event: u64) -> bool {
    match run.submission(entry.client(), entry.seq()) {
        Some(submission) => run.is_correct(entry.client()) && event < submission.event,
        None => false,
    }
}

/// What was submitted after an acceptance stands later.
pub(crate) fn check_order(
    run: &Run<'_>,
    whole: &Entries,
    accepted: &Accepted,
) -> Result<(), Wrong> {
    for before in 0..whole.len() {
        let place = number_of(before);
        if let Some(entry) = fresh(whole, before) {
            if place <= accepted.receipt.place.0 && is_later(run, &entry, accepted.event) {
                return Err(Wrong::OutOfOrder(place));
            }
        }
    }
    Ok(())
}
