//! What is told of a run.

use crate::judged::answers::{check_answers, check_frames};
use crate::judged::history::{check_entries, check_histories, check_replies, longest};
use crate::judged::receipts::{check_order, check_receipt};
use crate::judged::run::Run;
use crate::judged::wrong::Wrong;
use anyhow::{Context, Result};
use executor::Entries;
use ids::Fault;

/// Tells how many events, frames and refusals there were.
fn tell_counts(rt: &HostRuntime, run: &Run<'_>) -> Result<()> {
    let (events, frames) = (run.outcome.answers.len(), run.outcome.frames.len());
    let answers = run.outcome.answers.as_slice();
    let refused = answers
        .iter()
        .filter(|answer| **answer == Some(Fault::Memory))
        .count();
    let stopped = answers
        .iter()
        .filter(|answer| **answer == Some(Fault::Stopped))
        .count();
    println!(rt;
        "{events} events, {frames} frames; {refused} refused, {stopped} at stopped replicas"
    )?;
    Ok(())
}

/// Tells the lengths of the histories.
fn tell_histories(rt: &HostRuntime, run: &Run<'_>) -> Result<()> {
    print!(rt; "histories")?;
    for history in &run.outcome.histories {
        print!(rt; " {}:{}", history.replica(), history.len())?;
    }
    println!(rt;)?;
    Ok(())
}

/// Tells the receipts.
fn tell_receipts(rt: &HostRuntime, run: &Run<'_>) -> Result<()> {
    print!(rt; "receipts")?;
    for accepted in &run.outcome.receipts {
        let receipt = &accepted.receipt;
        print!(rt; " {}:{}@{}", accepted.client, receipt.seq, receipt.place)?;
    }
    println!(rt;)?;
    Ok(())
}

/// Tells what is wrong, if anything; whether nothing is.
fn is_right(rt: &HostRuntime, found: Result<(), Wrong>) -> Result<bool> {
    if let Err(wrong) = found {
        println!(rt; "wrong: {wrong}")?;
        return Ok(false);
    }
    Ok(true)
}

/// Whether the receipts are right. Tells what isn't.
fn are_receipts_right(rt: &HostRuntime, run: &Run<'_>, whole: &Entries) -> Result<bool> {
    let mut right = true;
    for accepted in &run.outcome.receipts {
        right &= is_right(rt, check_receipt(rt.alloc(), run.world, whole, accepted)?)?;
        right &= is_right(rt, check_order(run, whole, accepted))?;
    }
    Ok(right)
}

/// Whether everything else is right. Tells what isn't.
fn are_others_right(rt: &HostRuntime, run: &Run<'_>, whole: &Entries) -> Result<bool> {
    let mut right = is_right(rt, check_answers(run))?;
    right &= is_right(rt, check_frames(run))?;
    right &= is_right(rt, check_histories(&run.outcome.histories, whole))?;
    right &= is_right(rt, check_entries(run, whole))?;
    right &= is_right(rt, check_replies(run))?;
    Ok(right)
}

/// Tells what is judged of a run.
pub(crate) fn tell(rt: &HostRuntime, run: &Run<'_>) -> Result<()> {
    tell_counts(rt, run)?;
    tell_histories(rt, run)?;
    tell_receipts(rt, run)?;
    let whole = longest(&run.outcome.histories).context("a history was forgotten")?;
    let others = are_others_right(rt, run, whole)?;
    if are_receipts_right(rt, run, whole)? && others {
        println!(rt; "linear")?;
    }
    Ok(())
}
