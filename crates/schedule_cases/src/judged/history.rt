//! The one history.

use crate::judged::run::{Run, number_of};
use crate::judged::wrong::Wrong;
use executor::{Entries, Entry};
use frames_view::{Frame, ReplyView, read};
use ids::Kind;
use world_schedule::{History, SentFrame};

/// The longest history, and of several the first. None where a replica has forgotten its own.
pub(crate) fn longest(histories: &[History]) -> Option<&Entries> {
    let mut longest: Option<&Entries> = None;
    for history in histories {
        let entries = history.entries()?;
        match longest {
            Some(found) if entries.len() <= found.len() => {}
            _ => longest = Some(entries),
        }
    }
    longest
}

/// Whether two entries are of one command.
fn is_same(one: &Entry<'_>, other: &Entry<'_>) -> bool {
    one.client() == other.client() && one.seq() == other.seq() && one.payload() == other.payload()
}

/// Whether there are two entries, and they are of one command.
fn are_same(one: Option<Entry<'_>>, other: Option<Entry<'_>>) -> bool {
    match (&one, &other) {
        (Some(one), Some(other)) => is_same(one, other),
        _ => false,
    }
}

/// Whether entries are the first so many of others.
fn is_beginning(entries: &Entries, whole: &Entries) -> bool {
    for before in 0..entries.len() {
        if !are_same(entries.get(before), whole.get(before)) {
            return false;
        }
    }
    true
}

/// Each correct replica's history is a beginning of the one history.
pub(crate) fn check_histories(histories: &[History], whole: &Entries) -> Result<(), Wrong> {
    for history in histories {
        match history.entries() {
            Some(entries) if is_beginning(entries, whole) => {}
            _ => return Err(Wrong::Forks(history.replica())),
        }
    }
    Ok(())
}

/// The entry with so many before it, where it is fresh: its number is above those of its client's earlier
/// entries.
pub(crate) fn fresh(whole: &Entries, before: usize) -> Option<Entry<'_>> {
    let entry = whole.get(before)?;
    for i in 0..before {
        let earlier = whole.get(i)?;
        if earlier.client() == entry.client() && entry.seq() <= earlier.seq() {
            return None;
        }
    }
    Some(entry)
}

/// Whether its client submitted an entry.
fn was_submitted(run: &Run<'_>, entry: &Entry<'_>) -> bool {
    match run.submission(entry.client(), entry.seq()) {
        Some(submission) => submission.payload == entry.payload(),
        None => false,
    }
}

/// Each fresh entry in a correct client's name was submitted by it.
pub(crate) fn check_entries(run: &Run<'_>, whole: &Entries) -> Result<(), Wrong> {
    for before in 0..whole.len() {
        if let Some(entry) = fresh(whole, before) {
            if run.is_correct(entry.client()) && !was_submitted(run, &entry) {
                return Err(Wrong::NotSubmitted(number_of(before)));
            }
        }
    }
    Ok(())
}

/// Whether the command that a reply answers was submitted before this event.
fn is_submitted_before(run: &Run<'_>, reply: &ReplyView<'_>, event: u64) -> bool {
    match run.submission(reply.client(), reply.seq()) {
        Some(submission) => submission.event < event,
        None => !run.is_correct(reply.client()),
    }
}

/// Whether a frame is no reply, or one to what was submitted before.
fn follows(run: &Run<'_>, sent: &SentFrame) -> bool {
    if sent.kind != Kind::Reply {
        return true;
    }
    match read(&run.world.config(), &sent.frame) {
        Ok(Frame::Reply(reply)) => is_submitted_before(run, &reply, sent.event),
        _ => false,
    }
}

/// What correct replicas answered to correct clients had been submitted before.
pub(crate) fn check_replies(run: &Run<'_>) -> Result<(), Wrong> {
    match run.outcome.frames.iter().find(|sent| !follows(run, sent)) {
        Some(sent) => Err(Wrong::Foretold(sent.event)),
        None => Ok(()),
    }
}
