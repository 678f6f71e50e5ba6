//! What replicas answer that were refused memory.

use crate::judged::run::{Run, number_of};
use crate::judged::wrong::Wrong;
use ids::{Fault, ReplicaId};

/// Whether a replica may stop where it answers so.
fn may_stop(answer: Option<Fault>) -> bool {
    matches!(answer, Some(Fault::Memory | Fault::Conflict | Fault::Full))
}

/// Whether a replica that stopped may answer so: to bytes that bring it nothing it answers as ever.
fn is_of_stopped(answer: Option<Fault>) -> bool {
    matches!(
        answer,
        Some(Fault::Stopped | Fault::NotAFrame | Fault::BadTag | Fault::NotMine)
    )
}

/// Whether a replica was refused memory in one of so many events.
fn was_refused(run: &Run<'_>, replica: ReplicaId, count: usize) -> bool {
    run.events.iter().take(count).enumerate().any(|(before, event)| {
        run.answer(before) == Some(Fault::Memory) && run.reached(event) == Some(replica)
    })
}

/// Whether a replica may have stopped in one of so many events.
fn may_have_stopped(run: &Run<'_>, replica: ReplicaId, count: usize) -> bool {
    run.events.iter().take(count).enumerate().any(|(before, event)| {
        may_stop(run.answer(before)) && run.reached(event) == Some(replica)
    })
}

/// Each later input of a replica that was refused memory is answered 20, and no other replica's is.
pub(crate) fn check_answers(run: &Run<'_>) -> Result<(), Wrong> {
    for (before, event) in run.events.iter().enumerate() {
        let Some(replica) = run.reached(event) else {
            continue;
        };
        let answer = run.answer(before);
        if was_refused(run, replica, before) && !is_of_stopped(answer) {
            return Err(Wrong::GoesOn(number_of(before)));
        }
        if answer == Some(Fault::Stopped) && !may_have_stopped(run, replica, before) {
            return Err(Wrong::Stopped(number_of(before)));
        }
    }
    Ok(())
}

/// No frame was sent in an event that was refused memory.
pub(crate) fn check_frames(run: &Run<'_>) -> Result<(), Wrong> {
    let mut frames = run.outcome.frames.iter();
    match frames.find(|sent| run.is_refused(sent.event)) {
        Some(sent) => Err(Wrong::Sent(sent.event)),
        None => Ok(()),
    }
}
