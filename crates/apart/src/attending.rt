//! What a replica's process does that is asked in its state directory.

use crate::refusal::Refusal;
use ids::PartyId;
use state_marks::{Ask, Directory};
use station::Station;
use std::rt::Files;
use std::sync::Wait;
use std::sync::atomic::AtomicBool;
use std::sync::atomic::Ordering::SeqCst;
use std::thread;
use std::time::{Clock, Duration};
use tuning::{ASK_LOOK_MILLIS, ASK_LOOKS};
use window_files::Window;

/// Who does what is asked of a replica's process.
#[derive(Drop)]
pub(crate) struct Attendant<'a> {
    state: &'a str,
    party: PartyId,
}

impl<'a> Attendant<'a> {
    /// Who looks into this directory, which is this party's. What was asked of an earlier process is taken back.
    pub(crate) fn new<R: Files + AllocGlobal>(
        rt: &R,
        state: &'a str,
        party: PartyId,
    ) -> Attendant<'a> {
        Ask::Stop.take_back(rt, state);
        Ask::Window.take_back(rt, state);
        Attendant { state, party }
    }

    /// Writes the window of a station's replica into the directory.
    fn keep_window<R: Files + Wait + AllocGlobal>(
        &self,
        rt: &R,
        station: &Station<'_>,
    ) -> Result<(), Refusal> {
        let window = Window::of(rt.alloc(), station.look(rt).replica())?;
        let text = window.write(rt.alloc())?;
        Directory::new(rt, self.state, self.party).keep_window(&text)?;
        Ok(())
    }

    /// Looks again and again what is asked, until the replica is asked to stop, or has stopped.
    pub(crate) fn keep<R: Files + Wait + Clock + AllocGlobal>(
        &self,
        rt: &R,
        station: &Station<'_>,
        stop: &AtomicBool,
    ) {
        for _ in 0..u64::MAX {
            if stop.load(SeqCst) || Ask::Stop.stands(rt, self.state) {
                break;
            }
            if Ask::Window.stands(rt, self.state) && self.keep_window(rt, station).is_ok() {
                Ask::Window.take_back(rt, self.state);
            }
            thread::sleep(rt, Duration::from_millis(ASK_LOOK_MILLIS));
        }
    }

    /// Writes the window of a replica at which nobody works any more. Who asked it to stop is told by this.
    pub(crate) fn end<R: Files + Wait + AllocGlobal>(
        &self,
        rt: &R,
        station: &Station<'_>,
    ) -> Result<(), Refusal> {
        self.keep_window(rt, station)?;
        Ask::Stop.take_back(rt, self.state);
        Ok(())
    }
}

/// Asks it of the replica's process that has this state directory, and waits until it is done. `NobodyAnswers` where it isn't for
/// so long: then it is asked no more.
pub fn ask<R: Files + Clock + AllocGlobal>(rt: &R, state: &str, ask: Ask) -> Result<(), Refusal> {
    ask.put(rt, state)?;
    for _ in 0..ASK_LOOKS {
        if !ask.stands(rt, state) {
            return Ok(());
        }
        thread::sleep(rt, Duration::from_millis(ASK_LOOK_MILLIS));
    }
    ask.take_back(rt, state);
    Err(Refusal::NobodyAnswers)
}
