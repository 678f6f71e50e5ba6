//! What came to the stand-ins for replicas.

use crate::workers::meeting::Meeting;
use ids::{Fault, ReplicaId};
use replica::{Input, Out};
use std::alloc::Global;
use std::sync::atomic::AtomicU64;
use std::sync::atomic::Ordering::SeqCst;
use std::sync::{Mutex, Wait};

/// The number of what is answered with more frames.
const ANSWERED: usize = 500;

/// What came to the stand-ins, counted by all threads.
#[derive(Drop)]
pub(crate) struct Seen {
    /// How many inputs were brought.
    inputs: AtomicU64,
    /// How often each question or request came, by number, whatever replica it came to.
    asked: Vec<AtomicU64>,
    /// How many requests, announcements and votes came, by number of replica.
    requested: Vec<AtomicU64>,
    announced: Vec<AtomicU64>,
    voted: Vec<AtomicU64>,
    /// Whether the call for question 1 waits for that for question 2.
    waits: bool,
    meeting: Meeting,
    /// What is asked under one number is answered with these.
    answers: Mutex<Option<Out>>,
}

/// So many counters at 0.
fn counters(alloc: Global, count: usize) -> Result<Vec<AtomicU64>, Fault> {
    let mut counters = Vec::with_capacity(alloc, count)?;
    for _ in 0..count {
        counters.push(AtomicU64::new(0))?;
    }
    Ok(counters)
}

/// Counts one more at a place, if it is there.
fn count(counters: &[AtomicU64], place: usize) {
    if let Some(counter) = counters.get(place) {
        counter.fetch_add(1, SeqCst);
    }
}

/// The counts, one after the other, with a blank before each.
fn listed(alloc: Global, counters: &[AtomicU64]) -> Result<String, Fault> {
    let mut text = String::new(alloc);
    for counter in counters {
        let count = counter.load(SeqCst);
        write!(text, " {count}")?;
    }
    Ok(text)
}

impl Seen {
    /// What is asked under one number is answered with these frames.
    pub(crate) fn new(alloc: Global, waits: bool, answers: Out) -> Result<Seen, Fault> {
        let asked = counters(alloc, 1001)?;
        let requested = counters(alloc, 4)?;
        let announced = counters(alloc, 4)?;
        let voted = counters(alloc, 4)?;
        Ok(Seen {
            inputs: AtomicU64::new(0),
            asked,
            requested,
            announced,
            voted,
            waits,
            meeting: Meeting::new(),
            answers: Mutex::new(Some(answers)),
        })
    }

    /// The number of what is asked: a request's own, and of a question the first bytes of the digest.
    fn number_of(input: &Input<'_>) -> Option<usize> {
        match input {
            Input::Request(asked) => Some(asked.view().seq().0 as usize),
            Input::Fetch(asked) => {
                let [high, low, ..] = *asked.view().digest();
                Some(usize::from(u16::from_be_bytes([high, low])))
            }
            _ => None,
        }
    }

    /// Counts an input at a replica, and answers the number of what it asks.
    pub(crate) fn note(&self, replica: ReplicaId, input: &Input<'_>) -> Option<usize> {
        match input {
            Input::Request(_) => count(&self.requested, usize::from(replica.0)),
            Input::NewView(_) => count(&self.announced, usize::from(replica.0)),
            Input::Vote(_) => count(&self.voted, usize::from(replica.0)),
            _ => {}
        }
        let number = Seen::number_of(input)?;
        count(&self.asked, number);
        Some(number)
    }

    /// Waits in the call for question 1 until that for question 2 began.
    pub(crate) fn meet(&self, question: Option<usize>) {
        match question {
            Some(1) if self.waits => self.meeting.wait(),
            Some(2) => self.meeting.come(),
            _ => {}
        }
    }

    /// What goes out after a step.
    pub(crate) fn out_of<R: Wait>(&self, rt: &R, question: Option<usize>, out: Out) -> Out {
        if question != Some(ANSWERED) {
            return out;
        }
        match self.answers.lock(rt).take() {
            Some(answers) => answers,
            None => out,
        }
    }

    /// An input was brought, and its step made.
    pub(crate) fn done(&self) {
        self.inputs.fetch_add(1, SeqCst);
    }

    /// How many inputs were brought.
    pub(crate) fn inputs(&self) -> u64 {
        self.inputs.load(SeqCst)
    }

    /// Whether call 1 waited until call 2 began.
    pub(crate) fn has_met(&self) -> bool {
        self.meeting.has_met()
    }

    /// Whether what is asked under this number came.
    pub(crate) fn came(&self, number: usize) -> bool {
        match self.asked.get(number) {
            Some(count) => count.load(SeqCst) > 0,
            None => false,
        }
    }

    /// How many numbers came once, at whatever replica.
    pub(crate) fn came_once(&self) -> usize {
        self.asked
            .iter()
            .filter(|count| count.load(SeqCst) == 1)
            .count()
    }

    /// How many requests came to each replica.
    pub(crate) fn requested(&self, alloc: Global) -> Result<String, Fault> {
        listed(alloc, &self.requested)
    }

    /// How many announcements came to each replica.
    pub(crate) fn announced(&self, alloc: Global) -> Result<String, Fault> {
        listed(alloc, &self.announced)
    }

    /// How many votes came to each replica.
    pub(crate) fn voted(&self, alloc: Global) -> Result<String, Fault> {
        listed(alloc, &self.voted)
    }
}
