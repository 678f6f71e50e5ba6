//! Answers to the outstanding request: each place and text that a replica told, once.

ghost use Rattle.std.specs.Prelude.{◌≡◌, ◌&&◌, ◌==◌, IfOk, OnErr};
ghost use Rattle.std.specs.List.{position};
ghost use Rattle.std.specs.Str.{bytes_eq};
ghost use Rattle.client_accept.specs.Tallies.{IsSaidAt, IsLonger};

use ids::{Fault, Place};
use std::alloc::Global;

/// A place and a text.
#[derive(Drop)]
pub(crate) struct Answer {
    pub(crate) place: Place,
    pub(crate) text: Vec<u8>,
}

impl Answer {
    /// Whether it is this place and text.
    pub(crate) fn is(&self, place: Place, text: &[u8]) -> bool
        ensures { result ≡ ((self.now.place == place) && bytes_eq self.now.text.items text.now) }
    {
        self.place == place && self.text.as_slice() == text
    }
}

/// The number of the first answer that is this place and text.
fn number_of(answers: &[Answer], place: Place, text: &[u8]) -> Option<usize>
    ensures { result ≡ position (λ a. (a.place == place) && bytes_eq a.text.items text.now) answers.now }
{
    answers.iter().position(|answer| answer.is(place, text))
}

/// The number of the answer that is this place and text, which is kept where there is none yet.
pub(crate) fn keep(
    alloc: Global,
    answers: &mut Vec<Answer>,
    place: Place,
    text: &[u8],
) -> Result<usize, Fault>
    ensures kept { IfOk result (λ i. IsSaidAt answers.new.items i (place, text.now)) }
    ensures longer { IsLonger answers.old.items answers.new.items }
    ensures memory { OnErr result (result ≡ Err Fault.Memory) }
{
    match number_of(answers.as_slice(), place, text) {
        Some(number) => Ok(number),
        None => {
            let number = answers.len();
            let text = Vec::from_slice(alloc, text)?;
            answers.push(Answer { place, text })?;
            Ok(number)
        }
    }
}
