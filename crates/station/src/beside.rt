//! What a replica that lies says outside of frames.

use bytes::Bytes;
use liars::{Liar, Lie};
use std::alloc::{AllocError, Global};

/// How a replica lies outside of frames.
#[derive(Clone, Copy, PartialEq, Eq)]
pub(crate) enum Beside {
    /// It says nothing.
    Mute,
    /// It answers wrongly what others ask of its record.
    Records,
    /// It tells each leader that votes of f others weren't right for it.
    Doubts,
}

impl Beside {
    /// What a liar does outside of frames.
    pub(crate) fn of(liar: Liar) -> Beside {
        match liar {
            Liar::Plain(Lie::WrongRecords) => Beside::Records,
            Liar::Plain(Lie::FalseDoubts) => Beside::Doubts,
            _ => Beside::Mute,
        }
    }
}

/// A copy of a frame, of which the last byte is another.
fn with_other_end(alloc: Global, frame: &Bytes) -> Result<Bytes, AllocError> {
    let mut bytes = Vec::from_slice(alloc, frame.as_slice())?;
    if let Some(last) = bytes.last_mut() {
        *last = last.wrapping_add(1);
    }
    Ok(Bytes::from_vec(bytes)?)
}

/// How the frames of an answer are wrong.
#[derive(Clone, Copy)]
pub(crate) enum Wrong {
    /// None is there.
    Nothing,
    /// The first lacks.
    Gap,
    /// All have other bytes.
    Bytes,
    /// They are the oldest.
    Old,
}

impl Wrong {
    /// How those of the answer of this number are.
    pub(crate) fn of(number: u64) -> Wrong {
        match number % 4 {
            0 => Wrong::Nothing,
            1 => Wrong::Gap,
            2 => Wrong::Bytes,
            _ => Wrong::Old,
        }
    }

    /// Wrong ones in place of these.
    pub(crate) fn frames(
        self,
        alloc: Global,
        frames: Vec<Bytes>,
    ) -> Result<Vec<Bytes>, AllocError> {
        let mut wrong = Vec::new(alloc);
        for (place, frame) in frames.into_iter().enumerate() {
            match self {
                Wrong::Nothing => {}
                Wrong::Gap if place == 0 => {}
                Wrong::Bytes => wrong.push(with_other_end(alloc, &frame)?)?,
                Wrong::Gap | Wrong::Old => wrong.push(frame)?,
            }
        }
        Ok(wrong)
    }
}
