//! Bytes that are no longer than their field in a frame can tell.

ghost use Rattle.std.specs.Prelude.{◌≡◌, ◌<◌, ◌≤◌, length, IfSome, IfNone};

use ids::{MOST_PAYLOAD, MOST_TEXT};
use std::marker::Model;

/// At most so many bytes.
#[derive(Debug, Drop)]
pub struct Bounded<'a, const MOST: usize> {
    bytes: &'a [u8],
}

/// The payload of a command: at most 4,608 bytes.
pub type Payload<'a> = Bounded<'a, MOST_PAYLOAD>;

/// The text of a reply: at most 70,293 bytes.
pub type ReplyText<'a> = Bounded<'a, MOST_TEXT>;

impl<'a, const MOST: usize> Model for Bounded<'a, MOST> {
    ghost use Rattle.std.specs.Prelude.{◌≤◌, length};
    ghost use Rattle.definitions.specs.Bytes.{Bytes};

    ghost Value = { Bytes };

    ghost view = { λ b. b.bytes.now };

    ghost invariant = { λ b. length b.bytes.now ≤ MOST };
}

impl<'a, const MOST: usize> Bounded<'a, MOST> {
    /// These bytes, where they are few enough.
    pub fn new(bytes: &'a [u8]) -> Option<Bounded<'a, MOST>>
        ensures kept { IfSome result (λ b. b ≡ bytes.now) }
        ensures long { IfNone result (MOST < length bytes.now) }
    {
        if bytes.len() > MOST {
            return None;
        }
        Some(Bounded { bytes })
    }

    /// The bytes.
    pub fn as_slice(&self) -> &'a [u8]
        ensures bytes { result.now ≡ self.now }
        ensures few { length result.now ≤ MOST }
    {
        self.bytes
    }
}
