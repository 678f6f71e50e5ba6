ghost use Rattle.std.specs.Prelude.{◌≡◌};
ghost use Rattle.std.specs.List.{list_all};
ghost use Rattle.definitions.specs.Canonical.{is_key, is_key_byte};
ghost use Rattle.mc_lines.specs.Fields.{parts, keys_pass};
ghost use Rattle.mc_lines.specs.Meaning.{keys_of, keys_left};

use crate::fields::cut;
use ids::MOST_KEY;
use std::marker::Model;

/// The keys of a get, lent as one text.
#[derive(Clone, Copy, Debug, PartialEq, Eq)]
pub struct Keys<'a> {
    /// The keys, with one space between each two.
    pub text: &'a [u8],
}

impl<'a> Keys<'a> {
    /// The keys, one after the other, each a part of the text.
    pub fn iter(&self) -> KeyIter<'a>
        ensures keys { keys_left result ≡ keys_of self.now }
        ensures lent { result ≡ Some self.now.text }
    {
        KeyIter {
            rest: Some(self.text),
        }
    }
}

/// Keys that are left to walk.
#[derive(Drop)]
pub struct KeyIter<'a> {
    rest: Option<&'a [u8]>,
}

impl<'a> Model for KeyIter<'a> {
    ghost use Rattle.std.specs.Prelude.{Option};
    ghost use Rattle.std.specs.Borrow.{Bor};
    ghost use Rattle.definitions.specs.Bytes.{Bytes};

    ghost Value = { Option (Bor Bytes) };

    ghost view = { λ it. it.rest };
}

impl<'a> Iterator for KeyIter<'a> {
    type Item = &'a [u8];

    ghost use Rattle.std.specs.Iterator.{YieldsFirstRef, item_count};

    ghost next_gives = { YieldsFirstRef keys_left };

    ghost remaining = { item_count keys_left };

    fn next(&mut self) -> Option<&'a [u8]> {
        let (key, rest) = cut(self.rest?);
        self.rest = rest;
        Some(key)
    }
}

/// Whether all bytes may stand in a key: no control characters, no space, not 127.
fn are_key_bytes(field: &[u8]) -> bool
    ensures { result ≡ list_all is_key_byte field.now }
{
    field.iter().all(|byte| *byte >= 33 && *byte != 127)
}

/// Whether this is a key.
pub(crate) fn is_key(field: &[u8]) -> bool
    ensures { result ≡ is_key field.now }
{
    1 <= field.len() && field.len() <= MOST_KEY && are_key_bytes(field)
}

/// Whether these are keys, one at least, and no more than `most`.
pub(crate) fn are_keys(text: &[u8], most: usize) -> bool
    ensures { result ≡ keys_pass most (parts text.now) }
{
    if most == 0 {
        return false;
    }
    let (key, rest) = cut(text);
    if !is_key(key) {
        return false;
    }
    match rest {
        None => true,
        Some(rest) => are_keys(rest, most - 1),
    }
}
