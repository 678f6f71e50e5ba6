//! Tags that are known.

ghost use Rattle.std.specs.Prelude.{◌≡◌, ◌≤◌, ◌++◌, length, take, IfSome};
ghost use Rattle.std.specs.Bool.{OnTrue};
ghost use Rattle.definitions.specs.Tags.{hmac};
ghost use Rattle.authenticators.specs.declared.known_tags.TheConstants.{MOST_CONTENT};

use crate::mac::hmac;
use std::alloc::{AllocError, Global};
use std::sync::Mutex;

/// The longest content of which the tag is remembered. A vote's has 32 bytes, that of a short request about a
/// hundred, and that of a proposal of an empty block among four replicas 480.
const MOST_CONTENT: usize = 512;

/// A text, in two parts, with its HMAC under a key.
#[derive(Drop)]
struct Known {
    key: [u8; 32],
    head: [u8; 5],
    content: [u8; MOST_CONTENT],
    len: usize,
    tag: [u8; 32],
    ghost within: { len ≤ MOST_CONTENT },
    ghost right: { tag ≡ hmac key (head ++ take len content) },
}

impl Known {
    /// Five zeros, under a key of zeros.
    fn new() -> Known {
        Known {
            key: [0; 32],
            head: [0; 5],
            content: [0; MOST_CONTENT],
            len: 0,
            tag: hmac(&[0; 32], &[0; 5]),
        }
    }

    /// Whether it is this text, and this key.
    fn is_of(&self, key: &[u8; 32], head: &[u8; 5], content: &[u8]) -> bool
        ensures { OnTrue result ((self.now.key ≡ key.now) × (self.now.head ≡ head.now)
            × (take self.now.len self.now.content ≡ content.now)) }
    {
        self.key == *key && self.head == *head && &self.content[..self.len] == content
    }

    /// Another text takes its place.
    fn set(&mut self, key: &[u8; 32], head: &[u8; 5], content: &[u8], tag: &[u8; 32])
        requires within { length content.now ≤ MOST_CONTENT }
        requires right { tag.now ≡ hmac key.now (head.now ++ content.now) }
    {
        let len = content.len();
        let mut text = self.content;
        text[..len].copy_from_slice(content);
        self.content = text;
        self.key = *key;
        self.head = *head;
        self.len = len;
        self.tag = *tag;
    }
}

/// Texts with their HMACs, one in each row: which one stands in which row matters to nobody. Threads share them by
/// reference, and nobody waits: a row that another thread uses just then is passed over.
#[derive(Drop)]
pub(crate) struct KnownTags {
    rows: Vec<Mutex<Known>>,
}

impl KnownTags {
    /// So many rows.
    pub(crate) fn new(alloc: Global, rows: usize) -> Result<KnownTags, AllocError> {
        let mut all = Vec::new(alloc);
        for _ in 0..rows {
            all.push(Mutex::new(Known::new()))?;
        }
        Ok(KnownTags { rows: all })
    }

    /// The HMAC of a text under a key, where it stands in this row.
    pub(crate) fn find(
        &self,
        row: usize,
        key: &[u8; 32],
        head: &[u8; 5],
        content: &[u8],
    ) -> Option<[u8; 32]>
        ensures { IfSome result (λ tag. tag ≡ hmac key.now (head.now ++ content.now)) }
    {
        let known = self.rows.get(row)?.try_lock()?;
        if known.is_of(key, head, content) {
            Some(known.tag)
        } else {
            None
        }
    }

    /// Puts the HMAC of a text under a key into this row, where the text isn't too long and there is such a row.
    pub(crate) fn put(
        &self,
        row: usize,
        key: &[u8; 32],
        head: &[u8; 5],
        content: &[u8],
        tag: &[u8; 32],
    )
        requires { tag.now ≡ hmac key.now (head.now ++ content.now) }
    {
        if content.len() > MOST_CONTENT {
            return;
        }
        let Some(row) = self.rows.get(row) else {
            return;
        };
        if let Some(mut known) = row.try_lock() {
            known.set(key, head, content, tag);
        }
    }
}
