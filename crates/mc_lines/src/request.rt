use crate::keys::Keys;

/// The commands that store data under a key.
#[derive(Clone, Copy, Debug, PartialEq, Eq)]
pub enum Verb {
    /// Store, whether the key is there or not.
    Set,
    /// Store where the key isn't there.
    Add,
    /// Store where the key is there.
    Replace,
    /// Put behind what is there.
    Append,
    /// Put before what is there.
    Prepend,
}

/// A request. What it lends is a part of the text that it was read from.
#[derive(Clone, Copy, Debug, PartialEq, Eq)]
pub enum Request<'a> {
    /// `set`, `add`, `replace`, `append` or `prepend`.
    Store {
        verb: Verb,
        key: &'a [u8],
        flags: u32,
        stored: &'a [u8],
    },
    /// Store where the key is there and its number of changes is this one.
    Cas {
        key: &'a [u8],
        flags: u32,
        stored: &'a [u8],
        cas_unique: u64,
    },
    /// What these keys have.
    Get(Keys<'a>),
    /// The same, with numbers of changes.
    Gets(Keys<'a>),
    /// Take the key away.
    Delete {
        key: &'a [u8],
    },
    /// Add to a number.
    Incr {
        key: &'a [u8],
        value: u64,
    },
    /// Take from a number.
    Decr {
        key: &'a [u8],
        value: u64,
    },
}
