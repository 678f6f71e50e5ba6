ghost use Rattle.std.specs.Prelude.{◌≡◌, ◌-◌, ℕ, length, option_map, IfSome, IsSome};
ghost use Rattle.std.specs.Borrow.{Bor};
ghost use Rattle.definitions.specs.Bytes.{Bytes};
ghost use Rattle.definitions.specs.Requests.{data_field};
ghost use Rattle.definitions.specs.Slices.{LentAt};
ghost use Rattle.mc_lines.specs.Fields.{parts_after};
ghost use Rattle.mc_lines.specs.Heads.{head_of, head_key, head_place, filled, seen, name_in, head_for};
ghost use Rattle.mc_lines.specs.Heads.{store_in, cas_in, delete_in, counted_in, keys_in, IsLineRead};
ghost use Rattle.mc_lines.specs.Heads.{IsLineLent};
ghost use Rattle.mc_lines.specs.Meaning.{verb_of, asked_of, keys_of, LentIn, AreLent};

use crate::fields::{cut, expiry, flags, key, noreply, value};
use crate::keys::{Keys, are_keys};
use crate::request::{Request, Verb};
use ids::MOST_ASKED;

/// The names of the commands.
#[derive(Clone, Copy)]
pub(crate) enum Name {
    Store(Verb),
    Cas,
    Get,
    Gets,
    Delete,
    Incr,
    Decr,
    Quit,
}

/// What the line of a request says. In the place of data it has the number of its bytes.
#[derive(Clone, Copy)]
pub(crate) enum Head<'a> {
    Store {
        verb: Verb,
        key: &'a [u8],
        flags: u32,
        bytes: u64,
    },
    Cas {
        key: &'a [u8],
        flags: u32,
        bytes: u64,
        cas_unique: u64,
    },
    Get(Keys<'a>),
    Gets(Keys<'a>),
    Delete {
        key: &'a [u8],
    },
    Incr {
        key: &'a [u8],
        value: u64,
    },
    Decr {
        key: &'a [u8],
        value: u64,
    },
}

/// What a line is.
#[derive(Clone, Copy)]
pub(crate) enum Line<'a> {
    Request(Head<'a>, bool),
    Quit,
    UnknownName,
    BadFields,
}

impl<'a> Head<'a> {
    /// How many bytes of data are announced.
    pub(crate) fn bytes(&self) -> Option<u64>
        ensures { result ≡ data_field (head_of self.now) }
    {
        match *self {
            Head::Store { bytes, .. } => Some(bytes),
            Head::Cas { bytes, .. } => Some(bytes),
            _ => None,
        }
    }

    /// The request with this data.
    pub(crate) fn with(self, stored: &'a [u8]) -> Request<'a>
        ensures value { asked_of result ≡ filled (head_of self.entry) stored.now }
        // Where the key and the data lie in a source at their places, so do those of the request.
        ensures lent { (source : Bor Bytes) (used : ℕ)
            → LentAt source (head_place self.entry) (head_key self.entry)
            → (IsSome (data_field (head_of self.entry))
            → LentAt source (used - 2 - length stored.now) stored.entry)
            → AreLent source result used }
    {
        match self {
            Head::Store {
                verb,
                key,
                flags,
                ..
            } => Request::Store {
                verb,
                key,
                flags,
                stored,
            },
            Head::Cas {
                key,
                flags,
                cas_unique,
                ..
            } => Request::Cas {
                key,
                flags,
                stored,
                cas_unique,
            },
            Head::Get(keys) => Request::Get(keys),
            Head::Gets(keys) => Request::Gets(keys),
            Head::Delete { key } => Request::Delete { key },
            Head::Incr { key, value } => Request::Incr { key, value },
            Head::Decr { key, value } => Request::Decr { key, value },
        }
    }
}

/// The command of this name.
fn name_in(word: &[u8]) -> Option<Name>
    ensures { result ≡ name_in word.now }
{
    if word == b"get".as_slice() {
        Some(Name::Get)
    } else if word == b"gets".as_slice() {
        Some(Name::Gets)
    } else if word == b"set".as_slice() {
        Some(Name::Store(Verb::Set))
    } else if word == b"add".as_slice() {
        Some(Name::Store(Verb::Add))
    } else if word == b"replace".as_slice() {
        Some(Name::Store(Verb::Replace))
    } else if word == b"append".as_slice() {
        Some(Name::Store(Verb::Append))
    } else if word == b"prepend".as_slice() {
        Some(Name::Store(Verb::Prepend))
    } else if word == b"cas".as_slice() {
        Some(Name::Cas)
    } else if word == b"incr".as_slice() {
        Some(Name::Incr)
    } else if word == b"decr".as_slice() {
        Some(Name::Decr)
    } else if word == b"delete".as_slice() {
        Some(Name::Delete)
    } else if word == b"quit".as_slice() {
        Some(Name::Quit)
    } else {
        None
    }
}

/// The rest of the line of a storage command.
fn store(verb: Verb, rest: Option<&[u8]>) -> Option<(Head<'_>, bool)>
    ensures value { seen result ≡ store_in (verb_of verb) (parts_after rest.entry) }
    ensures lent { IfSome result (λ x. LentIn rest.entry 0 (head_key x.0)) }
{
    let (key, rest) = key(rest)?;
    let (flags, rest) = flags(rest)?;
    let rest = expiry(rest)?;
    let (bytes, rest) = value(rest)?;
    let noreply = noreply(rest)?;
    let head = Head::Store {
        verb,
        key,
        flags,
        bytes,
    };
    Some((head, noreply))
}

/// The rest of the line of a cas.
fn cas(rest: Option<&[u8]>) -> Option<(Head<'_>, bool)>
    ensures value { seen result ≡ cas_in (parts_after rest.entry) }
    ensures lent { IfSome result (λ x. LentIn rest.entry 0 (head_key x.0)) }
{
    let (key, rest) = key(rest)?;
    let (flags, rest) = flags(rest)?;
    let rest = expiry(rest)?;
    let (bytes, rest) = value(rest)?;
    let (cas_unique, rest) = value(rest)?;
    let noreply = noreply(rest)?;
    let head = Head::Cas {
        key,
        flags,
        bytes,
        cas_unique,
    };
    Some((head, noreply))
}

/// The rest of the line of a delete.
fn delete(rest: Option<&[u8]>) -> Option<(Head<'_>, bool)>
    ensures value { seen result ≡ delete_in (parts_after rest.entry) }
    ensures lent { IfSome result (λ x. LentIn rest.entry 0 (head_key x.0)) }
{
    let (key, rest) = key(rest)?;
    let noreply = noreply(rest)?;
    Some((Head::Delete { key }, noreply))
}

/// A key, a number and whether noreply stands behind them: the rest of the line of an incr or decr.
fn counted(rest: Option<&[u8]>) -> Option<(&[u8], u64, bool)>
    ensures value { option_map (λ x. (x.0.now, x.1, x.2)) result ≡ counted_in (parts_after rest.entry) }
    ensures lent { IfSome result (λ x. LentIn rest.entry 0 x.0) }
{
    let (key, rest) = key(rest)?;
    let (value, rest) = value(rest)?;
    let noreply = noreply(rest)?;
    Some((key, value, noreply))
}

/// The keys of a retrieval.
fn keys(rest: Option<&[u8]>) -> Option<Keys<'_>>
    ensures value { option_map (λ keys. keys_of keys) result ≡ keys_in (parts_after rest.entry) }
    ensures lent { IfSome result (λ keys. LentIn rest.entry 0 keys.text) }
{
    let text = rest?;
    if are_keys(text, MOST_ASKED) {
        Some(Keys { text })
    } else {
        None
    }
}

/// What a line says, by the command of its name and what is behind the name.
fn head_by_name(name: Name, rest: Option<&[u8]>) -> Option<(Head<'_>, bool)>
    ensures value { seen result ≡ head_for name (parts_after rest.entry) }
    ensures lent { IfSome result (λ x. LentIn rest.entry 0 (head_key x.0)) }
{
    match name {
        Name::Store(verb) => store(verb, rest),
        Name::Cas => cas(rest),
        Name::Get => Some((Head::Get(keys(rest)?), false)),
        Name::Gets => Some((Head::Gets(keys(rest)?), false)),
        Name::Delete => delete(rest),
        Name::Incr => {
            let (key, value, noreply) = counted(rest)?;
            Some((Head::Incr { key, value }, noreply))
        }
        Name::Decr => {
            let (key, value, noreply) = counted(rest)?;
            Some((Head::Decr { key, value }, noreply))
        }
        Name::Quit => None,
    }
}

/// Reads a line, which stands before its CR LF.
pub(crate) fn read_line(line: &[u8]) -> Line<'_>
    ensures value { IsLineRead line.now result }
    ensures lent { IsLineLent line.entry result }
{
    let (word, rest) = cut(line);
    let Some(name) = name_in(word) else {
        return Line::UnknownName;
    };
    match head_by_name(name, rest) {
        Some((head, noreply)) => Line::Request(head, noreply),
        None => if line == b"quit".as_slice() {
            Line::Quit
        } else {
            Line::BadFields
        },
    }
}
