//! Appending several parts to bytes, all of them or none.
//!
//! Whoever writes a text or a frame into a caller's `Vec` takes the room for the whole of it once,
//! before the first byte is written: so nothing is left half written where memory is refused.
#![tactic(auto)]

ghost use Rattle.std.specs.Prelude.{◌≡◌, ◌+◌, ◌≤◌, ◌++◌, length, vec_len, vec_capacity};
ghost use Rattle.definitions.specs.Writing.{IsAppended};
ghost use Rattle.appending.specs.Joined.{joined, IsLength};

use ids::Fault;

/// So many bytes, and so many more. Where that is no `usize`, no room is enough.
pub fn add_len(len: usize, more: usize) -> Result<usize, Fault>
    ensures { IsLength result (len + more) }
{
    len.checked_add(more).ok_or(Fault::Memory)
}

/// So many bytes, and those of these parts.
pub fn add_parts_len(mut len: usize, parts: &[&[u8]]) -> Result<usize, Fault>
    ensures { IsLength result (len + length (joined parts.now)) }
{
    for part in parts {
        len = add_len(len, part.len())?;
    }
    Ok(len)
}

/// Appends these bytes, for which there is room.
pub fn put(out: &mut Vec<u8>, bytes: &[u8])
    requires { vec_len out.old + length bytes.now ≤ vec_capacity out.old }
    ensures items { out.new.items ≡ out.old.items ++ bytes.now }
    ensures len { vec_len out.new ≡ vec_len out.old + length bytes.now }
    ensures capacity { vec_capacity out.old ≤ vec_capacity out.new }
{
    out.extend_from_slice(bytes).unwrap();
}

/// Appends these parts, for which there is room.
pub fn put_parts(out: &mut Vec<u8>, parts: &[&[u8]])
    requires { vec_len out.old + length (joined parts.now) ≤ vec_capacity out.old }
    ensures items { out.new.items ≡ out.old.items ++ joined parts.now }
    ensures len { vec_len out.new ≡ vec_len out.old + length (joined parts.now) }
    ensures capacity { vec_capacity out.old ≤ vec_capacity out.new }
{
    for part in parts {
        put(out, part);
    }
}

/// Appends these parts, or nothing: `Memory` comes only where the spare room was too small for them all.
pub fn append(out: &mut Vec<u8>, parts: &[&[u8]]) -> Result<(), Fault>
    ensures { IsAppended out.old out.new (joined parts.now) result }
{
    out.reserve(add_parts_len(0, parts)?)?;
    put_parts(out, parts);
    Ok(())
}
