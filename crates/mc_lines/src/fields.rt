ghost use Rattle.std.specs.Prelude.{◌≡◌, ◌+◌, ◌∷◌, ◌==◌, length, position, option_map, IfSome};
ghost use Rattle.definitions.specs.Slices.{LentAt};
ghost use Rattle.mc_lines.specs.Fields.{parts, parts_after, key_first, number_first, flags_first};
ghost use Rattle.mc_lines.specs.Fields.{expiry_first, noreply_in};
ghost use Rattle.mc_lines.specs.Meaning.{LentIn};

use crate::keys::is_key;
use crate::number::read_number;

/// Where the first space stands.
fn space_in(line: &[u8]) -> Option<usize>
    ensures { result ≡ position (λ b. b == 32) line.now }
{
    line.iter().position(|byte| *byte == b' ')
}

/// The field at the front, and what follows the space behind it.
pub(crate) fn cut(line: &[u8]) -> (&[u8], Option<&[u8]>)
    ensures fields { parts line.now ≡ result.0.now ∷ parts_after result.1 }
    ensures front { LentAt line.entry 0 result.0 }
    ensures behind { IfSome result.1 (λ rest. LentAt line.entry (length result.0.now + 1) rest) }
{
    match space_in(line) {
        None => (line, None),
        Some(i) => (&line[..i], Some(&line[i + 1..])),
    }
}

/// A key, and what is behind it.
pub(crate) fn key(rest: Option<&[u8]>) -> Option<(&[u8], Option<&[u8]>)>
    ensures value { option_map (λ x. (x.0.now, parts_after x.1)) result ≡ key_first (parts_after rest.entry) }
    ensures lent { IfSome result (λ x. LentIn rest.entry 0 x.0) }
{
    let (key, rest) = cut(rest?);
    if is_key(key) { Some((key, rest)) } else { None }
}

/// A number below 2^64, and what is behind it.
pub(crate) fn value(rest: Option<&[u8]>) -> Option<(u64, Option<&[u8]>)>
    ensures { option_map (λ x. (x.0, parts_after x.1)) result ≡ number_first (parts_after rest.entry) }
{
    let (field, rest) = cut(rest?);
    let n = read_number(field)?;
    Some((n, rest))
}

/// Flags, and what is behind them.
pub(crate) fn flags(rest: Option<&[u8]>) -> Option<(u32, Option<&[u8]>)>
    ensures { option_map (λ x. (x.0, parts_after x.1)) result ≡ flags_first (parts_after rest.entry) }
{
    let (n, rest) = value(rest)?;
    if n > u64::from(u32::MAX) {
        return None;
    }
    Some((n as u32, rest))
}

/// What is behind the time of expiry, which is always 0.
pub(crate) fn expiry(rest: Option<&[u8]>) -> Option<Option<&[u8]>>
    ensures { option_map (λ x. parts_after x) result ≡ expiry_first (parts_after rest.entry) }
{
    let (field, rest) = cut(rest?);
    if field == b"0".as_slice() {
        Some(rest)
    } else {
        None
    }
}

/// Whether the word noreply is left. Nothing else may be.
pub(crate) fn noreply(rest: Option<&[u8]>) -> Option<bool>
    ensures { result ≡ noreply_in (parts_after rest.entry) }
{
    match rest {
        None => Some(false),
        Some(word) => if word == b"noreply".as_slice() {
            Some(true)
        } else {
            None
        },
    }
}
