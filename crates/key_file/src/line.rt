//! One line of a key file.

ghost use Rattle.std.specs.Prelude.{◌≡◌, option_map};
ghost use Rattle.key_file.specs.KeyFile.{number_text, key_end, key_line};
ghost use Rattle.key_file.specs.Reading.{IsBehind, IsDigitsOf, IsKeyAt};

use hex::FromHex;
use ids::PartyId;
use itoa::Buffer;

/// What stands behind this front of a text.
fn behind<'a>(text: &'a [u8], front: &[u8]) -> Option<&'a [u8]>
    ensures { IsBehind front.now text.now (option_map (λ rest. rest.now) result) }
{
    text.strip_prefix(front)
}

/// What stands behind a number and a space.
fn behind_number(text: &[u8], number: PartyId) -> Option<&[u8]>
    ensures { IsBehind (number_text number) text.now (option_map (λ rest. rest.now) result) }
{
    let mut buffer = Buffer::new();
    let digits = buffer.format(number.0);
    let rest = behind(text, digits.as_bytes())?;
    behind(rest, b" ")
}

/// The key that 64 digits write.
fn key_of(digits: &[u8]) -> Option<[u8; 32]>
    ensures { IsDigitsOf digits.now result }
{
    let Ok(key) = <[u8; 32] as FromHex>::from_hex(digits) else {
        return None;
    };
    let mut again = [0; 64];
    hex::encode_to_slice(key.as_slice(), &mut again).unwrap();
    if digits == again.as_slice() {
        Some(key)
    } else {
        None
    }
}

/// The 32 bytes that 64 hexadecimal digits at the front of a text write, which LF ends, and what stands behind that. None where it
/// begins otherwise: no upper-case digit.
pub fn take_key(text: &[u8]) -> Option<([u8; 32], &[u8])>
    ensures { IsKeyAt key_end text.now (option_map (λ found. (found.0, found.1.now)) result) }
{
    if text.len() < 64 {
        return None;
    }
    let (digits, rest) = text.split_at(64);
    let rest = behind(rest, b"\n")?;
    let key = key_of(digits)?;
    Some((key, rest))
}

/// The key in the line of two parties at the front of a text, and what stands behind that line.
pub(crate) fn take_line(text: &[u8], one: PartyId, other: PartyId) -> Option<([u8; 32], &[u8])>
    ensures { IsKeyAt (key_line one other) text.now (option_map (λ found. (found.0, found.1.now)) result) }
{
    let rest = behind_number(text, one)?;
    let rest = behind_number(rest, other)?;
    take_key(rest)
}
