//! From bytes to a letter.

ghost use Rattle.std.specs.Prelude.{◌≡◌, ◌+◌, ◌<◌, ◌≤◌, length, option_map, IfSome};
ghost use Rattle.definitions.specs.Slices.{LeftAt};
ghost use Rattle.letters.specs.Letters.{letter_of};
ghost use Rattle.letters.specs.Reading.{number_at, flag_in, height_in, marked_in, letter_in};
ghost use Rattle.letters.specs.Reading.{IsReadAs, IsLentBy};
ghost use Rattle.letters.specs.declared.mark.Mark.TheVariants as mark;

use crate::letter::Letter;
use crate::mark::{FIRST_MARK, Mark};
use crate::progress::Progress;
use ids::{Height, View};

/// The number of eight bytes that stands at a place.
fn number_at(text: &[u8], place: usize) -> u64
    requires { place + 8 ≤ length text.now }
    ensures { result ≡ number_at text.now place }
{
    let mut bytes = [0; 8];
    bytes.copy_from_slice(&text[place..place + 8]);
    u64::from_be_bytes(bytes)
}

/// What a byte says of yes or no.
fn flag(byte: u8) -> Option<bool>
    ensures { result ≡ flag_in byte }
{
    match byte {
        0 => Some(false),
        1 => Some(true),
        _ => None,
    }
}

fn doubted(text: &[u8]) -> Option<Letter<'_>>
    ensures read { option_map letter_of result ≡ marked_in text.now mark.Doubted }
    ensures lent { IfSome result (IsLentBy text.entry) }
{
    if text.len() != 5 {
        return None;
    }
    let voters = u32::from_be_bytes([text[1], text[2], text[3], text[4]]);
    Some(Letter::Doubted(voters))
}

fn asked(text: &[u8]) -> Option<Letter<'_>>
    ensures read { option_map letter_of result ≡ marked_in text.now mark.Asked }
    ensures lent { IfSome result (IsLentBy text.entry) }
{
    if text.len() != 17 {
        return None;
    }
    Some(Letter::Asked {
        from: Height(number_at(text, 1)),
        bytes: number_at(text, 9),
    })
}

/// A height behind the mark, and what stands behind that.
fn split_height(text: &[u8]) -> Option<(u64, &[u8])>
    ensures read { option_map (λ p. (p.0, p.1.now)) result ≡ height_in text.now }
    ensures lent { IfSome result (λ p. LeftAt text.entry 9 p.1) }
{
    if text.len() < 9 {
        return None;
    }
    Some((number_at(text, 1), &text[9..]))
}

fn recorded(text: &[u8]) -> Option<Letter<'_>>
    ensures read { option_map letter_of result ≡ marked_in text.now mark.Recorded }
    ensures lent { IfSome result (IsLentBy text.entry) }
{
    let (height, frame) = split_height(text)?;
    Some(Letter::Recorded {
        from: Height(height),
        frame,
    })
}

fn announced(text: &[u8]) -> Option<Letter<'_>>
    ensures read { option_map letter_of result ≡ marked_in text.now mark.Announced }
    ensures lent { IfSome result (IsLentBy text.entry) }
{
    let (height, frame) = split_height(text)?;
    Some(Letter::Announced {
        from: Height(height),
        frame,
    })
}

fn answered(text: &[u8]) -> Option<Letter<'_>>
    ensures read { option_map letter_of result ≡ marked_in text.now mark.Answered }
    ensures lent { IfSome result (IsLentBy text.entry) }
{
    if text.len() != 18 {
        return None;
    }
    let is_last = flag(text[17])?;
    Some(Letter::Answered {
        from: Height(number_at(text, 1)),
        bytes: number_at(text, 9),
        is_last,
    })
}

fn told(text: &[u8]) -> Option<Letter<'_>>
    ensures read { option_map letter_of result ≡ marked_in text.now mark.Told }
    ensures lent { IfSome result (IsLentBy text.entry) }
{
    if text.len() != 35 {
        return None;
    }
    let goes_on = flag(text[33])?;
    let is_away = flag(text[34])?;
    Some(Letter::Told(Progress {
        height: Height(number_at(text, 1)),
        horizon: Height(number_at(text, 9)),
        recorded: Height(number_at(text, 17)),
        view: View(number_at(text, 25)),
        goes_on,
        is_away,
    }))
}

/// The letter of a text that begins with this mark.
fn marked(text: &[u8], mark: Mark) -> Option<Letter<'_>>
    requires { 1 ≤ length text.now }
    ensures read { option_map letter_of result ≡ marked_in text.now mark }
    ensures lent { IfSome result (IsLentBy text.entry) }
{
    match mark {
        Mark::Passed => Some(Letter::Passed(&text[1..])),
        Mark::Doubted => doubted(text),
        Mark::Asked => asked(text),
        Mark::Recorded => recorded(text),
        Mark::Announced => announced(text),
        Mark::Answered => answered(text),
        Mark::Told => told(text),
    }
}

/// The letter of a text, which its first byte tells.
fn whole(text: &[u8]) -> Option<Letter<'_>>
    ensures read { option_map letter_of result ≡ letter_in text.now }
    ensures lent { IfSome result (IsLentBy text.entry) }
{
    if text.is_empty() {
        return None;
    }
    if text[0] < FIRST_MARK {
        return Some(Letter::Frame(text));
    }
    marked(text, Mark::from_number(text[0])?)
}

/// The letter that this text spells, or none where it spells none: where it is empty, begins with a byte that is kept
/// for marks and is none, has another length than its fields, or has another byte than 0 or 1 for yes or no.
pub fn read(text: &[u8]) -> Option<Letter<'_>>
    ensures value { IsReadAs text.now (option_map letter_of result) }
    ensures lent { IfSome result (IsLentBy text.entry) }
{
    whole(text)
}
