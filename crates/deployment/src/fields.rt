//! Fields at the front of a text.

ghost use Rattle.std.specs.Prelude.{◌≡◌, ◌==◌, ◌&&◌, ◌<◌, ◌^◌, ◌++◌, decimal, length, position, option_map, nat_lt, Option};
ghost use Rattle.std.specs.List.{list_all};
ghost use Rattle.deployment.specs.Fields.{IsAt, IsBehind, IsBelow, IsCut, is_address, is_visible, IsAddress, numbered};

use itoa::Buffer;
use mc_lines::read_number;

/// What stands behind this front of a text.
fn behind<'a>(text: &'a [u8], front: &[u8]) -> Option<&'a [u8]>
    ensures { IsBehind front.now text.now (option_map (λ rest. rest.now) result) }
{
    text.strip_prefix(front)
}

/// What stands behind a number and a space.
fn behind_number(text: &[u8], number: u8) -> Option<&[u8]>
    ensures { IsBehind (numbered number) text.now (option_map (λ rest. rest.now) result) }
{
    let mut buffer = Buffer::new();
    let digits = buffer.format(number);
    let rest = behind(text, digits.as_bytes())?;
    behind(rest, b" ")
}

/// Where the first line ends.
fn line_end(text: &[u8]) -> Option<usize>
    ensures { result ≡ position (λ byte. byte == 10) text.now }
{
    text.iter().position(|byte| *byte == b'\n')
}

/// The first line, without the LF that ends it, and what stands behind that.
fn take_line(text: &[u8]) -> Option<(&[u8], &[u8])>
    ensures { IsCut text.now (option_map (λ line. (line.0.now, line.1.now)) result) }
{
    let end = line_end(text)?;
    Some((&text[..end], &text[end + 1..]))
}

/// The number that the first line is, and what stands behind it.
fn number_line(text: &[u8]) -> Option<(u64, &[u8])>
    ensures { IsAt decimal (IsBelow (2 ^ 64)) text.now (option_map (λ line. (line.0, line.1.now)) result) }
{
    let line = take_line(text)?;
    let number = read_number(line.0)?;
    Some((number, line.1))
}

/// The number behind a word, in the first line, and what stands behind it.
pub fn number_at<'a>(text: &'a [u8], word: &[u8]) -> Option<(u64, &'a [u8])>
    ensures { IsAt (λ n. word.now ++ decimal n) (IsBelow (2 ^ 64)) text.now
        (option_map (λ line. (line.0, line.1.now)) result) }
{
    number_line(behind(text, word)?)
}

/// The number behind a word and a number, in the first line, and what stands behind it.
pub(crate) fn number_of<'a>(text: &'a [u8], word: &[u8], number: u8) -> Option<(u64, &'a [u8])>
    ensures { IsAt (λ n. word.now ++ (numbered number ++ decimal n)) (IsBelow (2 ^ 64)) text.now
        (option_map (λ line. (line.0, line.1.now)) result) }
{
    let rest = behind(text, word)?;
    number_line(behind_number(rest, number)?)
}

/// Whether all are visible ASCII characters.
fn are_visible(bytes: &[u8]) -> bool
    ensures { result ≡ list_all is_visible bytes.now }
{
    bytes.iter().all(|byte| *byte > 32 && *byte < 127)
}

/// Whether bytes are an address as a deployment file has them.
fn is_address(bytes: &[u8]) -> bool
    ensures { result ≡ is_address bytes.now }
{
    !bytes.is_empty() && are_visible(bytes)
}

/// The address that the first line is, and what stands behind it.
fn address_line(text: &[u8]) -> Option<(&[u8], &[u8])>
    ensures { IsAt (λ address. address) IsAddress text.now
        (option_map (λ line. (line.0.now, line.1.now)) result) }
{
    let line = take_line(text)?;
    if is_address(line.0) { Some(line) } else { None }
}

/// The address behind a word and a number, in the first line, and what stands behind it.
pub(crate) fn address_of<'a>(
    text: &'a [u8],
    word: &[u8],
    number: u8,
) -> Option<(&'a [u8], &'a [u8])>
    ensures { IsAt (λ address. word.now ++ (numbered number ++ address)) IsAddress text.now
        (option_map (λ line. (line.0.now, line.1.now)) result) }
{
    let rest = behind(text, word)?;
    address_line(behind_number(rest, number)?)
}
