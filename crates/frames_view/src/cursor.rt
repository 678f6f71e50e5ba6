//! One field at a time: what stands at the front of bytes, and what is left behind it.

ghost use Rattle.std.specs.Prelude.{◌<◌, ◌≡◌, ◌+◌, ◌-◌, ◌≤◌, length, take, drop, IfSome};
ghost use Rattle.std.specs.Int.{w8, w16, w32, w64};
ghost use Rattle.definitions.specs.Slices.{LiesAt, LentAt, LeftAt};
ghost use Rattle.frames_view.specs.Readings.{number, chunk};
ghost use Rattle.frames_view.specs.Parts.{digest_in, party_in, vector_in, positive_in, payload_in, text_in};
ghost use Rattle.frames_view.specs.Parts.{heights_in};
ghost use Rattle.frames_view.specs.Views.{Gives};
ghost use Rattle.frames_view.specs.Places.{IsSplit};

use ids::{MOST_PAYLOAD, MOST_TEXT};

/// So many bytes.
pub(crate) fn take_chunk(bytes: &[u8], n: usize) -> Option<(&[u8], &[u8])>
    ensures taken { Gives (λ p. (p.0.now, p.1.now)) result (chunk n bytes.now) }
    ensures lent { IfSome result (λ p. IsSplit bytes.entry p.0 p.1) }
{
    if bytes.len() < n {
        return None;
    }
    Some(split(bytes, n))
}

/// A digest or a tag.
pub(crate) fn take_32(bytes: &[u8]) -> Option<(&[u8; 32], &[u8])>
    ensures taken { Gives (λ p. (p.0.now, p.1.now)) result (digest_in bytes.now) }
    ensures whole { IfSome result (λ p. length p.0.now ≡ 32) }
    ensures lent { IfSome result (λ p. LiesAt bytes.now 0 p.0.now × LeftAt bytes.entry 32 p.1) }
{
    if bytes.len() < 32 {
        return None;
    }
    Some((block_at(bytes, 0), from(bytes, 32)))
}

pub(crate) fn take_u8(bytes: &[u8]) -> Option<(u8, &[u8])>
    ensures taken { Gives (λ p. (p.0, p.1.now)) result (number w8 bytes.now) }
    ensures lent { IfSome result (λ p. LeftAt bytes.entry 1 p.1) }
{
    if bytes.is_empty() {
        return None;
    }
    Some((bytes[0], from(bytes, 1)))
}

pub(crate) fn take_u16(bytes: &[u8]) -> Option<(u16, &[u8])>
    ensures taken { Gives (λ p. (p.0, p.1.now)) result (number w16 bytes.now) }
    ensures lent { IfSome result (λ p. LeftAt bytes.entry 2 p.1) }
{
    if bytes.len() < 2 {
        return None;
    }
    Some((u16::from_be_bytes([bytes[0], bytes[1]]), from(bytes, 2)))
}

fn take_u32(bytes: &[u8]) -> Option<(u32, &[u8])>
    ensures taken { Gives (λ p. (p.0, p.1.now)) result (number w32 bytes.now) }
    ensures lent { IfSome result (λ p. LeftAt bytes.entry 4 p.1) }
{
    if bytes.len() < 4 {
        return None;
    }
    let number = u32::from_be_bytes([bytes[0], bytes[1], bytes[2], bytes[3]]);
    Some((number, from(bytes, 4)))
}

pub(crate) fn take_u64(bytes: &[u8]) -> Option<(u64, &[u8])>
    ensures taken { Gives (λ p. (p.0, p.1.now)) result (number w64 bytes.now) }
    ensures lent { IfSome result (λ p. LeftAt bytes.entry 8 p.1) }
{
    if bytes.len() < 8 {
        return None;
    }
    let number = u64::from_be_bytes([
        bytes[0], bytes[1], bytes[2], bytes[3], bytes[4], bytes[5], bytes[6], bytes[7],
    ]);
    Some((number, from(bytes, 8)))
}

/// The number of a replica or of a client, of which there are `count`.
#[tactic(auto, unfolding(crate::specs::Parts::party_in))]
pub(crate) fn take_party(bytes: &[u8], count: u8) -> Option<(u8, &[u8])>
    ensures taken { Gives (λ p. (p.0, p.1.now)) result (party_in count bytes.now) }
    ensures lent { IfSome result (λ p. LeftAt bytes.entry 2 p.1) }
{
    let (number, rest) = take_u16(bytes)?;
    if number >= u16::from(count) {
        return None;
    }
    Some((number as u8, rest))
}

/// A tag for each of `replicas`.
#[tactic(auto, unfolding(crate::specs::Parts::vector_in))]
pub(crate) fn take_vector(bytes: &[u8], replicas: u8) -> Option<(&[u8], &[u8])>
    ensures taken { Gives (λ p. (p.0.now, p.1.now)) result (vector_in replicas bytes.now) }
    ensures lent { IfSome result (λ p. IsSplit bytes.entry p.0 p.1) }
{
    take_chunk(bytes, 32 * usize::from(replicas))
}

/// A number that counts from 1.
#[tactic(auto, unfolding(crate::specs::Parts::positive_in))]
pub(crate) fn take_positive(bytes: &[u8]) -> Option<(u64, &[u8])>
    ensures taken { Gives (λ p. (p.0, p.1.now)) result (positive_in bytes.now) }
    ensures lent { IfSome result (λ p. LeftAt bytes.entry 8 p.1) }
{
    let (number, rest) = take_u64(bytes)?;
    if number < 1 {
        return None;
    }
    Some((number, rest))
}

/// A payload behind its length.
#[tactic(auto, unfolding(crate::specs::Parts::payload_in))]
pub(crate) fn take_payload(bytes: &[u8]) -> Option<(&[u8], &[u8])>
    ensures taken { Gives (λ p. (p.0.now, p.1.now)) result (payload_in bytes.now) }
    ensures lent { IfSome result
        (λ p. LentAt bytes.entry 2 p.0 × LeftAt bytes.entry (2 + length p.0.now) p.1) }
{
    let (len, rest) = take_u16(bytes)?;
    let len = usize::from(len);
    if len > MOST_PAYLOAD {
        return None;
    }
    take_chunk(rest, len)
}

/// A reply's text behind its length.
#[tactic(auto, unfolding(crate::specs::Parts::text_in))]
pub(crate) fn take_text(bytes: &[u8]) -> Option<(&[u8], &[u8])>
    ensures taken { Gives (λ p. (p.0.now, p.1.now)) result (text_in bytes.now) }
    ensures lent { IfSome result
        (λ p. LentAt bytes.entry 4 p.0 × LeftAt bytes.entry (4 + length p.0.now) p.1) }
{
    let (len, rest) = take_u32(bytes)?;
    let len = len as usize;
    if len > MOST_TEXT {
        return None;
    }
    take_chunk(rest, len)
}

/// A height, and one below it.
#[tactic(auto, unfolding(crate::specs::Parts::heights_in))]
pub(crate) fn take_heights(bytes: &[u8]) -> Option<((u64, u64), &[u8])>
    ensures taken { Gives (λ p. ((p.0.0, p.0.1), p.1.now)) result (heights_in bytes.now) }
    ensures below { IfSome result (λ p. p.0.1 < p.0.0) }
    ensures lent { IfSome result (λ p. LeftAt bytes.entry 16 p.1) }
{
    let (height, rest) = take_u64(bytes)?;
    let (below, rest) = take_u64(rest)?;
    if below >= height {
        return None;
    }
    Some(((height, below), rest))
}

/// What stands from a place on.
pub(crate) fn from(bytes: &[u8], place: usize) -> &[u8]
    requires { place ≤ length bytes.now }
    ensures value { result.now ≡ drop place bytes.now }
    ensures lent { LeftAt bytes.entry place result }
{
    &bytes[place..]
}

/// The 32 bytes that stand from a place on.
pub(crate) fn block_at(bytes: &[u8], place: usize) -> &[u8; 32]
    requires { place + 32 ≤ length bytes.now }
    ensures { result.now ≡ take 32 (drop place bytes.now) }
{
    from(bytes, place).first_chunk::<32>().unwrap()
}

/// The first `n` bytes, and what stands behind them.
pub(crate) fn split(bytes: &[u8], n: usize) -> (&[u8], &[u8])
    requires { n ≤ length bytes.now }
    ensures value { (result.0.now ≡ take n bytes.now) × (result.1.now ≡ drop n bytes.now) }
    ensures lent { IsSplit bytes.entry result.0 result.1 }
{
    (&bytes[..n], from(bytes, n))
}

/// What stands in bytes before their rest.
pub(crate) fn before<'a>(bytes: &'a [u8], rest: &[u8]) -> &'a [u8]
    requires { length rest.now ≤ length bytes.now }
    ensures value { result.now ≡ take (length bytes.now - length rest.now) bytes.now }
    ensures lent { LentAt bytes.entry 0 result }
{
    split(bytes, bytes.len() - rest.len()).0
}
