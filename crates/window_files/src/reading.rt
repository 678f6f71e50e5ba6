//! From a text to the first lines and the digests.

ghost use Rattle.std.specs.Prelude.{◌≡◌, ◌≢◌, ◌↔◌, IsTrue, ◌++◌, ℕ, List, decimal, option_map, IfOk, OnErr, Err};
ghost use Rattle.definitions.specs.Bytes.{Bytes};
ghost use Rattle.deployment.specs.Fields.{IsAt};
ghost use Rattle.deployment.specs.declared.refusal.Refusal.TheVariants as refusal;
ghost use Rattle.window_files.specs.Files.{IsHead, IsDigest, head_text};
ghost use Rattle.window_files.specs.Reading.{IsWithin, IsDigestAt, AreDigestsOf};
ghost use Rattle.window_files.specs.declared.head.Head.{Head};

use crate::head::Head;
use deployment::{Refusal, number_at, read_sizes};
use ids::{Digest, Height, ReplicaId};
use key_file::take_key;
use std::alloc::Global;

/// Whether a number is within these limits.
fn is_within(number: u64, least: u64, most: u64) -> bool
    ensures { IsTrue result ↔ IsWithin least most number }
{
    least <= number && number <= most
}

/// The number behind a word, in the first line, where it is within these limits, and what stands behind it.
fn number_within<'a>(text: &'a [u8], word: &[u8], least: u64, most: u64) -> Option<(u64, &'a [u8])>
    ensures { IsAt (λ n. word.now ++ decimal n) (IsWithin least most) text.now
        (option_map (λ line. (line.0, line.1.now)) result) }
{
    let line = number_at(text, word)?;
    if !is_within(line.0, least, most) {
        return None;
    }
    Some(line)
}

/// The first lines, and what stands behind them.
pub(crate) fn read_head(text: &[u8]) -> Result<(Head, &[u8]), Refusal>
    ensures head { IfOk result (λ read. IsHead read.0) }
    ensures read { IfOk result (λ read. text.now ≡ head_text read.0 read.1.now) }
    ensures bad { OnErr result ((head : Head) (rest : Bytes) → IsHead head → text.now ≢ head_text head rest) }
{
    let (config, rest) = match read_sizes(text) {
        Ok(sizes) => sizes,
        Err(refusal) => return Err(refusal),
    };
    config.holds();
    let Some(number) = number_within(rest, b"window ", 0, u64::from(config.n() - 1)) else {
        return Err(Refusal::BadLine(4));
    };
    let Some(height) = number_within(number.1, b"executed ", 0, u64::MAX) else {
        return Err(Refusal::BadLine(5));
    };
    let Some(lowest) = number_within(height.1, b"from ", 1, height.0.max(1)) else {
        return Err(Refusal::BadLine(6));
    };
    let head = Head {
        config,
        number: ReplicaId(number.0 as u8),
        height: Height(height.0),
        lowest: Height(lowest.0),
    };
    Ok((head, lowest.1))
}

/// The digest in the line at the front of a text, and what stands behind that.
fn take_digest(text: &[u8]) -> Option<(Digest, &[u8])>
    ensures { IsDigestAt text.now (option_map (λ found. (found.0, found.1.now)) result) }
{
    let (digest, rest) = take_key(text)?;
    Some((Digest(digest), rest))
}

/// The number of a digest's line in the file, as far as it can be told.
fn line_number(place: u64) -> u32 {
    7 + u32::try_from(place).unwrap_or(u32::MAX).min(u32::MAX - 7)
}

/// The digests of a text that is the lines of so many.
pub(crate) fn read_digests(alloc: Global, text: &[u8], count: u64) -> Result<Vec<Digest>, Refusal>
    ensures read { IfOk result (λ digests. AreDigestsOf count digests.items text.now) }
    ensures bad { (line : ℕ) → result ≡ Err (refusal.BadLine line) → (found : List Bytes)
        → AreDigestsOf count found text.now → ⊥ }
{
    let mut rest = text;
    let mut digests = Vec::new(alloc);
    for place in 0..count {
        let Some(found) = take_digest(rest) else {
            return Err(Refusal::BadLine(line_number(place)));
        };
        digests.push(found.0)?;
        rest = found.1;
    }
    if rest.is_empty() {
        Ok(digests)
    } else {
        Err(Refusal::BadLine(line_number(count)))
    }
}
