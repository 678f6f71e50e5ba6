//! From a window to its file.

ghost use Rattle.std.specs.Prelude.{◌≡◌, ◌++◌, [], decimal, OnOk, map};
ghost use Rattle.std.specs.List.{flat_map};
ghost use Rattle.deployment.specs.Deployments.{line};
ghost use Rattle.window_files.specs.Files.{head_text, digest_line};

use crate::head::{Head, number_of, place_of};
use ids::Digest;
use itoa::Buffer;
use std::alloc::AllocError;

/// Appends the line of a number behind a word.
fn push_number(out: &mut Vec<u8>, word: &[u8], number: u64) -> Result<(), AllocError>
    ensures { OnOk result (out.new.items ≡ out.old.items ++ line (word.now ++ decimal number) []) }
{
    let mut buffer = Buffer::new();
    out.extend_from_slice(word)?;
    out.extend_from_slice(buffer.format(number).as_bytes())?;
    out.extend_from_slice(b"\n")
}

/// Appends the first lines.
pub(crate) fn push_head(out: &mut Vec<u8>, head: &Head) -> Result<(), AllocError>
    ensures { OnOk result (out.new.items ≡ out.old.items ++ head_text head.now []) }
{
    let config = head.config;
    push_number(out, b"faults ", u64::from(config.faults()))?;
    push_number(out, b"clients ", u64::from(config.clients()))?;
    push_number(out, b"keys-held ", config.most_keys() as u64)?;
    push_number(out, b"window ", place_of(head.number))?;
    push_number(out, b"executed ", number_of(head.height))?;
    push_number(out, b"from ", number_of(head.lowest))?;
    Ok(())
}

/// Appends a digest's line.
fn push_digest(out: &mut Vec<u8>, digest: &Digest) -> Result<(), AllocError>
    ensures { OnOk result (out.new.items ≡ out.old.items ++ digest_line digest.now) }
{
    let mut digits = [0; 64];
    hex::encode_to_slice(digest.0.as_slice(), &mut digits).unwrap();
    out.extend_from_slice(&digits)?;
    out.extend_from_slice(b"\n")
}

/// Appends the lines of digests.
pub(crate) fn push_digests(out: &mut Vec<u8>, digests: &[Digest]) -> Result<(), AllocError>
    ensures { OnOk result (out.new.items ≡ out.old.items ++ flat_map digest_line digests.now) }
{
    for digest in digests {
        push_digest(out, digest)?;
    }
    Ok(())
}
