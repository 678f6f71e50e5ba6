//! From a letter to its bytes.

ghost use Rattle.std.specs.Prelude.{◌≡◌, IfOk};
ghost use Rattle.appending.specs.Joined.{joined};
ghost use Rattle.letters.specs.Letters.{letter_of, spelling, told};

use crate::letter::Letter;
use crate::mark::Mark;
use crate::progress::Progress;
use appending::append;
use std::alloc::{AllocError, Global};

/// These parts, one behind the other.
fn join(alloc: Global, parts: &[&[u8]]) -> Result<Vec<u8>, AllocError>
    ensures { IfOk result (λ text. text.items ≡ joined parts.now) }
{
    let mut text = Vec::new(alloc);
    if append(&mut text, parts).is_err() {
        return Err(AllocError);
    }
    Ok(text)
}

fn told(alloc: Global, progress: &Progress) -> Result<Vec<u8>, AllocError>
    ensures { IfOk result (λ text. text.items ≡ spelling (told progress.now)) }
{
    join(
        alloc,
        &[
            &[Mark::Told.number()],
            &progress.height.0.to_be_bytes(),
            &progress.horizon.0.to_be_bytes(),
            &progress.recorded.0.to_be_bytes(),
            &progress.view.0.to_be_bytes(),
            &[u8::from(progress.goes_on), u8::from(progress.is_away)],
        ],
    )
}

/// The text of a letter, in memory of its own. It refuses only where that is refused. A `Frame` that begins with a mark is
/// written as any other, and read as something else.
pub fn write(alloc: Global, letter: &Letter<'_>) -> Result<Vec<u8>, AllocError>
    ensures { IfOk result (λ text. text.items ≡ spelling (letter_of letter.now)) }
{
    match letter {
        Letter::Frame(frame) => join(alloc, &[frame]),
        Letter::Passed(request) => join(alloc, &[&[Mark::Passed.number()], request]),
        Letter::Doubted(voters) => join(alloc, &[&[Mark::Doubted.number()], &voters.to_be_bytes()]),
        Letter::Asked { from, bytes } => join(
            alloc,
            &[
                &[Mark::Asked.number()],
                &from.0.to_be_bytes(),
                &bytes.to_be_bytes(),
            ],
        ),
        Letter::Recorded { from, frame } => join(
            alloc,
            &[&[Mark::Recorded.number()], &from.0.to_be_bytes(), frame],
        ),
        Letter::Announced { from, frame } => join(
            alloc,
            &[&[Mark::Announced.number()], &from.0.to_be_bytes(), frame],
        ),
        Letter::Answered {
            from,
            bytes,
            is_last,
        } => join(
            alloc,
            &[
                &[Mark::Answered.number()],
                &from.0.to_be_bytes(),
                &bytes.to_be_bytes(),
                &[u8::from(*is_last)],
            ],
        ),
        Letter::Told(progress) => told(alloc, progress),
    }
}
