ghost use Rattle.std.specs.Prelude.{◌≡◌, decimal, IfOk};

use itoa::Buffer;
use std::alloc::{AllocError, Global};

/// The text of a number.
pub(crate) fn numeral(alloc: Global, n: u64) -> Result<Vec<u8>, AllocError>
    ensures { IfOk result (λ text. text.items ≡ decimal n) }
{
    let mut buffer = Buffer::new();
    Vec::from_slice(alloc, buffer.format(n).as_bytes())
}
