ghost use Rattle.std.specs.Prelude.{◌≡◌, ◌↔◌, IsOk, IfOk, OnErr};
ghost use Rattle.std.specs.NonZero.{non_zero_usize_get};
ghost use Rattle.ids.specs.Sizes.{IsRoom};

use ids::{Fault, MOST_KEYS};
use std::num::NonZeroUsize;

/// The room for so many keys, where a cache may have it.
pub(crate) fn room_for(most_keys: usize) -> Result<NonZeroUsize, Fault>
    ensures made { IfOk result (λ room. non_zero_usize_get room ≡ most_keys) }
    ensures refused { OnErr result (result ≡ Err Fault.BadKeys) }
    ensures only { IsOk result ↔ IsRoom most_keys }
{
    match NonZeroUsize::new(most_keys) {
        Some(room) if most_keys <= MOST_KEYS => Ok(room),
        _ => Err(Fault::BadKeys),
    }
}
