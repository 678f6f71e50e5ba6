//! The keys that were used.

use ghost_list::Tells;
use std::marker::Model;

/// A key as the definitions have it. No value of it is made.
pub(crate) struct AKey;

impl Model for AKey {
    ghost use Rattle.std.specs.Prelude.{[]};
    ghost use Rattle.definitions.specs.Bytes.{Bytes};

    ghost Value = { Bytes };

    ghost view = { λ _. [] };
}

/// A key that is being used.
#[derive(Drop)]
pub(crate) struct UsedKey<'a>(pub(crate) &'a [u8]);

impl<'a> Tells<AKey> for UsedKey<'a> {
    ghost tells = { λ k. k.0.now };
}
