//! Texts that are known to be canonical.

ghost use Rattle.std.specs.Prelude.{◌≡◌, ◌≤◌, length, true};
ghost use Rattle.definitions.specs.Canonical.{is_canonical};
ghost use Rattle.mc_lines.specs.declared.canonical.TheConstants.{MOST_CANONICAL};

use std::marker::Model;

/// The most bytes of a canonical text: a `cas` with the longest key, numbers and data.
pub const MOST_CANONICAL: usize = 4393;

/// The canonical text of a request: who has one needn't read it again to know that it is one.
#[derive(Drop)]
pub struct CanonicalText<'a> {
    bytes: &'a [u8],
}

impl<'a> Model for CanonicalText<'a> {
    ghost use Rattle.std.specs.Prelude.{◌≡◌, true};
    ghost use Rattle.definitions.specs.Bytes.{Bytes};
    ghost use Rattle.definitions.specs.Canonical.{is_canonical};

    ghost Value = { Bytes };

    ghost view = { λ t. t.bytes.now };

    ghost invariant = { λ t. is_canonical t.bytes.now ≡ true };
}

impl<'a> CanonicalText<'a> {
    /// These bytes, for who knows that they are one: `write_request` wrote them, of a request that may be sent, or
    /// `read_canonical` reads one.
    pub fn of_written(bytes: &'a [u8]) -> CanonicalText<'a>
        requires { is_canonical bytes.now ≡ true }
        ensures { result ≡ bytes.now }
    {
        CanonicalText { bytes }
    }

    /// The bytes, of which there are at most `MOST_CANONICAL`.
    pub fn as_slice(&self) -> &'a [u8]
        ensures bytes { result.now ≡ self.now }
        ensures canonical { is_canonical result.now ≡ true }
        ensures few { length result.now ≤ MOST_CANONICAL }
    {
        self.bytes
    }
}
