ghost use Rattle.std.specs.Hash as fed;
ghost use Rattle.std.specs.Cmp.Rules.{hashing};
ghost use Rattle.std.proofs.Common.{rules};

use std::fmt;
use std::hash::{Hash, Hasher};
use std::marker::Model;

/// The digest of a block: SHA-256 (FIPS 180-4) of its core's bytes. Displayed in lower-case hexadecimal.
#[derive(Clone, Copy, Debug, PartialEq, Eq, PartialOrd, Ord)]
pub struct Digest(pub [u8; 32]);

impl Model for Digest {
    ghost use Rattle.std.specs.Prelude.{ℕ, List};

    ghost Value = { List ℕ };

    ghost view = { λ digest. digest.0 };

    ghost inverse = { λ bytes. record { 0 = bytes } };
}

impl fmt::Display for Digest {
    fn fmt<W: fmt::Write>(&self, f: &mut fmt::Formatter<W>) -> fmt::Result {
        for byte in self.0 {
            write!(f, "{byte:02x}")?;
        }
        Ok(())
    }
}

/// By its first eight bytes: a hash map needs no more of bytes that are a hash already.
impl Hash for Digest {
    ghost use Rattle.std.specs.Prelude.{take, ◌∷◌, []};

    ghost hash_input = { λ digest. take 8 digest ∷ [] };

    ghost respects_eq = { Prim.search (hashing, rules) };

    fn hash<H: Hasher>(&self, state: &mut H) {
        state.write(&self.0[..8]);
    }
}
