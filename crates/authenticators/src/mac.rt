ghost use Rattle.std.specs.Prelude.{◌≡◌, ◌-◌, ◌≤◌, ◌++◌, length, map, bit_xor, replicate};
ghost use Rattle.definitions.specs.Bytes.{Bytes};
ghost use Rattle.definitions.specs.Tags.{hmac, block_key};
ghost use Rattle.authenticators.specs.Keyed.{AreStates, IsKeyed};

use lanes::after_block;
use sha2::{Digest, Sha256};

/// The bytes of a block of SHA-256.
const BLOCK: usize = 64;

/// HMAC-SHA-256 of a text under a key of any length (RFC 2104, section 2): 32 bytes.
pub fn hmac(key: &[u8], text: &[u8]) -> [u8; 32]
    ensures { result ≡ hmac key.now text.now }
{
    KeyedHashers::new(key).hmac_of_parts(&[], text)
}

/// The two hashers of an HMAC that have taken the two blocks which are made of the key, and nothing else.
#[derive(Drop)]
pub(crate) struct KeyedHashers {
    inner: Sha256,
    outer: Sha256,
}

impl KeyedHashers {
    /// Those of a key of any length.
    pub(crate) fn new(key: &[u8]) -> KeyedHashers
        ensures { IsKeyed key.now result }
    {
        let block = block_of_key(key);
        let inner_key = masked(&block, 0x36);
        let outer_key = masked(&block, 0x5c);
        KeyedHashers {
            inner: Sha256::new_with_prefix(inner_key.as_slice()),
            outer: Sha256::new_with_prefix(outer_key.as_slice()),
        }
    }

    /// The same ones again, since an HMAC uses them up. No memory is taken.
    pub(crate) fn copied(&self) -> KeyedHashers
        ensures { result ≡ self.now }
    {
        KeyedHashers {
            inner: self.inner.clone().unwrap(),
            outer: self.outer.clone().unwrap(),
        }
    }

    /// The HMAC under their key of a text that is given in two parts, so that nothing is copied.
    #[tactic(auto, unfolding(definitions::specs::Tags::hmac))]
    pub(crate) fn hmac_of_parts(self, head: &[u8], rest: &[u8]) -> [u8; 32]
        ensures { (key : Bytes) → IsKeyed key self → result ≡ hmac key (head.now ++ rest.now) }
    {
        let KeyedHashers {
            mut inner,
            mut outer,
        } = self;
        inner.update(head);
        inner.update(rest);
        let digest = inner.finalize();
        outer.update(digest.as_slice());
        outer.finalize()
    }
}

/// The hash values after the two blocks that HMAC makes of a key: where lanes begin, since hashers don't show theirs.
#[derive(Drop)]
pub(crate) struct KeyStates {
    pub(crate) inner: [u32; 8],
    pub(crate) outer: [u32; 8],
}

impl KeyStates {
    /// Those of a key of any length.
    pub(crate) fn new(key: &[u8]) -> KeyStates
        ensures { AreStates key.now result }
    {
        let block = block_of_key(key);
        KeyStates {
            inner: after_block(&masked(&block, 0x36)),
            outer: after_block(&masked(&block, 0x5c)),
        }
    }

    /// The same ones again.
    pub(crate) fn copied(&self) -> KeyStates
        ensures { result ≡ self.now }
    {
        KeyStates {
            inner: self.inner,
            outer: self.outer,
        }
    }
}

/// The key as one block: zero bytes behind it, and a longer one hashed first.
fn block_of_key(key: &[u8]) -> [u8; BLOCK]
    ensures { result ≡ block_key key.now }
{
    if key.len() > BLOCK {
        filled(&Sha256::digest(key))
    } else {
        filled(key)
    }
}

/// These bytes, and zero bytes up to a block.
fn filled(bytes: &[u8]) -> [u8; BLOCK]
    requires { length bytes.now ≤ BLOCK }
    ensures { result ≡ bytes.now ++ replicate (BLOCK - length bytes.now) 0 }
{
    let mut block = [0; BLOCK];
    block[..bytes.len()].copy_from_slice(bytes);
    block
}

/// Each byte of the block with the same mask.
fn masked(block: &[u8; BLOCK], mask: u8) -> [u8; BLOCK]
    ensures { result ≡ map (λ byte. bit_xor byte mask) block.now }
{
    let mut out = *block;
    for byte in out.iter_mut() {
        *byte ^= mask;
    }
    out
}
