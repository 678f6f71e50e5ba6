//! Bytes of a fixed length, made of parts and cut into parts.

ghost use Rattle.std.specs.Prelude.{◌≡◌, ◌+◌, ◌≤◌, ◌↔◌, length, take, drop, IsTrue};
ghost use Rattle.appending.specs.Joined.{joined};

/// Fills bytes with these parts, one behind the other.
fn fill(bytes: &mut [u8], parts: &[&[u8]])
    requires { length (joined parts.now) ≡ length bytes.old }
    ensures { bytes.new ≡ joined parts.now }
{
    let mut at = 0;
    for part in parts {
        let end = at + part.len();
        bytes[at..end].copy_from_slice(part);
        at = end;
    }
}

/// These parts, one behind the other.
pub(crate) fn join<const N: usize>(parts: &[&[u8]]) -> [u8; N]
    requires { length (joined parts.now) ≡ N }
    ensures { result ≡ joined parts.now }
{
    let mut bytes = [0; N];
    fill(&mut bytes, parts);
    bytes
}

/// The part that stands from a place on.
pub(crate) fn part<const N: usize>(bytes: &[u8], at: usize) -> [u8; N]
    requires { at + N ≤ length bytes.now }
    ensures { result ≡ take N (drop at bytes.now) }
{
    let mut part = [0; N];
    part.copy_from_slice(&bytes[at..at + N]);
    part
}

/// Whether all bytes are equal. Each pair is looked at, wherever they differ; the loop itself compares nothing.
pub(crate) fn are_equal(a: &[u8; 32], b: &[u8; 32]) -> bool
    ensures { IsTrue result ↔ (a.now ≡ b.now) }
{
    let mut differing: u8 = 0;
    for i in 0..32 {
        differing |= a[i] ^ b[i];
    }
    differing == 0
}
