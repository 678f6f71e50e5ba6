//! The words of a schedule's lines, read.

ghost use Rattle.std.specs.Prelude.{◌≡◌, ◌^◌, decimal};
ghost use Rattle.simulator.specs.declared.words.NotRead.TheVariants as not_read;
ghost use Rattle.hex.specs.Hex.{encode_lower, IsBytes};
ghost use Rattle.simulator.specs.Texts.{undecoded, IsReadOf, IsReading, IsBelow, party_text};
ghost use Rattle.run_report.specs.Names.{replica_text, client_text};
ghost use Rattle.simulator.specs.Lines.{IsDigest};

use hex::FromHexError;
use ids::{ClientId, Digest, PartyId, ReplicaId};
use mc_lines::read_number;
use std::alloc::{AllocError, AllocFailed, Global};

/// Why a text gives nothing.
#[derive(Clone, Copy, Debug, PartialEq, Eq)]
pub(crate) enum NotRead {
    /// It spells nothing of its kind.
    Bad,
    /// Memory was refused.
    Memory,
}

impl From<FromHexError> for NotRead {
    ghost from_gives = { λ why not_read. not_read ≡ undecoded why };

    fn from(why: FromHexError) -> NotRead {
        match why {
            FromHexError::OutOfMemory => NotRead::Memory,
            _ => NotRead::Bad,
        }
    }
}

impl From<AllocError> for NotRead {
    ghost from_gives = { λ _ why. why ≡ not_read.Memory };

    fn from(_error: AllocError) -> NotRead {
        NotRead::Memory
    }
}

impl<T: Drop> From<AllocFailed<T>> for NotRead {
    ghost from_gives = { λ _ why. why ≡ not_read.Memory };

    fn from(_error: AllocFailed<T>) -> NotRead {
        NotRead::Memory
    }
}

pub(crate) fn party_of(word: &str) -> Option<PartyId>
    ensures { IsReadOf party_text (IsBelow 512) word.now result }
{
    match word.strip_prefix('c') {
        Some(client) => Some(ClientId(small_number_of(client)?).into()),
        None => Some(replica_of(word)?.into()),
    }
}

pub(crate) fn replica_of(word: &str) -> Option<ReplicaId>
    ensures { IsReadOf replica_text (IsBelow 256) word.now result }
{
    Some(ReplicaId(small_number_of(word.strip_prefix('r')?)?))
}

pub(crate) fn client_of(word: &str) -> Option<ClientId>
    ensures { IsReadOf client_text (IsBelow 256) word.now result }
{
    Some(ClientId(small_number_of(word.strip_prefix('c')?)?))
}

fn small_number_of(word: &str) -> Option<u8>
    ensures { IsReadOf decimal (IsBelow 256) word.now result }
{
    u8::try_from(number_of(word)?).ok()
}

/// The number that a decimal without a sign and leading zeros writes.
#[tactic(auto, using(crate::proofs::Numbers::number_is_read))]
pub(crate) fn number_of(word: &str) -> Option<u64>
    ensures { IsReadOf decimal (IsBelow (2 ^ 64)) word.now result }
{
    read_number(word.as_bytes())
}

/// The bytes that an even number of lower-case hexadecimal digits write.
pub(crate) fn bytes_of(alloc: Global, digits: &str) -> Result<Vec<u8>, NotRead>
    ensures { IsReading (λ bytes. encode_lower bytes.items) (λ bytes. IsBytes bytes.items) digits.now result }
{
    let bytes = hex::decode(alloc, digits)?;
    // Digits in upper case are read too, and aren't those that write the bytes.
    let again = hex::encode(alloc, bytes.as_slice())?;
    if again.as_str() == digits {
        Ok(bytes)
    } else {
        Err(NotRead::Bad)
    }
}

/// The digest that sixty-four lower-case hexadecimal digits write.
pub(crate) fn digest_of(word: &str) -> Option<Digest>
    ensures { IsReadOf encode_lower IsDigest word.now result }
{
    let mut digest = [0; 32];
    hex::decode_to_slice(word, &mut digest).ok()?;
    // Digits in upper case are read too, and aren't those that write the digest.
    let mut again = [0; 64];
    hex::encode_to_slice(digest.as_slice(), &mut again).ok()?;
    if again.as_slice() != word.as_bytes() {
        return None;
    }
    Some(Digest(digest))
}
