//! The text of a mark: the party's number, the mark and LF.

ghost use Rattle.std.specs.Prelude.{◌≡◌, ◌^◌, ◌<◌, IfOk, option_map};
ghost use Rattle.state_marks.specs.Texts.{mark_text, mark_behind, IsFrontOf, IsReadAs};

use ids::PartyId;
use itoa::Buffer;
use mc_lines::read_number;
use std::alloc::{AllocError, Global};

/// The text that keeps a party's mark.
pub fn mark_text(alloc: Global, party: PartyId, mark: u64) -> Result<Vec<u8>, AllocError>
    ensures { IfOk result (λ text. text.items ≡ mark_text party mark) }
{
    let (mut party_digits, mut mark_digits) = (Buffer::new(), Buffer::new());
    let mut text = Vec::from_slice(alloc, party_digits.format(party.0).as_bytes())?;
    text.extend_from_slice(b" ")?;
    text.extend_from_slice(mark_digits.format(mark).as_bytes())?;
    text.extend_from_slice(b"\n")?;
    Ok(text)
}

/// What stands behind the party's number and the space.
fn behind_party(text: &[u8], party: PartyId) -> Option<&[u8]>
    ensures { IsFrontOf party text.now (option_map (λ rest. rest.now) result) }
{
    let mut buffer = Buffer::new();
    let rest = text.strip_prefix(buffer.format(party.0).as_bytes())?;
    rest.strip_prefix(b" ")
}

/// The number that stands before the LF at the end.
fn number_of(text: &[u8]) -> Option<u64>
    ensures { IsReadAs mark_behind text.now result }
{
    read_number(text.strip_suffix(b"\n")?)
}

/// The mark that a text keeps for this party. None where it keeps none, or another's.
pub fn read_mark(text: &[u8], party: PartyId) -> Option<u64>
    ensures { IsReadAs (mark_text party) text.now result }
{
    number_of(behind_party(text, party)?)
}
