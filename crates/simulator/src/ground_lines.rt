//! What stands in the lines of offers, gatherings, leads and questions.

ghost use Rattle.std.specs.Prelude.{option_map};
ghost use Rattle.std.specs.List.{All};
ghost use Rattle.simulator.specs.Texts.{IsReadOf, IsReading, behind_word};
ghost use Rattle.simulator.specs.Lines.{IsOffer, offer_text, AreOffered, offered_text, IsSource, source_text};
ghost use Rattle.simulator.specs.Lines.{AreDigitsOfReplica, digits_of_replica, sources_text, IsGathering};
ghost use Rattle.simulator.specs.Lines.{gathering_text, IsLead, lead_text, IsQuestion, question_text};

use crate::lines::cut_word;
use crate::words::{NotRead, bytes_of, digest_of, number_of, replica_of};
use ids::{Digest, ReplicaId};
use std::alloc::Global;
use world_schedule::Source;

/// A frame of the record, and the replica that it is offered to.
pub(crate) fn offer_of(fields: &str) -> Option<(u64, ReplicaId)>
    ensures { IsReadOf offer_text IsOffer fields.now result }
{
    let (frame, to) = fields.split_once(' ')?;
    Some((number_of(frame)?, replica_of(to)?))
}

/// A replica, and the bytes that are offered to it.
pub(crate) fn offered_of(alloc: Global, fields: &str) -> Result<(ReplicaId, Vec<u8>), NotRead>
    ensures { IsReading offered_text AreOffered fields.now result }
{
    let Some(read) = digits_behind(fields) else {
        return Err(NotRead::Bad);
    };
    let (to, digits) = read;
    let bytes = bytes_of(alloc, digits)?;
    Ok((to, bytes))
}

/// A replica, and the digits behind it.
fn digits_behind(fields: &str) -> Option<(ReplicaId, &str)>
    ensures { IsReadOf digits_of_replica AreDigitsOfReplica fields.now
        (option_map (λ s. (s.0, s.1.now)) result) }
{
    let (to, digits) = fields.split_once(' ')?;
    Some((replica_of(to)?, digits))
}

/// Where a frame comes from.
fn source_of(alloc: Global, word: &str) -> Result<Source, NotRead>
    ensures { IsReading source_text IsSource word.now result }
{
    if let Some(digits) = word.strip_prefix('x') {
        let bytes = bytes_of(alloc, digits)?;
        return Ok(Source::Bytes(bytes));
    }
    match number_of(word) {
        Some(frame) => Ok(Source::Record(frame)),
        None => Err(NotRead::Bad),
    }
}

/// Sources, each behind a space.
fn sources_of(alloc: Global, text: Option<&str>) -> Result<Vec<Source>, NotRead>
    ensures { IsReading (λ sources. sources_text sources.items) (λ sources. All IsSource sources.items)
        (behind_word (option_map (λ rest. rest.now) text.entry)) result }
{
    let mut sources = Vec::new(alloc);
    let mut left = text;
    while let Some(fields) = left {
        let (word, behind) = cut_word(fields);
        let source = source_of(alloc, word)?;
        sources.push(source)?;
        left = behind;
    }
    Ok(sources)
}

/// A replica, and the sources of the frames that come to it together.
pub(crate) fn gathering_of(alloc: Global, fields: &str) -> Result<(ReplicaId, Vec<Source>), NotRead>
    ensures { IsReading gathering_text IsGathering fields.now result }
{
    let (word, behind) = cut_word(fields);
    let Some(to) = replica_of(word) else {
        return Err(NotRead::Bad);
    };
    if behind.is_none() {
        return Err(NotRead::Bad);
    }
    let sources = sources_of(alloc, behind)?;
    Ok((to, sources))
}

/// A replica, and the block that it is to lead from.
pub(crate) fn lead_of(fields: &str) -> Option<(ReplicaId, Digest)>
    ensures { IsReadOf lead_text IsLead fields.now result }
{
    let (replica, block) = fields.split_once(' ')?;
    Some((replica_of(replica)?, digest_of(block)?))
}

/// A replica, whom it is to ask, and for which block.
pub(crate) fn question_of(fields: &str) -> Option<(ReplicaId, ReplicaId, Digest)>
    ensures { IsReadOf question_text IsQuestion fields.now result }
{
    let (replica, rest) = fields.split_once(' ')?;
    let (to, block) = lead_of(rest)?;
    Some((replica_of(replica)?, to, block))
}
