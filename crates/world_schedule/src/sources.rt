//! Where frames come from: the record, or a schedule.

ghost use Rattle.std.specs.Prelude.{◌≡◌, length, IsTrue, IfOk, OnErr};
ghost use Rattle.std.specs.List.{list_all};
ghost use Rattle.world_schedule.specs.Schedules.{has_source};
ghost use Rattle.world_schedule.specs.Sources.{AreBytes, AreBytesOf};

use crate::event::Source;
use crate::outcome::SentFrame;
use ids::Fault;
use std::alloc::Global;

/// Whether the frame of a source is one of the record, if it comes from there.
pub(crate) fn is_there(sent: &[SentFrame], source: &Source) -> bool
    ensures { result ≡ has_source (length sent.now) source.now }
{
    match source {
        Source::Record(frame) => *frame < sent.len() as u64,
        Source::Bytes(_) => true,
    }
}

/// Whether all are there.
pub(crate) fn are_there(sent: &[SentFrame], sources: &[Source]) -> bool
    ensures { result ≡ list_all (has_source (length sent.now)) sources.now }
{
    for source in sources {
        if !is_there(sent, source) {
            return false;
        }
    }
    true
}

/// The bytes of a source.
pub(crate) fn bytes_of<'a>(sent: &'a [SentFrame], source: &'a Source) -> &'a [u8]
    requires { IsTrue (has_source (length sent.now) source.now) }
    ensures { AreBytes sent.entry.now source.entry.now result.now }
{
    match source {
        Source::Record(frame) => &sent[*frame as usize].frame,
        Source::Bytes(bytes) => bytes,
    }
}

/// The bytes of sources, in order.
pub(crate) fn frames_of<'a>(
    alloc: Global,
    sent: &'a [SentFrame],
    sources: &'a [Source],
) -> Result<Vec<&'a [u8]>, Fault>
    requires { IsTrue (list_all (has_source (length sent.now)) sources.now) }
    ensures made { IfOk result (λ frames. AreBytesOf sent.entry.now sources.entry.now frames.items) }
    ensures memory { OnErr result (result ≡ Err Fault.Memory) }
{
    let mut frames = Vec::new(alloc);
    for source in sources {
        frames.push(bytes_of(sent, source))?;
    }
    Ok(frames)
}
