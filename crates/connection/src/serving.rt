ghost use Rattle.std.specs.Prelude.{◌≡◌, ◌≤◌, ◌+◌, [], IfOk, OnOk, OnErr, Err, length};
ghost use Rattle.std.specs.Io.KnownBytes.{Consumes};
ghost use Rattle.ids.specs.declared.fault.Fault.TheVariants.{ReadFailed};
ghost use Rattle.ids.specs.declared.limits.TheConstants.{MOST_DATA, MOST_LINE};
ghost use Rattle.connection.specs.Devices.{CountsOne};
ghost use Rattle.connection.specs.Serving.{IsServed, around, state};
ghost use Rattle.connection.specs.Steps.{IsHeld, IsRound, IsPulled};

use crate::counted::Counted;
use crate::end::End;
use crate::replies::{Next, Room, serve_next};
use crate::service::Service;
use ids::Fault;
use line_feed::Feed;
use std::alloc::Global;
use std::io::{Read, Write};

/// How many bytes are read at once.
const PIECE: usize = 4096;

/// Serves all items that are held. Says what ended the connection, if one of them did.
fn serve_held<W: Write, S: Service>(
    feed: &mut Feed,
    writer: &mut Counted<W>,
    service: &mut S,
    room: &mut Room,
) -> Result<Option<End>, Fault>
    ensures { IsHeld S.answers (state W.contents service.old writer.old)
        (state W.contents service.new writer.new) feed.old feed.new result }
{
    loop {
        match serve_next(feed, writer, service, room)? {
            Next::Unfinished => return Ok(None),
            Next::Served => {}
            Next::Ended(end) => return Ok(Some(end)),
        }
    }
}

/// Serves all items that are held, and flushes what was written, so that the other side has it all.
fn serve_round<W: Write, S: Service>(
    feed: &mut Feed,
    writer: &mut Counted<W>,
    service: &mut S,
    room: &mut Room,
) -> Result<Option<End>, Fault>
    ensures { IsRound S.answers (state W.contents service.old writer.old)
        (state W.contents service.new writer.new) feed.old feed.new result }
{
    let end = serve_held(feed, writer, service, room)?;
    writer.flush()?;
    Ok(end)
}

/// Takes in what the reader gives next. Says whether there was something.
fn pull<R: Read>(reader: &mut Counted<R>, feed: &mut Feed) -> Result<bool, Fault>
    requires { length feed.old ≤ MOST_LINE + MOST_DATA + 1 }
    ensures read { IfOk result
        (IsPulled (R.remaining reader.old.device) (R.remaining reader.new.device) feed.old feed.new) }
    ensures kept { OnOk result (reader.new.failures ≡ reader.old.failures) }
    ensures failed { OnErr result
        ((result ≡ Err ReadFailed) × CountsOne reader.old.failures reader.new.failures) }
    ensures nothing { OnErr result
        (Consumes (R.remaining reader.old.device) (R.remaining reader.new.device) []) }
{
    let mut piece = [0; PIECE];
    let n = reader.read(&mut piece)?;
    feed.push(&piece[..n]).unwrap();
    Ok(n > 0)
}

/// Serves a connection, piece by piece, with memory that was taken for it.
fn serve_pieces<R: Read, W: Write, S: Service>(
    feed: &mut Feed,
    room: &mut Room,
    reader: &mut Counted<R>,
    writer: &mut Counted<W>,
    service: &mut S,
) -> Result<End, Fault>
    requires { feed.old ≡ [] }
    ensures { IsServed S.answers (around R.remaining W.contents service.old reader.old writer.old)
        (around R.remaining W.contents service.new reader.new writer.new) result }
{
    let mut reads = 0;
    while reads < u64::MAX {
        match serve_round(feed, writer, service, room)? {
            Some(end) => return Ok(end),
            None => {}
        }
        if !pull(reader, feed)? {
            return Ok(End::Input);
        }
        reads += 1;
    }
    Err(Fault::Memory)
}

/// Serves a connection to its end.
///
/// Each whole request is handed to the service by its canonical payload, and the answer is written,
/// unless the request has the word `noreply`. What is wrong with a line is told, and after a fault
/// that isn't of an unknown name the connection ends. Where the service refuses, `SERVER_ERROR no
/// reply` is written, also with `noreply`, and the connection ends. All texts are written, and the
/// writer is flushed, before each read and at the end. A rest that is unfinished at the end of the
/// input is dropped.
///
/// Refusals: `Memory` where the room for one connection, 16,384 and 4,393 bytes, is refused, before
/// anything is read; `ReadFailed` and `WriteFailed` where the device failed, which its count tells
/// too. No connection brings the 2^64 - 1 pieces behind which `Memory` comes once more.
pub fn serve<R: Read, W: Write, S: Service>(
    alloc: Global,
    reader: &mut Counted<R>,
    writer: &mut Counted<W>,
    service: &mut S,
) -> Result<End, Fault>
    ensures { IsServed S.answers (around R.remaining W.contents service.old reader.old writer.old)
        (around R.remaining W.contents service.new reader.new writer.new) result }
{
    let mut feed = Feed::new(alloc)?;
    let mut room = Room::new(alloc)?;
    serve_pieces(&mut feed, &mut room, reader, writer, service)
}
