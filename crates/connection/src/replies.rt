ghost use Rattle.std.specs.Prelude.{◌≡◌, OnErr, Err};
ghost use Rattle.ids.specs.declared.fault.Fault.TheVariants.{Memory};
ghost use Rattle.mc_lines.specs.Meaning.{asked_of};
ghost use Rattle.definitions.specs.Requests.{IsRequest};
ghost use Rattle.definitions.specs.Items.{asked};
ghost use Rattle.definitions.specs.ServerText.{told, exchange_text};
ghost use Rattle.line_feed.specs.Feeding.{item_of};
ghost use Rattle.connection.specs.Serving.{Replies, state, end_of};
ghost use Rattle.connection.specs.Steps.{MayBeServed, IsNext};

use crate::counted::Counted;
use crate::end::End;
use crate::request_text::RequestText;
use crate::service::Service;
use ids::{Fault, LineFault};
use line_feed::{Feed, Item};
use mc_lines::{Request, fault_text};
use std::alloc::Global;
use std::io::Write;

/// Room for a payload and for the service's answer.
#[derive(Drop)]
pub(crate) struct Room {
    payload: RequestText,
    answer: Vec<u8>,
}

impl Room {
    /// Room for every payload; answers take what they need.
    pub(crate) fn new(alloc: Global) -> Result<Room, Fault>
        ensures { OnErr result (result ≡ Err Memory) }
    {
        let payload = RequestText::new(alloc)?;
        Ok(Room {
            payload,
            answer: Vec::new(alloc),
        })
    }
}

/// What is written for an item, and whether that ends the connection.
#[derive(Clone, Copy)]
struct Reply<'a> {
    text: &'a [u8],
    end: Option<End>,
}

/// What comes of the front of what is held.
pub(crate) enum Next {
    /// No item is whole.
    Unfinished,
    /// An item was served, and the next may be.
    Served,
    /// An item was served that ends the connection.
    Ended(End),
}

/// Hands a request to the service.
fn reply_to_request<'a, S: Service>(
    request: &Request<'_>,
    noreply: bool,
    service: &mut S,
    room: &'a mut Room,
) -> Reply<'a>
    requires { IsRequest (asked_of request.now) noreply }
    ensures { Replies S.answers service.old service.new (asked (asked_of request.now) noreply)
        result.text.now result.end }
{
    room.payload.fill(request);
    room.answer.clear();
    match service.call(&room.payload.text(), &mut room.answer) {
        Ok(()) => Reply {
            text: if noreply { b"" } else { room.answer.as_slice() },
            end: None,
        },
        Err(_) => Reply {
            text: b"SERVER_ERROR no reply\r\n",
            end: Some(End::NoReply),
        },
    }
}

/// Says what is wrong with a line.
fn reply_to_fault(fault: LineFault) -> Reply<'static>
    ensures text { result.text.now ≡ exchange_text (told fault) }
    ensures end { result.end ≡ end_of (told fault) }
{
    Reply {
        text: fault_text(fault).as_bytes(),
        end: if fault == LineFault::UnknownName {
            None
        } else {
            Some(End::Closed)
        },
    }
}

/// Serves an item, but for the writing.
fn reply_to<'a, S: Service>(item: Item<'_>, service: &mut S, room: &'a mut Room) -> Reply<'a>
    requires { MayBeServed (item_of item) }
    ensures { Replies S.answers service.old service.new (item_of item.entry) result.text.now result.end }
{
    match item {
        Item::Request(request, noreply) => reply_to_request(&request, noreply, service, room),
        Item::Quit => Reply {
            text: b"",
            end: Some(End::Quit),
        },
        Item::Bad(fault) => reply_to_fault(fault),
    }
}

/// Serves the first item that is held, if it is whole.
pub(crate) fn serve_next<W: Write, S: Service>(
    feed: &mut Feed,
    writer: &mut Counted<W>,
    service: &mut S,
    room: &mut Room,
) -> Result<Next, Fault>
    ensures { IsNext S.answers (state W.contents service.old writer.old)
        (state W.contents service.new writer.new) feed.old feed.new result }
{
    match feed.next() {
        None => Ok(Next::Unfinished),
        Some(item) => {
            let reply = reply_to(item, service, room);
            writer.write(reply.text)?;
            match reply.end {
                None => Ok(Next::Served),
                Some(end) => Ok(Next::Ended(end)),
            }
        }
    }
}
