ghost use Rattle.ids.specs.declared.limits.TheConstants.{MOST_LINE};
ghost use Rattle.std.specs.Prelude.{◌≡◌, ◌+◌, ◌≤◌, length, take, slice_index, option_map, IfSome, IfNone};
ghost use Rattle.std.specs.Prelude.{IfOk};
ghost use Rattle.std.specs.Borrow.{Bor};
ghost use Rattle.definitions.specs.Bytes.{Bytes};
ghost use Rattle.definitions.specs.Requests.{data_field};
ghost use Rattle.definitions.specs.Items.{HasNoEnd};
ghost use Rattle.definitions.specs.Canonical.{request_of};
ghost use Rattle.definitions.specs.Slices.{LentAt};
ghost use Rattle.mc_lines.specs.Heads.{head_of, head_key, head_place, data_in, data_seen, item_with, item_of};
ghost use Rattle.mc_lines.specs.Meaning.{asked_of, AreLent, IsReadOf, IsLent, used_of};

use crate::line::{Head, Line, read_line};
use crate::request::Request;
use ids::{LineFault, MOST_DATA, MOST_LINE};
use memchr::memmem;

/// What stands first in a text.
#[derive(Clone, Copy, Debug, PartialEq, Eq)]
pub enum Read<'a> {
    /// A request, how many bytes it takes, and whether it has the word noreply.
    Whole {
        request: Request<'a>,
        used: usize,
        noreply: bool,
    },
    /// The line `quit`. What follows it is not for reading.
    Quit {
        used: usize,
    },
    /// The line has no end yet, or its data hasn't: read again when more bytes are there.
    More,
    /// No request. After `UnknownName`, which takes its line, the next line may be read; after another fault
    /// nothing is taken, and what follows is not for reading.
    Bad {
        fault: LineFault,
        used: usize,
    },
}

/// Where the first CR LF begins, if it ends within the limit of a line.
fn line_end(bytes: &[u8]) -> Option<usize>
    ensures found { IfSome result (λ i. (i + 2 ≤ length bytes.now) × (i + 2 ≤ MOST_LINE)
        × (slice_index bytes.now i ≡ 13) × (slice_index bytes.now (i + 1) ≡ 10)
        × HasNoEnd (take i bytes.now)) }
    ensures none { IfNone result (HasNoEnd (take MOST_LINE bytes.now)) }
{
    memmem::find(&bytes[..bytes.len().min(MOST_LINE)], b"\r\n")
}

/// So much data, if it is all there with its CR LF.
fn data(rest: &[u8], bytes: u64) -> Result<Option<&[u8]>, LineFault>
    ensures value { data_seen result ≡ data_in bytes rest.now }
    ensures lent { IfOk result (λ o. IfSome o (λ stored.
        (length stored.now ≡ bytes) × LentAt rest.entry 0 stored)) }
{
    if bytes > MOST_DATA as u64 {
        return Err(LineFault::TooLarge);
    }
    let bytes = bytes as usize;
    if rest.len() < bytes + 2 {
        return Ok(None);
    }
    if &rest[bytes..bytes + 2] != b"\r\n".as_slice() {
        return Err(LineFault::BadChunk);
    }
    Ok(Some(&rest[..bytes]))
}

/// The request of a line with its data, which stands behind the line at `start`.
fn with_data<'a>(head: Head<'a>, noreply: bool, rest: &'a [u8], start: usize) -> Read<'a>
    requires { start ≤ MOST_LINE }
    ensures value { item_of result
        ≡ item_with (head_of head.entry) noreply start rest.now (data_field (head_of head.entry)) }
    ensures lent { (source : Bor Bytes) → LentAt source (head_place head.entry) (head_key head.entry)
        → LentAt source start rest.entry → IsLent source result }
{
    let Some(bytes) = head.bytes() else {
        return Read::Whole {
            request: head.with(&[]),
            used: start,
            noreply,
        };
    };
    match data(rest, bytes) {
        Ok(Some(stored)) => Read::Whole {
            request: head.with(stored),
            used: start + stored.len() + 2,
            noreply,
        },
        Ok(None) => Read::More,
        Err(fault) => Read::Bad { fault, used: 0 },
    }
}

/// Reads the first item of a text: a request, quit, or a fault.
///
/// A line is what stands before the first CR LF, and has at most 4,096 bytes with it. Faults come in this
/// order: `LineTooLong` where no line ends within that limit, `UnknownName` where its name is none of the
/// twelve, `BadFields` where its fields aren't what the command takes, `TooLarge` where more than 4,096 bytes
/// of data are announced, and `BadChunk` where CR LF doesn't follow the data. `UnknownName` takes its line,
/// and the other faults take nothing.
///
/// A call passes once over the line for its end and a fixed number of times more for its fields, and of the
/// data it looks at the two bytes behind it alone. Nothing is kept between calls: where a text grows byte by
/// byte and is read again each time, each call begins anew, and so passes over 4,096 bytes of line at most.
pub fn read_request(bytes: &[u8]) -> Read<'_>
    ensures value { IsReadOf bytes.now result }
    ensures within { used_of result ≤ length bytes.now }
    ensures lent { IsLent bytes.entry result }
{
    let Some(end) = line_end(bytes) else {
        return if bytes.len() < MOST_LINE {
            Read::More
        } else {
            Read::Bad {
                fault: LineFault::LineTooLong,
                used: 0,
            }
        };
    };
    let start = end + 2;
    match read_line(&bytes[..end]) {
        Line::Request(head, noreply) => with_data(head, noreply, &bytes[start..], start),
        Line::Quit => Read::Quit { used: start },
        Line::UnknownName => Read::Bad {
            fault: LineFault::UnknownName,
            used: start,
        },
        Line::BadFields => Read::Bad {
            fault: LineFault::BadFields,
            used: 0,
        },
    }
}

/// The request whose canonical text this is, with nothing before or behind it and without the word noreply.
pub fn read_canonical(bytes: &[u8]) -> Option<Request<'_>>
    ensures value { option_map (λ request. asked_of request) result ≡ request_of bytes.now }
    ensures lent { IfSome result (λ request. AreLent bytes.entry request (length bytes.now)) }
{
    let Read::Whole {
        request,
        used,
        noreply,
    } = read_request(bytes)
    else {
        return None;
    };
    if noreply {
        return None;
    }
    if used == bytes.len() {
        Some(request)
    } else {
        None
    }
}
