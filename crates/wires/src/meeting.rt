//! A handshake over a connection, at the end that dials.

ghost use Rattle.std.specs.Prelude.{IfOk};
ghost use Rattle.wires.specs.Meeting.{Meets};

use handshake::{Endpoint, Nonce, Peer};
use ids::{Fault, PartyId};
use std::io::{Read, Write};

/// Begins a handshake with an acceptor, with a nonce that is made for it, and names the acceptor where its answer shows
/// that it is that one. `ReadFailed` and `WriteFailed` where the device failed; `BadTag` where it is another one, or
/// has other sizes: then it answers nothing.
pub(crate) fn meet<D: Read, W: Write>(
    endpoint: &Endpoint,
    acceptor: PartyId,
    nonce: Nonce,
    reader: &mut D,
    writer: &mut W,
) -> Result<Peer, Fault>
    ensures { IfOk result (Meets endpoint.now acceptor nonce (D.remaining reader.old) (D.remaining reader.new)
        (W.contents writer.old) (W.contents writer.new)) }
{
    let mut greeting = [0; 29];
    let mut answer = [0; 48];
    if reader.read_exact(&mut greeting).is_err() {
        return Err(Fault::ReadFailed);
    }
    let Ok(dialling) = endpoint.dial(acceptor, &greeting, nonce) else {
        return Err(Fault::BadTag);
    };
    if writer.write_all(&dialling.ask()).is_err() {
        return Err(Fault::WriteFailed);
    }
    if reader.read_exact(&mut answer).is_err() {
        return Err(Fault::ReadFailed);
    }
    match dialling.hear(&answer) {
        Ok(peer) => Ok(peer),
        Err(_) => Err(Fault::BadTag),
    }
}
