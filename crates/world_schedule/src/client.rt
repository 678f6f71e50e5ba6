//! What events bring to a client.

ghost use Rattle.std.specs.Prelude.{IsTrue, IfOk, OnErr, ◌≡◌};
ghost use Rattle.definitions.specs.Canonical.{is_canonical};
ghost use Rattle.world_schedule.specs.Turns.{Submits, Hears};
ghost use Rattle.world_schedule.specs.Hearing.{HearsAs};

use crate::effect::Effect;
use client_accept::{Receipt, Session};
use frames_view::{Frame, read};
use ids::{Fault, Kind};
use mc_lines::read_canonical;
use replica::{Sending, To};
use std::alloc::Global;

/// Has a client submit the request that a payload spells.
pub(crate) fn submit(alloc: Global, session: &mut Session, payload: &[u8]) -> Result<Effect, Fault>
    requires { IsTrue (is_canonical payload.now) }
    ensures submitted { IfOk result (λ e. Submits session.old payload.now session.new e) }
    ensures memory { OnErr result (result ≡ Err Fault.Memory) }
{
    let request = read_canonical(payload).unwrap();
    match session.submit(&request) {
        Ok(frame) => {
            let sending = Sending {
                to: To::All,
                kind: Kind::Request,
                frame,
            };
            Effect::one(alloc, sending, None)
        }
        Err(fault) => Ok(Effect::only(alloc, Some(fault))),
    }
}

/// Brings bytes to a client, which counts replies alone.
fn hear(session: &mut Session, bytes: &[u8]) -> Result<Option<Receipt>, Fault>
    ensures { HearsAs session.old bytes.now session.new result }
{
    match read(&session.config(), bytes)? {
        Frame::Reply(reply) => session.on_reply(&reply),
        _ => Err(Fault::NotMine),
    }
}

/// Brings bytes to a client.
pub(crate) fn receive(alloc: Global, session: &mut Session, bytes: &[u8]) -> Effect
    ensures { Hears session.old bytes.now session.new result }
{
    let client = session.client();
    match hear(session, bytes) {
        Ok(receipt) => Effect {
            out: Vec::new(alloc),
            accepted: receipt.map(|receipt| (client, receipt)),
            answer: None,
        },
        Err(fault) => Effect::only(alloc, Some(fault)),
    }
}
