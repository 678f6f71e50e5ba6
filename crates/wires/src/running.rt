//! All threads of one party's links.

ghost use Rattle.std.specs.Prelude.{◌≡◌, Err, OnErr};
ghost use Rattle.ids.specs.declared.fault.Fault.TheVariants.{Memory};

use crate::arrivals::Arrivals;
use crate::calling::keep_reading;
use crate::door::keep_door;
use crate::sending::keep_writing;
use crate::slot::Slot;
use crate::wires::Wires;
use ids::Fault;
use std::net::{Net, TcpListener, TcpStream};
use std::random::RandomSource;
use std::sync::Wait;
use std::thread;
use std::thread::{Scope, Threads};
use std::time::Clock;

/// Starts the reader and the writer of a peer. Whether both could be had.
fn start_peer<'s, E, R, A>(
    rt: &'s R,
    scope: &Scope<'s, E>,
    wires: &'s Wires,
    slot: &'s Slot,
    rows: A,
) -> bool
where
    R: Wait
        + Clock
        + Sync
        + AllocGlobal
        + RandomSource
        + Net<Listener = TcpListener, Stream = TcpStream>,
    A: Arrivals + Send + Drop + 's,
{
    let reader = scope.spawn(move || keep_reading(rt, wires, slot, rows));
    let writer = scope.spawn(move || keep_writing(rt, wires, slot));
    reader.is_ok() && writer.is_ok()
}

/// Starts the threads of all peers, and of the door where there is one. Whether all could be had.
fn start_all<'s, E, R, A>(
    rt: &'s R,
    scope: &Scope<'s, E>,
    wires: &'s Wires,
    listener: Option<&'s TcpListener>,
    rows: Vec<A>,
) -> bool
where
    R: Wait
        + Clock
        + Sync
        + AllocGlobal
        + RandomSource
        + Net<Listener = TcpListener, Stream = TcpStream>,
    A: Arrivals + Send + Drop + 's,
{
    let mut all_started = true;
    for (slot, rows) in wires.slots.iter().zip(rows) {
        let started = start_peer(rt, scope, wires, slot, rows);
        all_started = all_started && started;
    }
    if let Some(listener) = listener {
        let door = scope.spawn(move || keep_door(rt, wires, listener));
        all_started = all_started && door.is_ok();
    }
    all_started
}

/// Keeps a party's links until `Wires::close`: its peers' frames go to these rows, one for each peer in their order.
///
/// All threads are started before the first frame: a reader and a writer for each peer, and one for the door. They have
/// ended when it returns. `Memory` where one couldn't be had: then all end.
pub fn run<R, A>(
    rt: &R,
    wires: &Wires,
    listener: Option<&TcpListener>,
    rows: Vec<A>,
) -> Result<(), Fault>
where
    R: Threads
        + Wait
        + Clock
        + Sync
        + AllocGlobal
        + RandomSource
        + Net<Listener = TcpListener, Stream = TcpStream>,
    A: Arrivals + Send + Drop,
    ensures { OnErr result (result ≡ Err Memory) }
{
    let all_started = thread::scope(thread::scope_env(), rt, |scope| {
        let all_started = start_all(rt, scope, wires, listener, rows);
        if !all_started {
            wires.close(rt);
        }
        all_started
    });
    if all_started {
        Ok(())
    } else {
        Err(Fault::Memory)
    }
}
