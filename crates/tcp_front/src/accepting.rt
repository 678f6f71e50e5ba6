ghost use Rattle.std.specs.Prelude.{◌≡◌, ◌⊎◌, IfOk, OnErr, Err};
ghost use Rattle.ids.specs.declared.fault.Fault.TheVariants.{AcceptFailed, Stopped};

use crate::attending::{attend, refuse};
use crate::seats::{Seat, Seats};
use ids::Fault;
use log::Log;
use std::io::ErrorKind;
use std::net::{Shutdown, TcpListener, TcpStream};
use std::os::fd::OwnedFd;
use std::sync::Wait;
use std::thread;
use std::thread::{Scope, Threads};
use std::time::Clock;

/// What ends a front from outside. It is made before the front begins, so that to close one takes neither
/// memory nor a file.
#[derive(Drop)]
pub struct Closer {
    /// A second handle of the listener's socket. To shut that down wakes who waits for a connection.
    listener: TcpStream,
}

impl Closer {
    /// What ends the front of this listener. `AcceptFailed` where the system gives no second handle of it.
    pub fn new(listener: &TcpListener) -> Result<Closer, Fault>
        ensures { OnErr result (result ≡ Err AcceptFailed) }
    {
        match listener.try_clone() {
            Ok(listener) => Ok(Closer {
                listener: TcpStream::from(OwnedFd::from(listener)),
            }),
            Err(_) => Err(Fault::AcceptFailed),
        }
    }

    /// Ends the front of these seats: it accepts no further connection, and each that there is ends within
    /// half a second after its last request was answered or refused.
    pub fn close<S: Drop>(&self, seats: &Seats<S>) {
        seats.close();
        let _ = self.listener.shutdown(Shutdown::Both);
    }
}

/// The next connection. One that its peer gave up before it was accepted is passed over. `Stopped` where
/// the seats were closed.
fn accept<S: Drop>(listener: &TcpListener, seats: &Seats<S>) -> Result<TcpStream, Fault>
    ensures { OnErr result ((result ≡ Err AcceptFailed) ⊎ (result ≡ Err Stopped)) }
{
    for _ in 0..u64::MAX {
        let accepted = listener.accept();
        if seats.are_closed() {
            return Err(Fault::Stopped);
        }
        match accepted {
            Ok((stream, _address)) => {
                let _ = stream.set_nodelay(true);
                return Ok(stream);
            }
            Err(error) => match error.kind() {
                ErrorKind::Interrupted | ErrorKind::ConnectionAborted => {}
                _ => break,
            },
        }
    }
    Err(Fault::AcceptFailed)
}

/// Accepts so many connections, and begins each in a thread of its own.
fn accept_all<'s, E, R: Threads + Wait + Clock + Sync + AllocGlobal + Log, S: Seat + Send + Drop>(
    rt: &'s R,
    scope: &Scope<'s, E>,
    listener: &TcpListener,
    seats: &'s Seats<S>,
    most: u64,
) -> Result<u64, Fault>
    ensures served { IfOk result (λ served. served ≡ most) }
    ensures failed { OnErr result ((result ≡ Err AcceptFailed) ⊎ (result ≡ Err Stopped)) }
{
    for _ in 0..most {
        let stream = accept(listener, seats)?;
        match seats.take(rt) {
            Some(taken) => {
                let begun = scope.spawn(move || attend(rt, stream, seats, taken));
                // Where no thread can be had, this one does it.
                if let Err(refused) = begun {
                    (refused.value)();
                }
            }
            None => {
                if let Err(refused) = scope.spawn(move || refuse(stream)) {
                    (refused.value)();
                }
            }
        }
    }
    Ok(most)
}

/// Serves so many connections, those for which there was no seat included, and answers that number.
///
/// Each takes a free seat for its time, and is served in a thread of its own. Where none is free it
/// is told `SERVER_ERROR too many connections` and closed. `AcceptFailed` comes only where
/// accepting failed, and `Stopped` only where the seats were closed (`Closer`). Both close the seats, so that no
/// connection goes on for long. It returns when all connections have ended, and no lost seat tries any more.
pub fn front<R: Threads + Wait + Clock + Sync + AllocGlobal + Log, S: Seat + Send + Drop>(
    rt: &R,
    listener: &TcpListener,
    seats: &Seats<S>,
    most: u64,
) -> Result<u64, Fault>
    ensures served { IfOk result (λ served. served ≡ most) }
    ensures failed { OnErr result ((result ≡ Err AcceptFailed) ⊎ (result ≡ Err Stopped)) }
{
    thread::scope(
        thread::scope_env(),
        rt,
        |scope| -> Result<u64, Fault>
            ensures served { IfOk result (λ served. served ≡ most) }
            ensures failed { OnErr result ((result ≡ Err AcceptFailed) ⊎ (result ≡ Err Stopped)) }
        {
            let served = accept_all(rt, scope, listener, seats, most);
            if served.is_ok() {
                seats.end();
            } else {
                seats.close();
            }
            served
        },
    )
}
