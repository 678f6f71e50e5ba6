//! One connection, from its first byte to its last.

ghost use Rattle.connection.specs.Serving.{IsServed, around};

use crate::line::{Line, limit_waiting};
use crate::seats::{Seat, Seats, Taken};
use connection::{Counted, End, serve};
use ids::Fault;
use log::{Log, info, warn};
use std::alloc::Global;
use std::io::{Read, Write};
use std::net::{Shutdown, TcpStream};
use std::sync::Wait;
use std::thread;
use std::time::{Clock, Duration};
use tuning::{CLOSED_LOOK_MILLIS, LINGER_BYTES, LINGER_MILLIS, LINGER_TIMES};

/// What a connection has left.
#[derive(Drop)]
struct Left<I, O> {
    end: Result<End, Fault>,
    input: I,
    output: O,
    /// How often the input failed.
    read_failures: u64,
    /// How often the output did.
    write_failures: u64,
}

/// Serves a connection at a seat, from its input to its output, to its end or until the seats are closed.
fn serve_seat<I: Read, O: Write, S: Seat + Drop>(
    alloc: Global,
    seats: &Seats<S>,
    input: I,
    output: O,
    seat: &mut S,
) -> Left<I, O>
    ensures { IsServed S.answers
        (around I.remaining O.contents seat.old (record { device = input; failures = 0 })
        (record { device = output; failures = 0 }))
        (around I.remaining O.contents seat.new (record { device = result.input; failures = result.read_failures })
        (record { device = result.output; failures = result.write_failures }))
        result.end }
{
    let mut reader = Counted::new(Line::new(input, seats));
    let mut writer = Counted::new(Line::new(output, seats));
    let end = serve(alloc, &mut reader, &mut writer, seat);
    let (read_failures, write_failures) = (reader.failures(), writer.failures());
    Left {
        end,
        input: reader.into_device().into_device(),
        output: writer.into_device().into_device(),
        read_failures,
        write_failures,
    }
}

/// Serves a connection with a seat. Afterwards the seat is free again; where it is lost, once it is of use again.
pub(crate) fn attend<R: Wait + Clock + AllocGlobal + Log, S: Seat + Drop>(
    rt: &R,
    stream: TcpStream,
    seats: &Seats<S>,
    mut taken: Taken<S>,
) {
    limit_waiting(&stream);
    let _left = serve_seat(rt.alloc(), seats, &stream, &stream, &mut taken.seat);
    let lost = seats.leave(rt, taken);
    close(&stream);
    if let Some(lost) = lost {
        win_back(rt, seats, lost);
    }
}

/// Has a lost seat try again until it is of use, and frees it then; or until no connection is accepted any more.
fn win_back<R: Wait + Clock + Log, S: Seat + Drop>(rt: &R, seats: &Seats<S>, mut lost: Taken<S>) {
    let number = lost.number;
    warn!(rt; "client {number} is out of use: its last request has no receipt");
    for _ in rt.forever() {
        if seats.are_over() {
            return;
        }
        if lost.seat.try_again() {
            break;
        }
        thread::sleep(rt, Duration::from_millis(CLOSED_LOOK_MILLIS));
    }
    let _free = seats.free(rt, lost);
    info!(rt; "client {number} is of use again");
}

/// Tells a connection for which there is no seat.
pub(crate) fn refuse(stream: TcpStream) {
    let _ = (&stream).write_all(b"SERVER_ERROR too many connections\r\n");
    close(&stream);
}

/// Closes a connection. What it still brings is read for a moment: the system takes back what was written if
/// something unread is there when a socket goes.
fn close(stream: &TcpStream) {
    let _ = stream.shutdown(Shutdown::Write);
    if stream
        .set_read_timeout(Some(Duration::from_millis(LINGER_MILLIS)))
        .is_err()
    {
        return;
    }
    let mut piece = [0; LINGER_BYTES];
    for _ in 0..LINGER_TIMES {
        if let Ok(0) | Err(_) = (&mut &*stream).read(&mut piece) {
            return;
        }
    }
}
