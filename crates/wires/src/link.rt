use crate::pace::Pace;
use handshake::Peer;
use std::net::{Shutdown, TcpStream};
use std::sync::atomic::AtomicBool;
use std::sync::atomic::Ordering::SeqCst;

/// A connection whose other end a handshake named. Threads share it by reference.
#[derive(Drop)]
pub(crate) struct Link {
    pub(crate) peer: Peer,
    pub(crate) stream: TcpStream,
    /// Which of its party's links it is. The first one is 1.
    pub(crate) number: u64,
    /// Whether it has ended.
    pub(crate) is_over: AtomicBool,
}

impl Link {
    /// This connection, whose other end a handshake named.
    pub(crate) fn new(number: u64, peer: Peer, stream: TcpStream) -> Link {
        Link {
            peer,
            stream,
            number,
            is_over: AtomicBool::new(false),
        }
    }

    /// Ends it: who reads it or writes to it finds that out at once.
    pub(crate) fn end(&self) {
        self.is_over.store(true, SeqCst);
        let _ = self.stream.shutdown(Shutdown::Both);
    }
}

/// Makes a connection wait as long as a link's does. False where the system refuses.
pub(crate) fn settle(stream: &TcpStream, pace: &Pace) -> bool {
    stream.set_nonblocking(false).is_ok()
        && stream.set_nodelay(true).is_ok()
        && stream.set_read_timeout(Some(pace.silence)).is_ok()
        && stream.set_write_timeout(Some(pace.stuck)).is_ok()
}
