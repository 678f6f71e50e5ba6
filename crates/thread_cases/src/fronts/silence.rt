//! A client's service over links on which nothing comes until a request was given up: one that is open, and one that is
//! closed.

use crate::fronts::{count_of, note, one_seat, tell};
use anyhow::Result;
use authenticators::ReplicaKeyring;
use client_accept::Session;
use client_service::{ClientService, Link};
use frame_writers::ReplyText;
use frames_view::{Frame, read};
use ids::{ClientId, Config, Fault, Place, ReplicaId};
use log::kv::Source;
use log::span::Spans;
use log::{Level, Line, Log, Logged, Metadata, Record};
use signed_frames::reply_frame;
use simulated_keys::keyring_of;
use std::alloc::Global;
use std::fmt::Display;
use std::net::{Net, SocketAddr, TcpListener, TcpStream};
use std::sync::Wait;
use std::sync::atomic::Ordering::SeqCst;
use std::sync::atomic::{AtomicBool, AtomicU64};
use std::thread::{Threads, join};
use std::time::Clock;
use tcp_front::{Seat, Seats, front};

/// How often a request is sent before it is given up.
const TRIES: u64 = 30;

/// A link over which nothing comes until a request was given up, and which doesn't wait. It counts what is sent.
#[derive(Drop)]
struct Silence<'a> {
    alloc: Global,
    open: bool,
    sendings: &'a AtomicU64,
    /// What comes next.
    replies: Vec<Vec<u8>>,
}

/// The replies of two replicas of four to a request.
fn replies_to(alloc: Global, frame: &[u8]) -> Result<Vec<Vec<u8>>> {
    let config = Config::new(1, 1)?;
    let mut replies = Vec::new(alloc);
    let (Ok(Frame::Request(view)), Some(text)) = (read(&config, frame), ReplyText::new(b"END\r\n"))
    else {
        return Ok(replies);
    };
    for number in 0..2 {
        let keyring = keyring_of(alloc, config, ReplicaId(number).into())?;
        if let Some(keyring) = ReplicaKeyring::new(keyring) {
            let seq = view.seq();
            replies.push(reply_frame(alloc, &keyring, ClientId(0), seq, Place(seq.0), &text)?)?;
        }
    }
    Ok(replies)
}

impl Link for Silence<'_> {
    ghost use Rattle.std.specs.Prelude.{⊤};

    ghost carries = { λ before traffic after. ⊤ };

    fn is_open(&self) -> bool {
        self.open
    }

    fn send(&mut self, frame: &[u8]) {
        if self.sendings.fetch_add(1, SeqCst) < TRIES {
            return;
        }
        if let Ok(replies) = replies_to(self.alloc, frame) {
            self.replies = replies;
        }
    }

    fn receive(&mut self, frame: &mut Vec<u8>) -> bool {
        match self.replies.pop() {
            Some(reply) => frame.extend_from_slice(reply.as_slice()).is_ok(),
            None => false,
        }
    }
}

/// A logger that prints what it is told, and notes whether a seat is of use again.
#[derive(Clone, Copy, Drop)]
struct Printed<'a, R> {
    rt: R,
    is_back: &'a AtomicBool,
}

impl<R: AllocGlobal + Print> Log for Printed<'_, R> {
    fn enabled(&self, _metadata: &Metadata<'_>) -> bool {
        true
    }

    fn log<D: Display, K: Source, S: Spans>(&self, record: &Record<'_, D, K, S>) {
        if let Ok(line) = format!(in self.rt.alloc(); "{}", Line::new(record)) {
            let _ = println!(self.rt; "{}", line.as_str());
            if line.as_str().contains(" is of use again") {
                self.is_back.store(true, SeqCst);
            }
        }
    }

    fn flush(&self) {}

    fn target(&self) -> &str {
        ""
    }
}

/// Waits until a seat is of use again.
fn wait_for(is_back: &AtomicBool) {
    for _ in 0..u64::MAX {
        if is_back.load(SeqCst) {
            break;
        }
    }
}

/// What two clients read, one after the other. The second comes once the seat of the first is of use again, where that
/// was lost.
fn clients<R: Net<Stream = TcpStream> + AllocGlobal>(
    rt: &R,
    at: SocketAddr,
    is_back: Option<&AtomicBool>,
) -> Result<Vec<String>> {
    let alloc = rt.alloc();
    let mut read = Vec::new(alloc);
    let first = TcpStream::connect(rt, at)?;
    note(alloc, &first, "get a\r\n", &mut read)?;
    note(alloc, &first, "", &mut read)?;
    if let Some(is_back) = is_back {
        wait_for(is_back);
    }
    let second = TcpStream::connect(rt, at)?;
    note(alloc, &second, "get a\r\nquit\r\n", &mut read)?;
    note(alloc, &second, "", &mut read)?;
    Ok(read)
}

/// A seat over such a link.
fn seat(alloc: Global, link: Silence<'_>) -> Result<ClientService<Silence<'_>>> {
    let config = Config::new(1, 1)?;
    let client = ClientId(0);
    let keyring = keyring_of(alloc, config, client.into())?;
    let session = Session::new(alloc, config, client, keyring);
    Ok(ClientService::new(alloc, session, link))
}

/// One seat over such a link.
fn seats(alloc: Global, link: Silence<'_>) -> Result<Seats<ClientService<Silence<'_>>>> {
    one_seat(alloc, seat(alloc, link)?)
}

/// What prints lines of the log.
fn printing<'a, R: Clone + Drop + AllocGlobal + Print>(
    rt: &R,
    is_back: &'a AtomicBool,
) -> Result<Logged<R, Printed<'a, R>>> {
    let printed = Printed {
        rt: rt.clone()?,
        is_back,
    };
    Ok(Logged::new(rt.clone()?, Level::Info, printed))
}

/// Serves as many connections as two clients make, and what these read.
fn serve_both<R, L, S>(
    rt: &R,
    told: &L,
    listener: &TcpListener,
    seats: &Seats<S>,
    at: SocketAddr,
    is_back: Option<&AtomicBool>,
) -> (std::result::Result<u64, Fault>, Result<Vec<String>>)
where
    R: Threads + Wait + Sync + AllocGlobal + Net<Stream = TcpStream>,
    L: Threads + Wait + Clock + Sync + AllocGlobal + Log,
    S: Seat + Send + Drop,
{
    join(
        rt,
        || front(told, listener, seats, 2),
        || clients(rt, at, is_back),
    )
}

/// Prints what clients read, and how often a frame was sent. Both connections were served.
fn tell_sent<R: Print>(
    rt: &R,
    sent: u64,
    served: std::result::Result<u64, Fault>,
    read: Result<Vec<String>>,
) -> Result<()> {
    tell(rt, &read?)?;
    println!(rt; "sent {sent}")?;
    let _two = count_of(served)?;
    Ok(())
}

/// Serves two connections with one seat over such a link. Prints what their clients read, and how often a
/// frame was sent.
pub(crate) fn silent_scene<R>(rt: &R, open: bool) -> Result<()>
where
    R: Threads + Wait + Clock + Sync + Clone + Drop + AllocGlobal + Print,
    R: Net<Listener = TcpListener, Stream = TcpStream>,
{
    let listener = TcpListener::bind(rt, "127.0.0.1:0")?;
    let (sendings, is_back) = (AtomicU64::new(0), AtomicBool::new(false));
    let link = Silence {
        alloc: rt.alloc(),
        open,
        sendings: &sendings,
        replies: Vec::new(rt.alloc()),
    };
    let at = listener.local_addr()?;
    let told = printing(rt, &is_back)?;
    let seats = seats(rt.alloc(), link)?;
    let waited_for = open.then_some(&is_back);
    let (served, read) = serve_both(rt, &told, &listener, &seats, at, waited_for);
    tell_sent(rt, sendings.load(SeqCst), served, read)
}
