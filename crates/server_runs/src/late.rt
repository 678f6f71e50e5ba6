//! A deployment whose last replica begins when the others have forgotten the first blocks: it comes to them by what they
//! recorded.

use crate::{ask, tell};
use anyhow::Result;
use ids::Height;
use key_file::PairKeys;
use server::{EndAudit, Runtime, Terms, Workers, run};
use std::hash::RandomState;
use std::net::{Net, SocketAddr, TcpListener, TcpStream};
use std::random::RandomSource;
use std::sync::Wait;
use std::thread;
use std::thread::join;
use std::time::{Clock, Duration};

/// So many sets, one after the other. Each takes four blocks, since three have to stand on its own.
const SETS: u32 = 1500;

/// The others have executed so many heights when it begins.
const LATE: u64 = 3000;

/// Seconds in which it comes to the others, when nothing else is to do.
const CALM: u64 = 3;

/// A client that sets one key again and again, waits, and leaves. How many of its sets were stored.
fn client<R: Net<Stream = TcpStream> + Wait + Clock + AllocGlobal>(
    rt: &R,
    at: SocketAddr,
) -> Result<u32> {
    let alloc = rt.alloc();
    let stream = TcpStream::connect(rt, at)?;
    let mut stored = 0u32;
    for _ in 0..SETS {
        if ask(alloc, &stream, "set a 0 0 1\r\nx\r\n")?.as_str() == "STORED\r\n" {
            stored = stored.saturating_add(1);
        }
    }
    thread::sleep(rt, Duration::from_secs(CALM));
    tell(&stream, "quit\r\n")?;
    Ok(stored)
}

/// Runs it, and tells what its client read, and what is said of its replicas' windows: who isn't among the others at the end
/// can't be compared with them.
pub(crate) fn late_replica<R>(rt: &R, keys: &PairKeys) -> Result<()>
where
    R: Runtime + Print + RandomSource + Net<Listener = TcpListener, Stream = TcpStream>,
{
    println!(rt; "a replica that begins late")?;
    let listener = TcpListener::bind(rt, "127.0.0.1:0")?;
    let at = listener.local_addr()?;
    let terms = Terms {
        liars: None,
        liar_clients: 0,
        most: 1,
        blocks: None,
        window: Some(64),
        window_most: Some(64),
        record: 64,
        patience: 1,
        late: Some(Height(LATE)),
        workers: Workers::One,
        watch: None,
        hasher: RandomState::new(rt)?,
    };
    let (ended, stored) = join(rt, || run(rt, keys, &listener, terms), || client(rt, at));
    println!(rt; "{} of {SETS} stored", stored?)?;
    match ended?.audit {
        EndAudit::Windows(verdict) => println!(rt; "windows: {verdict:?}")?,
        EndAudit::Whole(_) | EndAudit::Part { .. } => println!(rt; "some forgot nothing")?,
    }
    Ok(())
}
