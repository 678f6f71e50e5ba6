//! The end of a deployment whose replicas may hold few blocks.

use crate::ask;
use anyhow::{Result, bail};
use key_file::PairKeys;
use log::kv::Source;
use log::span::Spans;
use log::{Level, Line, Log, Logged, Metadata, Record};
use server::{Terms, Workers, run};
use std::alloc::Global;
use std::fmt::Display;
use std::hash::RandomState;
use std::net::{Net, SocketAddr, TcpListener, TcpStream};
use std::random::RandomSource;
use std::sync::Wait;
use std::sync::atomic::AtomicU64;
use std::sync::atomic::Ordering::SeqCst;
use std::thread::{Threads, join};
use std::time::Clock;

/// How many blocks a replica may hold.
const BLOCKS: usize = 60;

/// How many requests that is less than: one that comes alone takes blocks of its own.
const REQUESTS: usize = 60;

/// A logger that counts the replicas that stopped because they hold as many blocks as they may.
#[derive(Clone, Copy, Drop)]
struct Stops<'a> {
    alloc: Global,
    count: &'a AtomicU64,
}

impl Log for Stops<'_> {
    fn enabled(&self, _metadata: &Metadata<'_>) -> bool {
        true
    }

    fn log<D: Display, K: Source, S: Spans>(&self, record: &Record<'_, D, K, S>) {
        if let Ok(line) = format!(in self.alloc; "{}", Line::new(record)) {
            if line.as_str().contains(" stopped: tree is full; ") {
                self.count.fetch_add(1, SeqCst);
            }
        }
    }

    fn flush(&self) {}

    fn target(&self) -> &str {
        ""
    }
}

/// The first answer to a `set` that isn't `STORED`.
fn ask_until_refused<R: Net<Stream = TcpStream> + AllocGlobal>(
    rt: &R,
    at: SocketAddr,
) -> Result<String> {
    let stream = TcpStream::connect(rt, at)?;
    for _ in 0..REQUESTS {
        let answer = ask(rt.alloc(), &stream, "set a 0 0 1\r\nx\r\n")?;
        if answer.as_str() != "STORED\r\n" {
            return Ok(answer);
        }
    }
    bail!("all were stored")
}

/// Runs a deployment until its replicas hold as many blocks as they may. Prints what its client reads last,
/// whether more than one replica was told to have stopped, and how the deployment ended.
pub(crate) fn end_of_few_blocks<R>(rt: &R, keys: &PairKeys) -> Result<()>
where
    R: Threads + Wait + Clock + Sync + Send + Clone + Drop + AllocGlobal + Print + RandomSource,
    R: Net<Listener = TcpListener, Stream = TcpStream>,
{
    let listener = TcpListener::bind(rt, "127.0.0.1:0")?;
    let at = listener.local_addr()?;
    let (alloc, count) = (rt.alloc(), AtomicU64::new(0));
    let stops = Stops {
        alloc,
        count: &count,
    };
    let told = Logged::new(rt.clone()?, Level::Warn, stops);
    let terms = Terms {
        liars: None,
        liar_clients: 0,
        most: u64::MAX,
        blocks: Some(BLOCKS),
        window: None,
        window_most: None,
        record: 0,
        patience: 1,
        late: None,
        workers: Workers::Two,
        watch: None,
        hasher: RandomState::new(rt)?,
    };
    let (ended, read) = join(
        rt,
        || run(&told, keys, &listener, terms),
        || ask_until_refused(rt, at),
    );
    let ended = ended?;
    println!(rt; "{:?}", read?.as_str())?;
    println!(rt; "more than one stopped: {}", count.load(SeqCst) > 1)?;
    println!(rt; "{:?}, audit {:?}", ended.served, ended.audit)?;
    Ok(())
}
