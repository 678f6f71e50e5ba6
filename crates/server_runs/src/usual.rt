//! Deployments as `mcbft` runs them by its own options: by those that stand for what is left out; with few heights kept; and
//! with a replica that doesn't begin.

use crate::keys::keys;
use crate::{ask_to_the_end, hear, tell};
use anyhow::{Result, bail};
use command_line::{Options, matches_of, words_of};
use log::kv::Source;
use log::span::Spans;
use log::{Level, Line, Log, Logged, Metadata, Record};
use server::{Ended, Runtime, run};
use std::alloc::Global;
use std::fmt::Display;
use std::hash::RandomState;
use std::io::{Read, Write};
use std::net::{Net, SocketAddr, TcpListener, TcpStream};
use std::random::RandomSource;
use std::sync::Wait;
use std::sync::atomic::AtomicBool;
use std::sync::atomic::Ordering::SeqCst;
use std::thread;
use std::thread::{Threads, join};
use std::time::{Clock, Duration};

/// The words of a deployment of which everything else is left out. It serves as many connections as are made.
const USUAL: [&str; 5] = ["mcbft", "--keys", "unread", "--serve", "6"];

/// The words of one that keeps 64 heights, and tells each second how it goes.
const FEW_HEIGHTS: [&str; 9] = [
    "mcbft", "--keys", "unread", "--serve", "1", "--window", "64", "--watch", "1",
];

/// The words of one whose last replica begins at a height that the others never come to.
const WITHOUT_ONE: [&str; 7] = [
    "mcbft", "--keys", "unread", "--serve", "1", "--late", "1000000",
];

/// Each of the eleven commands, with each answer that it can have: of a key that is there, and of one that isn't.
const ALL_COMMANDS: &str = "\
set a 5 0 2\r\n10\r\n\
add a 0 0 1\r\nx\r\n\
add b 0 0 1\r\nx\r\n\
replace c 0 0 1\r\ny\r\n\
replace b 7 0 1\r\ny\r\n\
append c 0 0 1\r\nz\r\n\
append b 0 0 1\r\nz\r\n\
prepend c 0 0 1\r\nw\r\n\
prepend b 0 0 1\r\nw\r\n\
get a b c\r\n\
gets a b c\r\n\
cas a 5 0 1 1\r\n7\r\n\
cas a 5 0 1 1\r\n8\r\n\
cas c 5 0 1 1\r\n9\r\n\
incr a 5\r\n\
incr b 1\r\n\
incr c 1\r\n\
decr a 20\r\n\
decr b 1\r\n\
decr c 1\r\n\
gets a\r\n\
delete b\r\n\
delete b\r\n\
get b\r\n\
quit\r\n";

/// How many bytes a long value has.
const LONG: usize = 4096;

/// How often it is asked for: 320 KB of replies in all.
const TIMES: usize = 80;

/// How many clients come at once.
const AT_ONCE: usize = 4;

/// For how many tenths of a second it is waited that all replicas forget.
const MOST_TENTHS: usize = 600;

/// What four clients read, all of them with a connection while the others have one: what each stored, it stored while
/// the others did, and each then asks for what the next one stored.
fn four_at_once<R: Net<Stream = TcpStream> + AllocGlobal>(
    rt: &R,
    at: SocketAddr,
    read: &mut Vec<String>,
) -> Result<()> {
    let alloc = rt.alloc();
    let mut streams = Vec::new(alloc);
    for _ in 0..AT_ONCE {
        streams.push(TcpStream::connect(rt, at)?)?;
    }
    store_each(alloc, &streams, read)?;
    get_each(alloc, &streams, read)
}

/// Each client stores under a key of its own, before any reads an answer.
fn store_each(alloc: Global, streams: &[TcpStream], read: &mut Vec<String>) -> Result<()> {
    for (number, stream) in streams.iter().enumerate() {
        let words = format!(in alloc; "set k{number} 0 0 1\r\n{number}\r\n")?;
        tell(stream, words.as_str())?;
    }
    for stream in streams {
        read.push(hear(alloc, stream)?)?;
    }
    Ok(())
}

/// Each client asks for what the next one stored, before any reads an answer.
fn get_each(alloc: Global, streams: &[TcpStream], read: &mut Vec<String>) -> Result<()> {
    for (number, stream) in streams.iter().enumerate() {
        let next = (number + 1) % AT_ONCE;
        let words = format!(in alloc; "get k{next}\r\nquit\r\n")?;
        tell(stream, words.as_str())?;
    }
    for stream in streams {
        read.push(ask_to_the_end(alloc, stream, "")?)?;
    }
    Ok(())
}

/// Stores a long value, and asks for it many times. How often it came as it was stored.
fn ask_for_much(alloc: Global, stream: &TcpStream, value: &str) -> Result<usize> {
    let words = format!(in alloc; "set long 0 0 {LONG}\r\n{value}\r\n")?;
    tell(stream, words.as_str())?;
    let wanted = format!(in alloc; "STORED\r\n")?;
    let stored = is_told(alloc, stream, wanted.as_str())?;
    let wanted = format!(in alloc; "VALUE long 0 {LONG}\r\n{value}\r\nEND\r\n")?;
    let mut count = 0usize;
    for _ in 0..TIMES {
        tell(stream, "get long\r\n")?;
        if stored && is_told(alloc, stream, wanted.as_str())? {
            count = count.saturating_add(1);
        }
    }
    Ok(count)
}

/// Whether the bytes that come next are these.
fn is_told(alloc: Global, stream: &TcpStream, wanted: &str) -> Result<bool> {
    let mut told = Vec::from_elem(alloc, 0u8, wanted.len())?;
    (&mut &*stream).read_exact(&mut told)?;
    Ok(told.as_slice() == wanted.as_bytes())
}

/// A long value.
fn long_value(alloc: Global) -> Result<String> {
    let mut value = String::new(alloc);
    for _ in 0..LONG {
        value.push('v')?;
    }
    Ok(value)
}

/// What a client reads that asks for much: how often it read a long value, and what it is told where that is to grow. Before
/// it goes it waits for a sign, where one is to come, but not for ever.
fn much<R: Net<Stream = TcpStream> + AllocGlobal + Clock>(
    rt: &R,
    at: SocketAddr,
    sign: Option<&AtomicBool>,
    read: &mut Vec<String>,
) -> Result<()> {
    let alloc = rt.alloc();
    let value = long_value(alloc)?;
    let stream = TcpStream::connect(rt, at)?;
    let count = ask_for_much(alloc, &stream, value.as_str())?;
    read.push(format!(in alloc; "{LONG} bytes {count} times")?)?;
    if let Some(sign) = sign {
        let came = wait_for(rt, sign);
        read.push(format!(in alloc; "all replicas have forgotten: {came}")?)?;
    }
    let grown = "append long 0 0 1\r\nv\r\nquit\r\n";
    read.push(ask_to_the_end(alloc, &stream, grown)?)?;
    Ok(())
}

/// Whether a sign came in time.
fn wait_for<R: Clock>(rt: &R, sign: &AtomicBool) -> bool {
    for _ in 0..MOST_TENTHS {
        if sign.load(SeqCst) {
            return true;
        }
        thread::sleep(rt, Duration::from_millis(100));
    }
    false
}

/// What clients read.
#[derive(Clone, Copy)]
enum Clients<'a> {
    /// All commands, four at once, and much.
    Usual,
    /// Much, and then a sign is waited for.
    UntilForgotten(&'a AtomicBool),
    /// Two requests.
    Few,
}

impl Clients<'_> {
    /// What they read of the deployment that listens there.
    fn read<R: Net<Stream = TcpStream> + AllocGlobal + Clock>(
        self,
        rt: &R,
        at: SocketAddr,
    ) -> Result<Vec<String>> {
        let mut read = Vec::new(rt.alloc());
        match self {
            Clients::Usual => {
                push_answers(rt, at, ALL_COMMANDS, &mut read)?;
                four_at_once(rt, at, &mut read)?;
                much(rt, at, None, &mut read)?;
            }
            Clients::UntilForgotten(sign) => much(rt, at, Some(sign), &mut read)?,
            Clients::Few => {
                let words = "set a 0 0 1\r\nx\r\nget a\r\nquit\r\n";
                push_answers(rt, at, words, &mut read)?;
            }
        }
        Ok(read)
    }
}

/// Adds what a client reads that sends these words, the last of them `quit`.
fn push_answers<R: Net<Stream = TcpStream> + AllocGlobal>(
    rt: &R,
    at: SocketAddr,
    words: &str,
    read: &mut Vec<String>,
) -> Result<()> {
    let stream = TcpStream::connect(rt, at)?;
    read.push(ask_to_the_end(rt.alloc(), &stream, words)?)?;
    Ok(())
}

/// A logger that gives a sign once the replica that holds the most blocks holds half as many as it executed, or fewer.
#[derive(Clone, Copy, Drop)]
struct Forgotten<'a> {
    alloc: Global,
    sign: &'a AtomicBool,
}

/// The number behind some words of a line.
fn number_behind(line: &str, words: &str) -> Option<u64> {
    let (_, rest) = line.split_once(words)?;
    let (digits, _) = rest.split_once(',')?;
    digits
        .split_once(' ')
        .map_or(digits, |parts| parts.0)
        .parse()
        .ok()
}

/// Whether a line of status tells that each replica holds far fewer blocks than one has executed.
fn tells_of_forgotten(line: &str) -> bool {
    match (
        number_behind(line, "; height "),
        line.split_once(" blocks held"),
    ) {
        (Some(height), Some((front, _))) => {
            let held: Option<u64> = front
                .rsplit_once(' ')
                .and_then(|parts| parts.1.parse().ok());
            matches!(held, Some(held) if held <= height / 2)
        }
        _ => false,
    }
}

impl Log for Forgotten<'_> {
    fn enabled(&self, _metadata: &Metadata<'_>) -> bool {
        true
    }

    fn log<D: Display, K: Source, S: Spans>(&self, record: &Record<'_, D, K, S>) {
        if let Ok(line) = format!(in self.alloc; "{}", Line::new(record)) {
            if tells_of_forgotten(line.as_str()) {
                self.sign.store(true, SeqCst);
            }
        }
    }

    fn flush(&self) {}

    fn target(&self) -> &str {
        ""
    }
}

/// Prints what clients read, and how their deployment ended, in the words of the program.
fn tell_end<R: Print>(rt: &R, read: &[String], ended: &Ended) -> Result<()> {
    for text in read {
        println!(rt; "{:?}", text.as_str())?;
    }
    println!(rt; "{:?}, audit {}", ended.served, words_of(&ended.audit))?;
    Ok(())
}

/// Runs a deployment as these words ask for, beside its clients. Prints what these read, and how it ended.
fn run_with<R, L>(rt: &R, told: &L, words: &[&str], clients: Clients<'_>) -> Result<()>
where
    R: Threads + Wait + Clock + Sync + AllocGlobal + Print + RandomSource,
    R: Net<Listener = TcpListener, Stream = TcpStream>,
    L: Runtime,
{
    let matches = matches_of(rt.alloc(), words)?;
    let Some(options) = Options::read(&matches, RandomState::new(rt)?) else {
        bail!("no options");
    };
    let keys = keys(rt.alloc(), options.config()?)?;
    let listener = TcpListener::bind(rt, "127.0.0.1:0")?;
    let at = listener.local_addr()?;
    let (ended, read) = join(
        rt,
        || run(told, &keys, &listener, options.terms),
        || clients.read(rt, at),
    );
    tell_end(rt, &read?, &ended?)
}

/// Runs these deployments.
pub(crate) fn usual_runs<R>(rt: &R) -> Result<()>
where
    R: Runtime + Print + RandomSource + Net<Listener = TcpListener, Stream = TcpStream>,
{
    println!(rt; "as mcbft runs them")?;
    run_with(rt, rt, USUAL.as_slice(), Clients::Usual)?;
    println!(rt; "as mcbft runs them, with a window of 64 heights")?;
    let sign = AtomicBool::new(false);
    let forgotten = Forgotten {
        alloc: rt.alloc(),
        sign: &sign,
    };
    let told = Logged::new(rt.clone()?, Level::Info, forgotten);
    let until = Clients::UntilForgotten(&sign);
    run_with(rt, &told, FEW_HEIGHTS.as_slice(), until)?;
    println!(rt; "as mcbft runs them, where one of four replicas doesn't begin")?;
    run_with(rt, rt, WITHOUT_ONE.as_slice(), Clients::Few)
}
