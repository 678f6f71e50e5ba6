//! A deployment and its clients in one process: with no liar, and with each that is as plain; one whose replicas forget what
//! is a few heights below; one whose replicas have one worker each; one of seven replicas; one with a client that lies;
//! one whose replicas may hold few blocks; and one of whom one begins late.
//! What each client reads is printed.
#![tactic(auto)]

mod ending;
mod keys;
mod late;
mod options;
mod usual;

use crate::ending::end_of_few_blocks;
use crate::keys::{keys, tell_key_file};
use crate::late::late_replica;
use crate::options::tell_all_options;
use crate::usual::usual_runs;
use anyhow::Result;
use audit::{Verdict, WindowVerdict};
use ids::Config;
use liars::{Liar, Lie};
use server::{EndAudit, Liars, Terms, Workers, run};
use std::alloc::Global;
use std::hash::RandomState;
use std::io::{Read, Write};
use std::net::{Net, SocketAddr, TcpListener, TcpStream};
use std::thread::join;

/// How many connections each deployment serves.
const CONNECTIONS: u64 = 6;

/// Sends these words.
pub(crate) fn tell(stream: &TcpStream, words: &str) -> Result<()> {
    (&mut &*stream).write_all(words.as_bytes())?;
    Ok(())
}

/// What comes, to the end or as long as a piece.
pub(crate) fn hear(alloc: Global, stream: &TcpStream) -> Result<String> {
    let mut piece = [0; 256];
    let count = (&mut &*stream).read(&mut piece)?;
    Ok(String::from_utf8_lossy(alloc, &piece[..count])?)
}

/// Sends these words, and gives what comes back, to the end or as long as a piece.
pub(crate) fn ask(alloc: Global, stream: &TcpStream, words: &str) -> Result<String> {
    tell(stream, words)?;
    hear(alloc, stream)
}

/// What is read until the server ends the connection, and so has its seat back.
pub(crate) fn ask_to_the_end(alloc: Global, stream: &TcpStream, words: &str) -> Result<String> {
    tell(stream, words)?;
    let mut all = Vec::new(alloc);
    (&mut &*stream).read_to_end(&mut all)?;
    Ok(String::from_utf8_lossy(alloc, &all)?)
}

/// What two clients read, of whom the second comes while the first has the only seat.
fn two_at_once<R: Net<Stream = TcpStream> + AllocGlobal>(
    rt: &R,
    at: SocketAddr,
    read: &mut Vec<String>,
) -> Result<()> {
    let alloc = rt.alloc();
    let first = TcpStream::connect(rt, at)?;
    read.push(ask(alloc, &first, "get a\r\n")?)?;
    let second = TcpStream::connect(rt, at)?;
    read.push(ask_to_the_end(alloc, &second, "")?)?;
    read.push(ask_to_the_end(alloc, &first, "quit\r\n")?)?;
    Ok(())
}

/// What the clients of a deployment read: four one after the other, and then two at once.
fn clients<R: Net<Stream = TcpStream> + AllocGlobal>(
    rt: &R,
    at: SocketAddr,
) -> Result<Vec<String>> {
    let asked = [
        "set a 0 0 1\r\nx\r\nquit\r\n",
        "get a\r\nquit\r\n",
        "set b 0 0 1 noreply\r\ny\r\nget b\r\nquit\r\n",
        "get c\r\nquit\r\n",
    ];
    let mut read = Vec::new(rt.alloc());
    for words in asked {
        let stream = TcpStream::connect(rt, at)?;
        read.push(ask_to_the_end(rt.alloc(), &stream, words)?)?;
    }
    two_at_once(rt, at, &mut read)?;
    Ok(read)
}

/// What the clients of a deployment read, of whose clients the first lies: it asks, and isn't waited for.
fn clients_beside_one_that_lies<R: Net<Stream = TcpStream> + AllocGlobal>(
    rt: &R,
    at: SocketAddr,
) -> Result<Vec<String>> {
    let liar = TcpStream::connect(rt, at)?;
    (&mut &liar).write_all("set a 0 0 1\r\nz\r\n".as_bytes())?;
    clients(rt, at)
}

/// Whether replicas were seen to fork.
fn is_fork(audit: EndAudit) -> bool {
    match audit {
        EndAudit::Whole(verdict) => matches!(verdict, Verdict::Fork(_)),
        EndAudit::Part {
            verdict,
            windows,
            ..
        } => {
            matches!(verdict, Verdict::Fork(_)) || matches!(windows, WindowVerdict::Fork { .. })
        }
        EndAudit::Windows(windows) => matches!(windows, WindowVerdict::Fork { .. }),
    }
}

/// A deployment that is run.
#[derive(Clone, Copy)]
enum Trial {
    /// Replica 0 lies so, or none lies.
    Liar(Option<Liar>),
    /// Replicas keep so many heights.
    Window(u64),
    /// Each replica has one worker.
    OneWorker,
    /// Two of seven replicas may lie, and do.
    TwoFaults(Lie),
    /// One of two clients sends each replica what is right for that one alone.
    LiarClient,
}

/// The deployments, in the order in which they are told.
const TRIALS: [Trial; 14] = [
    Trial::Liar(None),
    Trial::Liar(Some(Liar::Plain(Lie::Mute))),
    Trial::Liar(Some(Liar::Plain(Lie::TwoFaced))),
    Trial::Liar(Some(Liar::Plain(Lie::BadReply))),
    Trial::Liar(Some(Liar::Plain(Lie::Crowder))),
    Trial::Liar(Some(Liar::Plain(Lie::Flooder))),
    Trial::Liar(Some(Liar::Plain(Lie::Climber))),
    Trial::Liar(Some(Liar::Plain(Lie::Spoiler))),
    Trial::Liar(Some(Liar::Plain(Lie::HalfVoter))),
    Trial::Liar(Some(Liar::Plain(Lie::HalfVotes))),
    Trial::Window(4),
    Trial::OneWorker,
    Trial::TwoFaults(Lie::BadReply),
    Trial::LiarClient,
];

/// So many replicas that lie so to the end.
fn to_the_end(liar: Liar, count: u8) -> Liars {
    Liars {
        liar,
        count,
        until: None,
    }
}

impl Trial {
    /// What is told of it first.
    fn name(self, alloc: Global) -> Result<String> {
        match self {
            Trial::Liar(liar) => Ok(format!(in alloc; "{liar:?}")?),
            Trial::Window(heights) => Ok(format!(in alloc; "a window of {heights} heights")?),
            Trial::OneWorker => Ok(format!(in alloc; "one worker")?),
            Trial::TwoFaults(lie) => Ok(format!(in alloc; "seven replicas, {lie:?} of two")?),
            Trial::LiarClient => Ok(format!(in alloc; "one of two clients lies")?),
        }
    }

    /// How many faulty replicas are tolerated.
    fn faults(self) -> u8 {
        match self {
            Trial::TwoFaults(_) => 2,
            _ => 1,
        }
    }

    /// How many of its clients lie.
    fn liar_clients(self) -> u8 {
        match self {
            Trial::LiarClient => 1,
            _ => 0,
        }
    }

    /// How many clients it has: one that doesn't lie beside those.
    fn clients_in_all(self) -> u8 {
        match self {
            Trial::LiarClient => 2,
            _ => 1,
        }
    }

    /// What its clients read.
    fn clients<R: Net<Stream = TcpStream> + AllocGlobal>(
        self,
        rt: &R,
        at: SocketAddr,
    ) -> Result<Vec<String>> {
        match self {
            Trial::LiarClient => clients_beside_one_that_lies(rt, at),
            _ => clients(rt, at),
        }
    }

    /// How it runs.
    fn terms(self, hasher: RandomState) -> Terms {
        let usual = Terms {
            liars: None,
            liar_clients: self.liar_clients(),
            most: CONNECTIONS + u64::from(self.liar_clients()),
            blocks: None,
            window: None,
            window_most: None,
            record: 16,
            patience: 1,
            late: None,
            workers: Workers::Two,
            watch: None,
            hasher,
        };
        match self {
            Trial::Liar(liar) => Terms {
                liars: liar.map(|liar| to_the_end(liar, 1)),
                ..usual
            },
            Trial::Window(heights) => Terms {
                window: Some(heights),
                ..usual
            },
            Trial::OneWorker => Terms {
                workers: Workers::One,
                ..usual
            },
            Trial::TwoFaults(lie) => Terms {
                liars: Some(to_the_end(Liar::Plain(lie), 2)),
                ..usual
            },
            Trial::LiarClient => usual,
        }
    }
}

fn main(rt: HostRuntime) -> Result<()> {
    for trial in TRIALS {
        println!(rt; "{}", trial.name(rt.alloc())?)?;
        let config = Config::new(trial.faults(), trial.clients_in_all())?;
        let keys = keys(rt.alloc(), config)?;
        let listener = TcpListener::bind(&rt, "127.0.0.1:0")?;
        let at = listener.local_addr()?;
        let terms = trial.terms(RandomState::new(&rt)?);
        let (ended, read) = join(
            &rt,
            || run(&rt, &keys, &listener, terms),
            || trial.clients(&rt, at),
        );
        for text in &read? {
            println!(rt; "{:?}", text.as_str())?;
        }
        let ended = ended?;
        match (terms.window, ended.audit) {
            (None, EndAudit::Whole(verdict)) => {
                println!(rt; "served {}, audit {verdict:?}", ended.served?)?;
            }
            (_, audit) => println!(rt; "served {}, fork: {}", ended.served?, is_fork(audit))?,
        }
    }
    let keys = keys(rt.alloc(), Config::new(1, 1)?)?;
    end_of_few_blocks(&rt, &keys)?;
    late_replica(&rt, &keys)?;
    usual_runs(&rt)?;
    tell_all_options(&rt)?;
    tell_key_file(&rt)
}
