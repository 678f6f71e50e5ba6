//! Commands that are executed and answered, and requests that are pending. Each case comes after those before it.
//!
//! `block BYTES` executes the commands of a Block frame, and `request BYTES` that of a Request
//! frame, at one fault and eight clients. Printed are the length of the history and the answers,
//! each with its client, number, place and text. `reply CLIENT SEQ` prints the answer that is kept
//! for this number, or `none`; `last CLIENT` the client's last number; `history` the length and the
//! first 16 bytes of the SHA-256 digest of all entries, one a line.
//!
//! `ask BYTES` adds the request of a Request frame to the pending ones, and says whether it is new;
//! `fill COUNT BYTES` adds so many, all as this one but for their numbers from 1, and prints how
//! many were new; `pick CLIENT SEQ` prints how many of them a block takes on whose branch this
//! request stands, and these, each with its length; `drop CLIENT SEQ` drops those of a client up to
//! a number, and says how many are left. `new` begins anew, and `room N` with a cache for N keys. Bytes and texts are hexadecimal. A line
//! that is refused prints `refused` and the number of the refusal.

mod pending;

use crate::execute::pending::{ask, bytes_of, client, drop_executed, fill, key_of, pick};
use executor::{Answer, Entries, Executor};
use frames_view::{CommandView, Commands, Frame, read};
use ids::{Config, Fault, MOST_KEYS};
use mempool::{Mempool, RequestId};
use sha2::{Digest, Sha256};
use std::alloc::Global;
use std::hash::RandomState;

/// What an answer says.
fn answer_text(alloc: Global, answer: &Answer) -> Result<String, Fault> {
    let text = hex::encode(alloc, answer.text())?;
    Ok(format!(in alloc;
        "{} {} at {} {text}",
        answer.client(),
        answer.seq(),
        answer.place(),
    )?)
}

/// An executor, and what it executed.
#[derive(Drop)]
struct Run {
    executor: Executor,
    entries: Entries,
}

/// Executes the commands of a block, and tells the answers.
fn tell_block(alloc: Global, run: &mut Run, commands: Commands<'_>) -> Result<String, Fault> {
    let mut told = String::new(alloc);
    let answers = run.executor.run_block(commands, &mut run.entries)?;
    for answer in &answers {
        told.push_str("; ")?;
        told.push_str(&answer_text(alloc, answer)?)?;
    }
    Ok(told)
}

/// Executes a command, and tells the answer.
fn tell_command(alloc: Global, run: &mut Run, command: &CommandView<'_>) -> Result<String, Fault> {
    match run.executor.run(command, &mut run.entries)? {
        Some(answer) => Ok(format!(in alloc; "; {}", answer_text(alloc, &answer)?)?),
        None => Ok(String::new(alloc)),
    }
}

/// Executes what a frame brings, and tells the answers.
fn execute(alloc: Global, config: &Config, run: &mut Run, bytes: &[u8]) -> Result<String, Fault> {
    match read(config, bytes) {
        Ok(Frame::Block(frame)) => tell_block(alloc, run, frame.core().commands()),
        Ok(Frame::Request(command)) => tell_command(alloc, run, &command),
        _ => Err(Fault::NotMine),
    }
}

/// What is executed of a frame, and how long the history is then.
fn tell_frame(
    alloc: Global,
    config: &Config,
    run: &mut Run,
    digits: &str,
) -> Result<String, Fault> {
    let bytes = bytes_of(alloc, digits)?;
    let told = execute(alloc, config, run, &bytes)?;
    Ok(format!(in alloc; "{}{told}", run.executor.len())?)
}

/// The answer that is kept for a client's number.
fn tell_reply(alloc: Global, executor: &Executor, words: &str) -> Result<String, Fault> {
    let RequestId { client, seq } = key_of(words)?;
    match executor.reply_of(client, seq) {
        Some(answer) => answer_text(alloc, answer),
        None => Ok(String::from_str(alloc, "none")?),
    }
}

/// How many entries there are, and a digest of them.
fn tell_history(alloc: Global, run: &Run) -> Result<String, Fault> {
    let mut told = Sha256::new();
    for entry in &run.entries {
        let payload = hex::encode(alloc, entry.payload())?;
        let line = format!(in alloc; "{} {} {payload}\n", entry.client(), entry.seq())?;
        told.update(&line);
    }
    let digest = hex::encode(alloc, &told.finalize()[..16])?;
    Ok(format!(in alloc; "{} {digest}", run.executor.len())?)
}

/// A client's last number.
fn tell_last(alloc: Global, executor: &Executor, digits: &str) -> Result<String, Fault> {
    let last = executor.last_seq(client(digits)?);
    Ok(format!(in alloc; "{last}")?)
}

/// What is executed, and the pending requests.
#[derive(Drop)]
pub(crate) struct Parts {
    run: Run,
    pool: Mempool,
    hasher: RandomState,
}

impl Parts {
    /// Nothing was executed, and nothing is pending. The cache has room for so many keys.
    pub(crate) fn new(
        alloc: Global,
        most_keys: usize,
        hasher: RandomState,
    ) -> Result<Parts, Fault> {
        Ok(Parts {
            run: Run {
                executor: Executor::new(alloc, most_keys, hasher)?,
                entries: Entries::new(alloc),
            },
            pool: Mempool::new(alloc),
            hasher,
        })
    }
}

/// What is told of a line that is about pending requests.
fn tell_pending(
    alloc: Global,
    config: &Config,
    pool: &mut Mempool,
    line: [&str; 2],
) -> Result<String, Fault> {
    let [word, rest] = line;
    match word {
        "ask" => Ok(String::from_str(alloc, ask(alloc, config, pool, rest)?)?),
        "fill" => Ok(format!(in alloc; "{}", fill(alloc, config, pool, rest)?)?),
        "pick" => pick(alloc, pool, rest),
        "drop" => Ok(format!(in alloc; "{}", drop_executed(pool, rest)?)?),
        _ => Err(Fault::BadFields),
    }
}

/// For how many keys there is to be room.
fn room_of(digits: &str) -> Result<usize, Fault> {
    match digits {
        "" => Ok(MOST_KEYS),
        _ => digits.parse().ok().ok_or(Fault::BadFields),
    }
}

/// Begins anew, with a cache for so many keys.
fn begin_anew(alloc: Global, parts: &mut Parts, digits: &str) -> Result<(), Fault> {
    *parts = Parts::new(alloc, room_of(digits)?, parts.hasher)?;
    Ok(())
}

/// What is told of a line.
fn tell(alloc: Global, config: &Config, parts: &mut Parts, line: &str) -> Result<String, Fault> {
    let (word, rest) = line.split_once(' ').unwrap_or((line, ""));
    let run = &mut parts.run;
    match word {
        "block" | "request" => tell_frame(alloc, config, run, rest),
        "reply" => tell_reply(alloc, &run.executor, rest),
        "last" => tell_last(alloc, &run.executor, rest),
        "history" => tell_history(alloc, run),
        "new" | "room" => {
            begin_anew(alloc, parts, rest)?;
            Ok(String::from_str(alloc, word)?)
        }
        _ => tell_pending(alloc, config, &mut parts.pool, [word, rest]),
    }
}

/// What is told of a case, a refusal too.
pub(crate) fn answer(
    alloc: Global,
    config: &Config,
    parts: &mut Parts,
    line: &str,
) -> Result<String, Fault> {
    match tell(alloc, config, parts, line) {
        Ok(told) => Ok(told),
        Err(fault) => Ok(format!(in alloc; "refused {}", fault.number())?),
    }
}
