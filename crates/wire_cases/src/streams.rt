//! Frames on a wire.
//!
//! - Of `longest FAULTS` the lengths of the longest frame and of the longest item are told.
//! - Of `put FAULTS FRAME ..` a word for each frame, `put` or why not, and then what goes over the wire.
//! - Of `pieces FAULTS STREAM LENGTH ..` what a feed gives of the stream in pieces of the first length: `ping`, or a
//!   frame, and at last `more` or why nothing more comes; then how many of the lengths give the same.
//! - Of `cuts FAULTS STREAM` the same of the whole, and how many of its cuts in two give the same.
//! - Of `room FAULTS LENGTH` how many pieces of that length a new feed takes in.

use crate::fields::{bytes_of, told};
use anyhow::{Context, Result, bail};
use ids::Config;
use std::alloc::Global;
use wire_frames::{Feed, Item, WireFault, longest_frame, longest_item, put};

/// The longest piece.
const PIECE: usize = 65_536;

/// The words of what a feed gave.
#[derive(Drop)]
struct Given {
    text: String,
    ended: bool,
}

impl Given {
    fn new(alloc: Global) -> Given {
        Given {
            text: String::new(alloc),
            ended: false,
        }
    }

    /// Puts what `next` said into words. Whether it may be asked again at once.
    fn tell(&mut self, alloc: Global, answer: Result<Option<Item<'_>>, WireFault>) -> Result<bool> {
        match answer {
            Ok(Some(Item::Frame(bytes))) => write!(self.text, "{} ", told(alloc, bytes)?)?,
            Ok(Some(Item::Ping)) => self.text.push_str("ping ")?,
            Ok(None) => return Ok(false),
            Err(fault) => {
                if !self.ended {
                    write!(self.text, "{fault} ")?;
                }
                self.ended = true;
                return Ok(false);
            }
        }
        Ok(true)
    }

    /// Pushes a piece, and asks for all that is whole then. Behind a refusal more is pushed, as far as there is room.
    fn take(&mut self, alloc: Global, feed: &mut Feed, piece: &[u8]) -> Result<()> {
        match feed.push(piece) {
            Ok(()) => {}
            Err(WireFault::FeedFull) if self.ended => {}
            Err(fault) => bail!(fault),
        }
        for _ in 0..=piece.len() {
            if !self.tell(alloc, feed.next())? {
                break;
            }
        }
        Ok(())
    }

    /// All words.
    fn into_text(self) -> Result<String> {
        let Given { mut text, ended } = self;
        if !ended {
            text.push_str("more ")?;
        }
        Ok(text)
    }
}

/// What is given of a stream that comes in pieces of so many bytes.
fn in_pieces(alloc: Global, config: &Config, stream: &[u8], step: usize) -> Result<String> {
    let mut feed = Feed::new(alloc, config, PIECE)?;
    let mut given = Given::new(alloc);
    for piece in stream.chunks(step.max(1)) {
        given.take(alloc, &mut feed, piece)?;
    }
    given.into_text()
}

/// What is given of a stream in pieces of the first of some lengths, and for how many of them it is the same.
fn pieces(alloc: Global, config: &Config, case: &str) -> Result<String> {
    let (stream, lengths) = case.split_once(' ').unwrap_or((case, "1"));
    let stream = bytes_of(alloc, stream)?;
    let mut first = None;
    let mut alike = 0u64;
    for length in lengths.split(' ') {
        let given = in_pieces(alloc, config, &stream, length.parse()?)?;
        if first.is_none() {
            first = Some(given.clone()?);
        }
        if first.as_ref() == Some(&given) {
            alike = alike.wrapping_add(1);
        }
    }
    let first = first.context("no lengths")?;
    Ok(format!(in alloc; "{first}{alike} alike")?)
}

/// What is given of a stream as a whole, and for how many cuts in two it is the same.
fn cuts(alloc: Global, config: &Config, stream: &[u8]) -> Result<String> {
    let whole = in_pieces(alloc, config, stream, PIECE)?;
    let mut alike = 0u64;
    for at in 0..=stream.len() {
        let mut feed = Feed::new(alloc, config, PIECE)?;
        let mut given = Given::new(alloc);
        given.take(alloc, &mut feed, &stream[..at])?;
        given.take(alloc, &mut feed, &stream[at..])?;
        if given.into_text()? == whole {
            alike = alike.wrapping_add(1);
        }
    }
    Ok(format!(in alloc; "{whole}{alike} alike")?)
}

/// What comes of putting frames.
fn put_all(alloc: Global, config: &Config, frames: &str) -> Result<String> {
    let mut text = String::new(alloc);
    let mut wire = Vec::new(alloc);
    for field in frames.split(' ') {
        match put(config, &bytes_of(alloc, field)?, &mut wire) {
            Ok(()) => text.push_str("put ")?,
            Err(fault) => write!(text, "{fault} ")?,
        }
    }
    text.push_str(told(alloc, &wire)?.as_str())?;
    Ok(text)
}

/// How many pieces of so many bytes a new feed takes in.
fn room(alloc: Global, config: &Config, len: usize) -> Result<String> {
    let mut feed = Feed::new(alloc, config, PIECE)?;
    let piece = vec![in alloc; 0u8; len]?;
    for count in 0..1_000_000u32 {
        if let Err(fault) = feed.push(&piece) {
            return Ok(format!(in alloc; "{count} {fault}")?);
        }
    }
    bail!("too much room")
}

/// What is printed of a case.
pub(crate) fn case_told(alloc: Global, subject: &str, case: &str) -> Result<String> {
    let (faults, rest) = case.split_once(' ').unwrap_or((case, ""));
    let config = Config::new(faults.parse()?, 1)?;
    match subject {
        "longest" => {
            let frame = longest_frame(&config);
            Ok(format!(in alloc; "{frame} {}", longest_item(&config))?)
        }
        "put" => put_all(alloc, &config, rest),
        "cuts" => cuts(alloc, &config, &bytes_of(alloc, rest)?),
        "pieces" => pieces(alloc, &config, rest),
        _ => room(alloc, &config, rest.parse()?),
    }
}
