use ids::Fault;
use line_feed::{Feed, Item};
use mc_lines::write_request;
use sha2::{Digest, Sha256};
use std::alloc::Global;

/// The items that a feed gave, in words.
#[derive(Drop)]
struct Told {
    items: u64,
    words: Vec<u8>,
    ended: bool,
}

impl Told {
    fn new(alloc: Global) -> Told {
        Told {
            items: 0,
            words: Vec::new(alloc),
            ended: false,
        }
    }

    /// Puts an item into words.
    fn tell(&mut self, item: &Item<'_>) -> Result<(), Fault> {
        self.items = self.items.wrapping_add(1);
        match item {
            Item::Request(request, noreply) => {
                self.words
                    .extend_from_slice(if *noreply { b"quiet " } else { b"aloud " })?;
                write_request(request, &mut self.words)?;
            }
            Item::Quit => {
                self.words.extend_from_slice(b"quit\r\n")?;
                self.ended = true;
            }
            Item::Bad(fault) => {
                let fault: Fault = (*fault).into();
                self.words
                    .extend_from_slice(&[b'0'.wrapping_add(fault.number()), b'\n'])?;
                self.ended = fault != Fault::UnknownName;
            }
        }
        Ok(())
    }

    /// Pushes a piece, and takes all items that are whole then.
    fn take(&mut self, feed: &mut Feed, piece: &[u8]) -> Result<(), Fault> {
        feed.push(piece)?;
        for _ in 0..=piece.len() {
            if self.ended {
                break;
            }
            let Some(item) = feed.next() else {
                break;
            };
            self.tell(&item)?;
        }
        Ok(())
    }

    /// What is printed of them.
    fn text(&self, alloc: Global) -> anyhow::Result<String> {
        let digest = Sha256::digest(&self.words);
        let start = hex::encode(alloc, &digest[..8])?;
        Ok(format!(in alloc; "{} items {}", self.items, start)?)
    }
}

/// The items of a text that comes in pieces of so many bytes.
fn given(alloc: Global, text: &[u8], step: usize) -> Result<Told, Fault> {
    let mut feed = Feed::new(alloc)?;
    let mut given = Told::new(alloc);
    for piece in text.chunks(step.max(1)) {
        if given.ended {
            break;
        }
        given.take(&mut feed, piece)?;
    }
    Ok(given)
}

/// The items of a text in pieces of several sizes.
pub fn in_pieces(alloc: Global, text: &[u8]) -> anyhow::Result<String> {
    let first = given(alloc, text, 1)?;
    for step in [2, 3, 5, 8, 13] {
        if given(alloc, text, step)?.words != first.words {
            return Ok(format!(in alloc; "other items in pieces of {step}")?);
        }
    }
    first.text(alloc)
}

/// The items of a text that comes in two pieces, cut at every place.
pub fn cut_in_two(alloc: Global, text: &[u8]) -> anyhow::Result<String> {
    let whole = given(alloc, text, text.len().max(1))?;
    let mut places = 0u64;
    for at in 1..text.len() {
        let mut feed = Feed::new(alloc)?;
        let mut given = Told::new(alloc);
        given.take(&mut feed, &text[..at])?;
        if !given.ended {
            given.take(&mut feed, &text[at..])?;
        }
        if given.words == whole.words {
            places = places.wrapping_add(1);
        }
    }
    Ok(format!(in alloc; "{places} cuts, {}", whole.text(alloc)?)?)
}
