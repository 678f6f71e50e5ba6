ghost use Rattle.wire_frames.specs.Framing.{Gives, HasBytes, answer_of, most_held};
ghost use Rattle.wire_frames.specs.Longest.{longest_item};
ghost use Rattle.std.specs.Prelude.{◌≡◌, ◌+◌, ◌-◌, ◌<◌, ◌≤◌, ◌++◌, [], length, drop, vec_capacity, IfOk};
ghost use Rattle.std.specs.Prelude.{IfSome, OnOk, OnErr, IsOk, Err, nat_lt, MatchBool};

use crate::item::Item;
use crate::longest::longest_item;
use crate::wire_fault::WireFault;
use appending::put;
use ids::Config;
use std::alloc::Global;
use std::marker::Model;

/// The bytes that a connection brought and whose frames weren't given yet.
///
/// What was given isn't moved: `start` goes behind it, and the rest is moved to the front only where new bytes find no
/// room behind it. A length that no item has stays at `start`, so that each further `next` finds it again.
#[derive(Drop)]
pub struct Feed {
    bytes: Vec<u8>,
    start: usize,
    longest: usize,
    piece: usize,
    /// How many bytes may be held.
    most: usize,
}

impl Model for Feed {
    ghost use Rattle.std.specs.Prelude.{◌≡◌, ◌≤◌, drop, length, vec_capacity};
    ghost use Rattle.wire_frames.specs.Framing.{Holding, most_held};

    ghost Value = { Holding };

    ghost view = { λ f. record { longest = f.longest; piece = f.piece; held = drop f.start f.bytes.items } };

    ghost invariant = { λ f. (f.start ≤ length f.bytes.items)
        × (length f.bytes.items ≤ f.most) × (f.most ≤ vec_capacity f.bytes)
        × (f.most ≡ most_held f.longest f.piece) };
}

/// Keeps the bytes from this place on, at the front.
fn keep_from(bytes: &mut Vec<u8>, start: usize)
    requires { start ≤ length bytes.old.items }
    ensures items { bytes.new.items ≡ drop start bytes.old.items }
    ensures capacity { vec_capacity bytes.old ≤ vec_capacity bytes.new }
{
    let left = bytes.len() - start;
    bytes.copy_within(start.., 0);
    bytes.truncate(left);
}

/// What stands at the front of these bytes, where it is whole, and how many of them are let go.
fn first(held: &[u8], longest: usize) -> (Result<Option<Item<'_>>, WireFault>, usize)
    ensures gives { Gives longest held.now (answer_of result.0) (drop result.1 held.now) }
    ensures within { result.1 ≤ length held.now }
    ensures bytes { HasBytes result.0 }
    ensures fault { OnErr result.0 (result.0 ≡ Err WireFault.TooLong) }
{
    let Some(told) = held.first_chunk::<4>() else {
        return (Ok(None), 0);
    };
    let len = u32::from_be_bytes(*told) as usize;
    if len > longest {
        return (Err(WireFault::TooLong), 0);
    }
    if held.len() - 4 < len {
        return (Ok(None), 0);
    }
    let used = 4 + len;
    let item = if len == 0 {
        Item::Ping
    } else {
        Item::Frame(&held[4..used])
    };
    (Ok(Some(item)), used)
}

impl Feed {
    ghost use Rattle.wire_frames.specs.contracts.feed.Feed.{the_row};
    ghost use Rattle.std.specs.Borrow.{sem};
    ghost use Rattle.std.specs.Io.BufRead.{Rests};
    ghost use Rattle.wire_frames.specs.declared.wire_fault.WireFault.TheVariants.{FeedFull, Memory, TooLong};

    /// A feed that holds nothing, with room for the longest item at these sizes, its length, and a piece of so many
    /// bytes. No other call takes memory. `Memory` where that room is refused.
    pub fn new(alloc: Global, config: &Config, piece: usize) -> Result<Feed, WireFault>
        ensures empty { IfOk result (λ feed. feed
            ≡ record { longest = longest_item config.now; piece = piece; held = [] }) }
        ensures memory { OnErr result (result ≡ Err Memory) }
    {
        let longest = longest_item(config);
        let most = (4 + longest).checked_add(piece).ok_or(WireFault::Memory)?;
        let bytes = Vec::with_capacity(alloc, most)?;
        Ok(Feed {
            bytes,
            start: 0,
            longest,
            piece,
            most,
        })
    }

    /// Takes in these bytes, behind those that are held. `FeedFull` exactly where there is no room for all of them, and
    /// nothing changes then. Once `next` found nothing whole, there is room for a piece.
    pub fn push(&mut self, bytes: &[u8]) -> Result<(), WireFault>
        ensures pushed { OnOk result (self.new ≡ record self.old { held = self.old.held ++ bytes.now }) }
        ensures unchanged { OnErr result (self.new ≡ self.old) }
        ensures full { MatchBool
            (nat_lt (most_held self.old.longest self.old.piece) (length self.old.held + length bytes.now))
            (result ≡ Err FeedFull) (IsOk result) }
    {
        let held = self.bytes.len() - self.start;
        if self.most - held < bytes.len() {
            return Err(WireFault::FeedFull);
        }
        if self.most - self.bytes.len() < bytes.len() {
            keep_from(&mut self.bytes, self.start);
            self.start = 0;
        }
        put(&mut self.bytes, bytes);
        Ok(())
    }

    /// The frame or the ping at the front of what is held, or `None` where it isn't whole yet. Its bytes are let go,
    /// and the next call gives what stands behind them. `TooLong` where a length is told that no item at these sizes
    /// has; every further call says so again. What is given lies in the feed's buffer, so the feed can't change while
    /// it is in use.
    pub fn next(&mut self) -> Result<Option<Item<'_>>, WireFault>
        ensures* gives { sem 𝓛 (Rests the_row self.entry
            (λ new. (new.longest ≡ self.old.longest) × (new.piece ≡ self.old.piece)
            × Gives self.old.longest self.old.held (answer_of result) new.held)) }
        ensures bytes { HasBytes result }
        ensures fault { OnErr result (result ≡ Err TooLong) }
    {
        let (item, used) = first(&self.bytes[self.start..], self.longest);
        self.start += used;
        item
    }
}
