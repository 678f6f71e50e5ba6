ghost use Rattle.line_feed.specs.Feeding.{items_in, Gives, IsItemLent, IsGivenLent};
ghost use Rattle.std.specs.Prelude.{◌≡◌, ◌+◌, ◌-◌, ◌<◌, ◌≤◌, ◌++◌, [], length, drop, vec_capacity, IfOk};
ghost use Rattle.std.specs.Prelude.{IfSome, OnOk, OnErr, Err};

use crate::item::Item;
use appending::put;
use ids::{Fault, LineFault, MOST_HELD};
use mc_lines::{Read, read_request};
use std::alloc::Global;
use std::marker::Model;

/// The bytes that a connection brought and whose items weren't given yet.
///
/// What was given isn't moved: `start` goes behind it, and the rest is moved to the front only
/// where new bytes find no room behind it. After the line `quit`, and after a fault that isn't of
/// an unknown name, `start` stays, so that each further `next` reads the same again.
#[derive(Drop)]
pub struct Feed {
    bytes: Vec<u8>,
    start: usize,
}

impl Model for Feed {
    ghost use Rattle.ids.specs.declared.limits.TheConstants.{MOST_HELD};
    ghost use Rattle.std.specs.Prelude.{ℕ, List, ◌≤◌, drop, length, vec_len, vec_capacity};

    ghost Value = { List ℕ };

    ghost view = { λ f. drop f.start f.bytes.items };

    ghost invariant = { λ f. (f.start ≤ length f.bytes.items) × (length f.bytes.items ≤ MOST_HELD)
        × (MOST_HELD ≤ vec_capacity f.bytes) };
}

/// Keeps the bytes from this place on, at the front.
fn keep_from(bytes: &mut Vec<u8>, start: usize)
    requires { start ≤ length bytes.old.items }
    ensures items { bytes.new.items ≡ drop start bytes.old.items }
    ensures capacity { vec_capacity bytes.old ≤ vec_capacity bytes.new }
{
    let left = bytes.len() - start;
    bytes.copy_within(start.., 0);
    bytes.truncate(left);
}

/// The first item of these bytes, if it is whole, and how many of them are let go.
fn first(held: &[u8]) -> (Option<Item<'_>>, usize)
    ensures gives { Gives held.now (items_in result.0) (drop result.1 held.now) }
    ensures within { result.1 ≤ length held.now }
    ensures lent { IfSome result.0 (λ item. IsItemLent held.entry item) }
{
    match read_request(held) {
        Read::Whole {
            request,
            used,
            noreply,
        } => (Some(Item::Request(request, noreply)), used),
        Read::Quit { .. } => (Some(Item::Quit), 0),
        Read::More => (None, 0),
        Read::Bad { fault, used } => (Some(Item::Bad(fault)), used),
    }
}

impl Feed {
    ghost use Rattle.line_feed.specs.contracts.feed.Feed.{the_row};
    ghost use Rattle.std.specs.Borrow.{sem};
    ghost use Rattle.std.specs.Io.BufRead.{Rests};
    ghost use Rattle.ids.specs.declared.fault.Fault.TheVariants.{FeedFull, Memory};

    /// A feed that holds nothing, with room for the 16,384 bytes that it may hold. No other call
    /// takes memory. `Memory` where that room is refused.
    pub fn new(alloc: Global) -> Result<Feed, Fault>
        ensures empty { IfOk result (λ feed. feed ≡ []) }
        ensures memory { OnErr result (result ≡ Err Memory) }
    {
        let bytes = Vec::with_capacity(alloc, MOST_HELD)?;
        Ok(Feed { bytes, start: 0 })
    }

    /// Takes in these bytes, behind those that are held. `FeedFull` exactly where they and the held
    /// ones exceed 16,384 bytes, and nothing changes then.
    pub fn push(&mut self, bytes: &[u8]) -> Result<(), Fault>
        ensures pushed { OnOk result
            ((length self.old + length bytes.now ≤ MOST_HELD) × (self.new ≡ self.old ++ bytes.now)) }
        ensures full { OnErr result ((MOST_HELD < length self.old + length bytes.now)
            × (result ≡ Err FeedFull) × (self.new ≡ self.old)) }
    {
        let held = self.bytes.len() - self.start;
        if MOST_HELD - held < bytes.len() {
            return Err(Fault::FeedFull);
        }
        if MOST_HELD - self.bytes.len() < bytes.len() {
            keep_from(&mut self.bytes, self.start);
            self.start = 0;
        }
        put(&mut self.bytes, bytes);
        Ok(())
    }

    /// The first item of the bytes that are held, or `None` where it isn't whole yet. Its bytes are
    /// let go, and the next call gives what stands behind them; but what ends all is given again by
    /// every call. What the item lends lies in the feed's buffer, so the feed can't change while
    /// the item is in use.
    pub fn next(&mut self) -> Option<Item<'_>>
        ensures* gives { sem 𝓛 (Rests the_row self.entry (λ new. Gives self.old (items_in result) new)) }
        ensures lent { IsGivenLent self.old result }
    {
        let (item, used) = first(&self.bytes[self.start..]);
        self.start += used;
        item
    }
}
