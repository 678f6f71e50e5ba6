//! Lies that are drawn.

ghost use Rattle.std.specs.Prelude.{◌≡◌, ◌<◌, ◌++◌, None, Some, IfOk, OnErr, length, map, option_to_list};
ghost use Rattle.ids.specs.Sizes.{replicas};
ghost use Rattle.signed_frames.specs.Outs.{sent_of};
ghost use Rattle.liars.specs.Any.{any_step, half_of, has_vector, lone_receiver, manner_of, next_word, spoilt_of};
ghost use Rattle.liars.specs.Any.{for_each_alone, for_one_alone, tags_in, tags_len, untagged};
ghost use Rattle.liars.specs.Told.{bytes_of};

use crate::half::replica_of;
use crate::lone::{behind, first, lone, tag_of};
use crate::plain::one;
use ids::{Config, Kind, ReplicaId};
use signed_frames::Sending;
use std::alloc::{AllocError, Global};
use std::marker::Model;
use std::mem;

/// What is done with a frame.
enum Manner {
    /// It goes out as it is.
    Whole,
    /// Of its tags one receiver's alone is left.
    Half,
    /// Its tags are zero bytes.
    Spoilt,
    /// It is put by, and what was put by before goes out.
    Late,
    /// Nothing goes out.
    Silent,
}

/// How many manners there are.
const MANNERS: u64 = 5;

/// The next word that is drawn.
fn next_word(word: u64) -> u64
    ensures { result ≡ next_word word }
{
    word.wrapping_mul(6_364_136_223_846_793_005)
        .wrapping_add(1_442_695_040_888_963_407)
}

/// What is done with a frame, by a word.
fn manner_of(word: u64) -> Manner
    ensures { result ≡ manner_of word }
{
    let number = word / 4_294_967_296 % MANNERS;
    if number == 0 {
        Manner::Whole
    } else if number == 1 {
        Manner::Half
    } else if number == 2 {
        Manner::Spoilt
    } else if number == 3 {
        Manner::Late
    } else {
        Manner::Silent
    }
}

/// For whom a frame's tag is left.
fn lone_receiver(config: Config, word: u64, sending: &Sending) -> ReplicaId
    ensures which { result ≡ lone_receiver config word (sent_of sending.now) }
    ensures within { result < replicas config }
{
    match replica_of(config, sending.to) {
        Some(replica) => replica,
        None => {
            let drawn = word / 4_294_967_296 / MANNERS % u64::from(config.n());
            ReplicaId(drawn as u8)
        }
    }
}

/// Whether a frame of this kind has a tag for each replica.
fn has_vector(kind: Kind) -> bool
    ensures { result ≡ has_vector kind }
{
    match kind {
        Kind::Request | Kind::Proposal | Kind::Vote | Kind::NewView => true,
        Kind::Reply | Kind::Fetch | Kind::Block => false,
    }
}

/// How long the tags of a frame of this kind are.
fn tags_len(config: Config, kind: Kind) -> usize
    ensures { result ≡ tags_len config kind }
{
    if has_vector(kind) {
        32 * usize::from(config.n())
    } else {
        32
    }
}

/// The frame with other tags, which are as long.
fn retagged(alloc: Global, frame: &[u8], tags: &[u8]) -> Result<Vec<u8>, AllocError>
    ensures { IfOk result (λ made. made.items ≡ untagged (length tags.now) frame.now ++ tags.now) }
{
    let body = first(frame, frame.len().saturating_sub(tags.len()));
    let mut made = Vec::from_slice(alloc, body)?;
    made.extend_from_slice(tags)?;
    Ok(made)
}

/// A frame that ends with a tag for each replica, of which this one's alone is left.
fn for_one_alone(
    alloc: Global,
    config: Config,
    frame: &[u8],
    replica: ReplicaId,
) -> Result<Vec<u8>, AllocError>
    requires { replica < replicas config }
    ensures { IfOk result (λ made. made.items ≡ for_one_alone config frame.now replica) }
{
    let len = 32 * usize::from(config.n());
    let tags = behind(frame, frame.len().saturating_sub(len));
    let vector = lone(alloc, config, replica, tag_of(tags, replica))?;
    let body = first(frame, frame.len().saturating_sub(len));
    let mut made = Vec::from_slice(alloc, body)?;
    made.extend_from_slice(&vector)?;
    Ok(made)
}

/// What a client sends that lies: to each replica its request, with the tag for that one alone. So what a leader
/// finds clear no other replica does.
pub fn for_each_alone(
    alloc: Global,
    config: Config,
    frame: &[u8],
) -> Result<Vec<Vec<u8>>, AllocError>
    ensures { IfOk result (λ out. map bytes_of out.items ≡ for_each_alone config frame.now) }
{
    let mut out = Vec::new(alloc);
    for number in 0..config.n() {
        out.push(for_one_alone(alloc, config, frame, ReplicaId(number))?)?;
    }
    Ok(out)
}

/// A frame of whose tags one replica's alone is left.
fn half(alloc: Global, config: Config, word: u64, sending: Sending) -> Result<Sending, AllocError>
    ensures { IfOk result (λ half. sent_of half ≡ half_of config word (sent_of sending)) }
{
    if !has_vector(sending.kind) {
        return Ok(sending);
    }
    let replica = lone_receiver(config, word, &sending);
    let frame = for_one_alone(alloc, config, &sending.frame, replica)?;
    let (to, kind) = (sending.to, sending.kind);
    Ok(Sending { to, kind, frame })
}

/// A frame with zero bytes for tags.
fn spoilt(alloc: Global, config: Config, sending: &Sending) -> Result<Sending, AllocError>
    ensures { IfOk result (λ spoilt. sent_of spoilt ≡ spoilt_of config (sent_of sending.now)) }
{
    let (to, kind) = (sending.to, sending.kind);
    let tags = vec![in alloc; 0u8; tags_len(config, kind)]?;
    let frame = retagged(alloc, &sending.frame, &tags)?;
    Ok(Sending { to, kind, frame })
}

/// The word that was drawn last, and the frame that was put by.
#[derive(Drop)]
pub(crate) struct Whims {
    word: u64,
    put_by: Option<Sending>,
}

impl Model for Whims {
    ghost use Rattle.std.specs.Prelude.{option_map};
    ghost use Rattle.signed_frames.specs.Outs.{sent_of};
    ghost use Rattle.liars.specs.Any as any;

    ghost Value = { any.Whims };

    ghost view = { λ w. (w.word, option_map sent_of w.put_by) };
}

impl Whims {
    /// Nothing was drawn.
    pub(crate) fn new(seed: u64) -> Whims
        ensures { result ≡ (seed, None) }
    {
        Whims {
            word: seed,
            put_by: None,
        }
    }

    /// Puts a frame by. What was put by before goes out.
    fn put_by(&mut self, alloc: Global, sending: Sending) -> Result<Vec<Sending>, AllocError>
        ensures put { IfOk result (λ out. (self.new ≡ (self.old.0, Some (sent_of sending)))
            × (map sent_of out.items ≡ option_to_list self.old.1)) }
        ensures unchanged { OnErr result (self.new ≡ self.old) }
    {
        let mut out = Vec::with_capacity(alloc, 1)?;
        if let Some(old) = mem::replace(&mut self.put_by, Some(sending)) {
            out.push_reserved(old);
        }
        Ok(out)
    }

    /// What is sent in place of a frame.
    pub(crate) fn tell(
        &mut self,
        alloc: Global,
        config: Config,
        sending: Sending,
    ) -> Result<Vec<Sending>, AllocError>
        ensures whims { IfOk result (λ _. self.new ≡ (any_step config self.old (sent_of sending)).0) }
        ensures told { IfOk result
            (λ out. map sent_of out.items ≡ (any_step config self.old (sent_of sending)).1) }
        ensures unchanged { OnErr result (self.new ≡ self.old) }
    {
        let word = next_word(self.word);
        let out = match manner_of(word) {
            Manner::Whole => one(alloc, sending)?,
            Manner::Half => one(alloc, half(alloc, config, word, sending)?)?,
            Manner::Spoilt => one(alloc, spoilt(alloc, config, &sending)?)?,
            Manner::Late => self.put_by(alloc, sending)?,
            Manner::Silent => Vec::new(alloc),
        };
        self.word = word;
        Ok(out)
    }
}
