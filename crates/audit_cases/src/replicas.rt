//! The replicas of a line.

ghost use Rattle.std.specs.Prelude.{◌≡◌, ◌<◌, IfOk};
ghost use Rattle.ids.specs.Sizes.{replicas};
ghost use Rattle.marks.specs.Eyes.{first_eye, first_eyes};

use crate::reasons::digest;
use crate::told::{Asked, tell_asked_of};
use admission::{admit, admit_copies, admit_offer};
use ids::{Config, Digest, Fault, Height, ReplicaId};
use locked_replica::{Kept, Share};
use marks::{Eye, Marks};
use replica::{Archived, Input};
use simulated_keys::replica_keyring_of;
use std::alloc::Global;
use std::hash::RandomState;

/// The sizes that a line begins with, and the secret by which caches hash keys.
#[derive(Clone, Copy)]
pub(crate) struct Sizes {
    pub(crate) faults: u8,
    pub(crate) clients: u8,
    pub(crate) hasher: RandomState,
}

/// A number of a line.
pub(crate) fn number(digits: &str) -> Result<u8, Fault> {
    digits.parse().ok().ok_or(Fault::BadFields)
}

/// What is brought to a replica.
#[derive(Drop)]
enum Brought {
    Beat,
    Timeout,
    Prune(Height),
    Lead(Digest),
    Frame(Vec<u8>),
    Offer(Vec<u8>),
    Copies(Vec<Vec<u8>>),
}

/// Bytes in hexadecimal.
fn bytes_of(alloc: Global, digits: &str) -> Result<Vec<u8>, Fault> {
    hex::decode(alloc, digits).ok().ok_or(Fault::BadFields)
}

/// The frames of a word, with a plus between them.
fn frames_of(alloc: Global, words: &str) -> Result<Vec<Vec<u8>>, Fault> {
    let mut all = Vec::new(alloc);
    for digits in words.split('+') {
        all.push(bytes_of(alloc, digits)?)?;
    }
    Ok(all)
}

/// What a word with a name before it brings.
fn read_named(alloc: Global, name: &str, rest: &str) -> Result<Brought, Fault> {
    match name {
        "prune" => {
            let height = rest.parse().ok().ok_or(Fault::BadFields)?;
            Ok(Brought::Prune(Height(height)))
        }
        "lead" => Ok(Brought::Lead(digest(rest)?)),
        "offer" => Ok(Brought::Offer(bytes_of(alloc, rest)?)),
        "gather" => Ok(Brought::Copies(frames_of(alloc, rest)?)),
        _ => Err(Fault::BadFields),
    }
}

/// What a word brings.
fn read_word(alloc: Global, word: &str) -> Result<Brought, Fault> {
    match word {
        "beat" => return Ok(Brought::Beat),
        "timeout" => return Ok(Brought::Timeout),
        _ => {}
    }
    match word.split_once(':') {
        Some((name, rest)) => read_named(alloc, name, rest),
        None => Ok(Brought::Frame(bytes_of(alloc, word)?)),
    }
}

/// What the words of a replica bring.
fn brought_by(alloc: Global, words: &str) -> Result<Vec<Brought>, Fault> {
    let mut all = Vec::new(alloc);
    for word in words.split(',') {
        if !word.is_empty() {
            all.push(read_word(alloc, word)?)?;
        }
    }
    Ok(all)
}

/// The frames, lent.
fn lent_frames<'a>(alloc: Global, frames: &'a [Vec<u8>]) -> Result<Vec<&'a [u8]>, Fault> {
    let mut lent = Vec::new(alloc);
    for frame in frames {
        lent.push(frame.as_slice())?;
    }
    Ok(lent)
}

/// A kept replica, and the one share that is made of it.
#[derive(Drop)]
struct Stepped<'a> {
    kept: Kept<'a>,
    share: Share,
}

impl<'a> Stepped<'a> {
    /// Steps the replica. A refusal is passed over, but for one of memory.
    fn step(&mut self, input: Input<'_>) -> Result<(), Fault> {
        match self.kept.step(&mut self.share, input) {
            Err(Fault::Memory) => Err(Fault::Memory),
            _ => Ok(()),
        }
    }

    /// The sizes of the replica.
    fn config(&self) -> Config {
        self.kept.replica().replica().config()
    }

    /// Brings the bytes of a frame, checked with the keys of the replica.
    fn receive(&mut self, alloc: Global, bytes: &[u8]) -> Result<(), Fault> {
        let ring = replica_keyring_of(alloc, self.config(), self.kept.number())?;
        match admit(ring.verifying(), bytes) {
            Ok(input) => self.step(input),
            Err(_) => Ok(()),
        }
    }

    /// Offers the bytes of a frame.
    fn offer(&mut self, alloc: Global, bytes: &[u8]) -> Result<(), Fault> {
        let ring = replica_keyring_of(alloc, self.config(), self.kept.number())?;
        match admit_offer(ring.verifying(), bytes) {
            Ok(input) => self.step(input),
            Err(_) => Ok(()),
        }
    }

    /// Brings the bytes of frames together.
    fn gather(&mut self, alloc: Global, frames: &[Vec<u8>]) -> Result<(), Fault> {
        let ring = replica_keyring_of(alloc, self.config(), self.kept.number())?;
        let lent = lent_frames(alloc, frames)?;
        match admit_copies(ring.verifying(), lent.as_slice()) {
            Ok(input) => self.step(input),
            Err(_) => Ok(()),
        }
    }

    /// Brings what a word does.
    fn bring(&mut self, alloc: Global, brought: &Brought) -> Result<(), Fault> {
        match brought {
            Brought::Beat => self.step(Input::Beat),
            Brought::Timeout => self.step(Input::Timeout),
            Brought::Prune(height) => self.step(Input::Prune(*height)),
            Brought::Lead(block) => self.step(Input::Lead(*block)),
            Brought::Frame(bytes) => self.receive(alloc, bytes),
            Brought::Offer(bytes) => self.offer(alloc, bytes),
            Brought::Copies(frames) => self.gather(alloc, frames),
        }
    }

    /// Brings what words do, one after the other.
    fn bring_all(&mut self, alloc: Global, all: &[Brought]) -> Result<(), Fault> {
        for brought in all {
            self.bring(alloc, brought)?;
        }
        Ok(())
    }
}

impl Stepped<'_> {
    /// The replica, for its share.
    fn close(self, alloc: Global) -> Result<Archived, Fault> {
        let Stepped { kept, share } = self;
        match kept.close(vec![in alloc; share]?) {
            Ok(closed) => Ok(closed.replica),
            Err(_) => Err(Fault::NotAll),
        }
    }
}

/// The sizes and the number that a field names.
fn named(sizes: Sizes, field: &str) -> Result<(Config, ReplicaId), Fault>
    ensures { IfOk result (λ named. named.1 < replicas named.0) }
{
    let (name, _) = field.split_once(',').unwrap_or((field, ""));
    let (own, clients) = match name.split_once('@') {
        Some((own, clients)) => (own, number(clients)?),
        None => (name, sizes.clients),
    };
    let (config, own) = (Config::new(sizes.faults, clients)?, ReplicaId(number(own)?));
    if own.0 < config.n() {
        Ok((config, own))
    } else {
        Err(Fault::NoSuchParty)
    }
}

/// A value with what a call gave; where the call was refused, the value is dropped.
fn beside<T: Drop, U>(value: T, given: Result<U, Fault>) -> Result<(T, U), Fault> {
    match given {
        Ok(given) => Ok((value, given)),
        Err(fault) => Err(fault),
    }
}

/// The eye that owns the word of a replica.
fn eye_of(marks: &Marks, eyes: Vec<Eye>, number: ReplicaId) -> Eye
    requires eyes { eyes.items ≡ first_eyes marks.now }
    requires number { number < marks.now.words }
    ensures { result ≡ first_eye marks.now number }
{
    let mut eyes = eyes;
    eyes.swap_remove(usize::from(number.0))
}

/// A kept replica that has made no step.
fn first<'a>(
    alloc: Global,
    hasher: RandomState,
    config: Config,
    own: ReplicaId,
    marks: &'a Marks,
    eyes: Vec<Eye>,
) -> Result<Stepped<'a>, Fault>
    requires number { own < replicas config }
    requires eyes { eyes.items ≡ first_eyes marks.now }
    requires words { marks.now.words ≡ replicas config }
{
    let ring = replica_keyring_of(alloc, config, own)?;
    let replica = Archived::new(alloc, config, own, ring, hasher)?;
    let mut kept = Kept::new(alloc, replica, eye_of(marks, eyes, own), marks);
    let share = kept.share();
    let (kept, share) = beside(kept, share)?;
    Ok(Stepped { kept, share })
}

/// The replica of a field, once its inputs came.
fn replica_of(alloc: Global, sizes: Sizes, field: &str) -> Result<Archived, Fault> {
    let (config, own) = named(sizes, field)?;
    let (_, words) = field.split_once(',').unwrap_or((field, ""));
    let all = brought_by(alloc, words)?;
    let (marks, eyes) = Marks::new(alloc, config.n())?;
    let mut stepped = first(alloc, sizes.hasher, config, own, &marks, eyes)?;
    let brought = stepped.bring_all(alloc, &all);
    let (stepped, ()) = beside(stepped, brought)?;
    stepped.close(alloc)
}

/// Tells what is asked of the replicas of the fields.
pub(crate) fn tell_replicas(
    alloc: Global,
    sizes: Sizes,
    fields: &[&str],
    asked: Asked<'_>,
    text: &mut String,
) -> Result<(), Fault> {
    let mut all = Vec::new(alloc);
    for field in fields {
        all.push(replica_of(alloc, sizes, field)?)?;
    }
    tell_asked_of(alloc, &all, asked, text)
}
