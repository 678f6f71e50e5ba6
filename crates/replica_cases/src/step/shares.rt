//! A kept replica and shares of it, and what closing answers.
//!
//! It is closed three times: with a share of another kept replica among its own, with its last
//! share missing, and with its own alone. Of each is told `refused`, or `closed` and how many steps
//! the replica counts; a wrong answer is an error.

ghost use Rattle.std.specs.Prelude.{◌≡◌, ◌<◌};
ghost use Rattle.marks.specs.Eyes.{first_eye, first_eyes};
ghost use Rattle.ids.specs.Sizes.{replicas};

use crate::carried::beside;
use crate::step::told::tell_past;
use ids::{Config, Fault, ReplicaId};
use locked_replica::{Kept, NotAll, Share};
use marks::{Eye, Marks};
use replica::Archived;
use simulated_keys::replica_keyring_of;
use std::alloc::Global;
use std::hash::RandomState;

/// The eye that owns the word of a replica.
fn eye_of(marks: &Marks, eyes: Vec<Eye>, number: ReplicaId) -> Eye
    requires eyes { eyes.items ≡ first_eyes marks.now }
    requires number { number < marks.now.words }
    ensures { result ≡ first_eye marks.now number }
{
    let mut eyes = eyes;
    eyes.swap_remove(usize::from(number.0))
}

/// A kept replica that has made no step.
fn kept_of<'a>(
    alloc: Global,
    hasher: RandomState,
    config: Config,
    number: ReplicaId,
    marks: &'a Marks,
    eyes: Vec<Eye>,
) -> Result<Kept<'a>, Fault>
    requires number { number < replicas config }
    requires eyes { eyes.items ≡ first_eyes marks.now }
    requires words { marks.now.words ≡ replicas config }
{
    let keys = replica_keyring_of(alloc, config, number)?;
    let replica = Archived::new(alloc, config, number, keys, hasher)?;
    let eye = eye_of(marks, eyes, number);
    Ok(Kept::new(alloc, replica, eye, marks))
}

/// So many shares of a kept replica.
fn shares_of(alloc: Global, kept: &mut Kept<'_>, count: u8) -> Result<Vec<Share>, Fault> {
    let mut shares = Vec::new(alloc);
    for _ in 0..count {
        shares.push(kept.share()?)?;
    }
    Ok(shares)
}

/// A kept replica and so many shares of it.
pub(crate) fn kept_with<'a>(
    alloc: Global,
    hasher: RandomState,
    config: Config,
    number: ReplicaId,
    count: u8,
    marks: &'a Marks,
    eyes: Vec<Eye>,
) -> Result<(Kept<'a>, Vec<Share>), Fault>
    requires number { number < replicas config }
    requires eyes { eyes.items ≡ first_eyes marks.now }
    requires words { marks.now.words ≡ replicas config }
{
    let mut kept = kept_of(alloc, hasher, config, number, marks, eyes)?;
    let shares = shares_of(alloc, &mut kept, count);
    beside(kept, shares)
}

/// A share of another kept replica of this number, of which one more is made.
pub(crate) fn strange_share(
    alloc: Global,
    hasher: RandomState,
    config: Config,
    number: ReplicaId,
    count: u8,
) -> Result<Share, Fault>
    requires { number < replicas config }
{
    let (marks, eyes) = Marks::new(alloc, config.n())?;
    let (mut other, _) = kept_with(alloc, hasher, config, number, count, &marks, eyes)?;
    other.share()
}

/// What is handed back where closing is refused.
fn refused(kept: Kept<'_>, shares: Vec<Share>) -> Result<NotAll<'_>, Fault> {
    kept.close(shares).err().ok_or(Fault::NotAll)
}

/// Tells what the replica did that closing gives back.
fn tell_closed(
    alloc: Global,
    kept: Kept<'_>,
    shares: Vec<Share>,
    text: &mut String,
) -> Result<(), Fault> {
    let closed = kept.close(shares).ok().ok_or(Fault::NotAll)?;
    tell_past(alloc, &closed.replica, text)
}

/// Takes the last share out.
fn split_last(mut shares: Vec<Share>) -> Result<(Vec<Share>, Share), Fault> {
    let last = shares.pop().ok_or(Fault::NotAll)?;
    Ok((shares, last))
}

/// Puts a share behind the others.
pub(crate) fn joined(mut shares: Vec<Share>, last: Share) -> Result<Vec<Share>, Fault> {
    shares.push(last)?;
    Ok(shares)
}

/// Closes with all shares but the last, which is refused, and then with all.
fn close_again(
    alloc: Global,
    kept: Kept<'_>,
    shares: Vec<Share>,
    last: Share,
    text: &mut String,
) -> Result<(), Fault> {
    let NotAll { kept, shares } = refused(kept, shares)?;
    let (kept, shares) = beside(kept, joined(shares, last))?;
    tell_closed(alloc, kept, shares, text)
}

/// Closes three times; the last share is the strange one.
pub(crate) fn close(
    alloc: Global,
    kept: Kept<'_>,
    shares: Vec<Share>,
    text: &mut String,
) -> Result<(), Fault> {
    let NotAll { kept, shares } = refused(kept, shares)?;
    let (kept, (own, _strange)) = beside(kept, split_last(shares))?;
    let (kept, (own, last)) = beside(kept, split_last(own))?;
    close_again(alloc, kept, own, last, text)
}
