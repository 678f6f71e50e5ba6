//! In which order a worker takes what waits at its replica's link, and what it passes over.

ghost use Rattle.std.specs.Prelude.{⊤};

use crate::workers::frames;
use anyhow::{Result, bail};
use authenticators::ReplicaKeyring;
use fabric::{Inbox, Links, Outgoing, Questioned, Recording, WaitingRoom, Worker};
use frames_view::genesis_digest;
use ids::{Config, Digest, Fault, Kind, ReplicaId};
use locked_replica::Share;
use replica::{Input, Out, Sending, To};
use signed_frames::WorkerKeyring;
use simulated_keys::replica_keyring_of;
use std::alloc::Global;
use std::sync::Wait;
use std::time::Clock;
use turns::{Open, Prompt, Steps};

/// Sends this when it is first asked whether a beat is due, and notes whose votes come, in their order.
#[derive(Drop)]
struct Sender {
    out: Option<Out>,
    voters: Vec<u8>,
}

impl Steps for Sender {
    ghost moved = { λ _ _ _ _ _ _. ⊤ };

    ghost prompted = { λ _ _ _ _ _ _. ⊤ };

    ghost passed = { λ _ _. ⊤ };

    fn step<R: Wait>(
        &mut self,
        _rt: &R,
        _share: &mut Share,
        input: Input<'_>,
    ) -> Result<Out, Fault> {
        if let Input::Vote(vote) = input {
            self.voters.push(vote.view().vote().voter().0)?;
        }
        Err(Fault::Stopped)
    }

    fn prompt<R: Wait>(
        &mut self,
        _rt: &R,
        share: &mut Share,
        prompt: Prompt,
    ) -> Option<Result<Out, Fault>> {
        if prompt != Prompt::Beat || share.count() == usize::MAX {
            return None;
        }
        let out = self.out.take()?;
        share.add(1);
        Some(Ok(out))
    }
}

/// What is sent goes nowhere.
#[derive(Drop)]
pub(crate) struct Nowhere;

impl Outgoing for Nowhere {
    fn send<R: Wait>(&self, _rt: &R, _from: ReplicaId, _sending: Sending) {}
}

impl Questioned for Nowhere {}

impl Recording for Nowhere {}

/// One frame goes out.
fn out_of(alloc: Global, to: To, kind: Kind, frame: Vec<u8>) -> Result<Out> {
    Ok(Out::one(alloc, Sending { to, kind, frame })?)
}

/// Hands in the votes of these replicas for these blocks at the link of replica 0, in this order, and then a stop.
fn hand_in<R: Wait>(
    rt: &R,
    alloc: Global,
    links: &Links,
    inbox: &Inbox,
    votes: [(ReplicaId, Digest); 3],
) -> Result<()> {
    for (voter, block) in votes {
        let sending = Sending {
            to: To::Replica(ReplicaId(0)),
            kind: Kind::Vote,
            frame: frames::vote(alloc, links.config(), voter, &block)?,
        };
        links.send(rt, voter, sending);
    }
    inbox.stop(rt);
    Ok(())
}

/// Lets a worker of replica 0 take what was handed in, and answers whose votes came, in their order.
fn voters_of<R: Wait + Clock>(
    rt: &R,
    alloc: Global,
    inbox: &Inbox,
    keyring: ReplicaKeyring,
    out: Out,
) -> Result<Vec<u8>> {
    let room = WaitingRoom::new(alloc, keyring.config(), 1);
    let keyring = WorkerKeyring::new(keyring);
    let mut sender = Sender {
        out: Some(out),
        voters: Vec::new(alloc),
    };
    let worker = Worker::new(alloc, keyring, &Open, inbox, &Nowhere, &room);
    let _share = worker.run(rt, &mut sender, Share::new(ReplicaId(0), 0));
    Ok(sender.voters)
}

/// Whose votes come to replica 0's steps, in their order, where the first is followed by what replica 0 sends.
fn play<R: Wait + Clock>(
    rt: &R,
    alloc: Global,
    config: Config,
    votes: [(ReplicaId, Digest); 3],
    out: Out,
) -> Result<String> {
    let keyring = replica_keyring_of(alloc, config, ReplicaId(0))?;
    let (links, ends) = Links::new(alloc, config)?;
    let Some(inbox) = ends.replicas.first() else {
        bail!("no link of replica 0");
    };
    hand_in(rt, alloc, &links, inbox, votes)?;
    let mut text = String::new(alloc);
    for voter in voters_of(rt, alloc, inbox, keyring, out)? {
        write!(text, " {voter}")?;
    }
    Ok(text)
}

/// The votes of replicas 1 and 2 for genesis, and that of replica 3 for another block.
fn votes() -> [(ReplicaId, Digest); 3] {
    let (genesis, other) = (genesis_digest(), Digest([0xaa; 32]));
    [
        (ReplicaId(1), genesis),
        (ReplicaId(2), genesis),
        (ReplicaId(3), other),
    ]
}

/// The vote of replica 2 is late: when that of replica 1 was taken, a proposal goes out with genesis's certificate.
pub(crate) fn late_vote<R: Wait + Clock>(rt: &R, alloc: Global) -> Result<String> {
    let config = Config::new(1, 2)?;
    let proposal = frames::proposal_bytes(alloc, config)?;
    let out = out_of(alloc, To::All, Kind::Proposal, proposal)?;
    play(rt, alloc, config, votes(), out)
}

/// Replica 0 sends itself a vote when that of replica 1 was taken and the others wait.
pub(crate) fn own_vote<R: Wait + Clock>(rt: &R, alloc: Global) -> Result<String> {
    let config = Config::new(1, 2)?;
    let vote = frames::vote(alloc, config, ReplicaId(0), &genesis_digest())?;
    let out = out_of(alloc, To::Replica(ReplicaId(0)), Kind::Vote, vote)?;
    play(rt, alloc, config, votes(), out)
}
