//! A leader that always has something to propose.

ghost use Rattle.std.specs.Prelude.{⊤};

use crate::workers::frames;
use crate::workers::order::Nowhere;
use anyhow::{Result, bail};
use authenticators::ReplicaKeyring;
use fabric::{Inbox, Links, Outgoing, WaitingRoom, Worker};
use frames_view::genesis_digest;
use ids::{Config, Fault, Kind, ReplicaId, View};
use locked_replica::Share;
use replica::{Input, Out, Sending, To};
use signed_frames::WorkerKeyring;
use simulated_keys::replica_keyring_of;
use std::alloc::Global;
use std::sync::Wait;
use std::time::Clock;
use turns::{Open, Prompt, Steps};

/// How often it proposes.
const MOST: u64 = 100;

/// Proposes whenever it is asked, and takes none of its own blocks.
#[derive(Drop)]
struct Proposer {
    alloc: Global,
    proposal: Vec<u8>,
    /// How often it proposed, and how often it had when its timeout came.
    proposed: u64,
    at_timeout: u64,
}

impl Proposer {
    /// Its proposal, to all.
    fn out(&self) -> Result<Out, Fault> {
        let frame = Vec::from_slice(self.alloc, &self.proposal)?;
        let (to, kind) = (To::All, Kind::Proposal);
        Ok(Out::one(self.alloc, Sending { to, kind, frame })?)
    }
}

impl Steps for Proposer {
    ghost moved = { λ _ _ _ _ _ _. ⊤ };

    ghost prompted = { λ _ _ _ _ _ _. ⊤ };

    ghost passed = { λ _ _. ⊤ };

    fn step<R: Wait>(
        &mut self,
        _rt: &R,
        _share: &mut Share,
        _input: Input<'_>,
    ) -> Result<Out, Fault> {
        Err(Fault::Crowded)
    }

    fn prompt<R: Wait>(
        &mut self,
        _rt: &R,
        share: &mut Share,
        prompt: Prompt,
    ) -> Option<Result<Out, Fault>> {
        if prompt != Prompt::Beat {
            self.at_timeout = self.proposed;
            return Some(Err(Fault::Stopped));
        }
        if self.proposed >= MOST || share.count() == usize::MAX {
            return None;
        }
        let Ok(out) = self.out() else {
            return None;
        };
        self.proposed += 1;
        share.add(1);
        Some(Ok(out))
    }
}

/// Hands in a vote of replica 1 at the link of replica 0, a timeout, and then a stop.
fn hand_in<R: Wait>(rt: &R, alloc: Global, links: &Links, inbox: &Inbox) -> Result<()> {
    let sending = Sending {
        to: To::Replica(ReplicaId(0)),
        kind: Kind::Vote,
        frame: frames::vote(alloc, links.config(), ReplicaId(1), &genesis_digest())?,
    };
    links.send(rt, ReplicaId(1), sending);
    if inbox.timeout(rt, View(0)).is_err() {
        bail!("the timeout is lost");
    }
    inbox.stop(rt);
    Ok(())
}

/// Lets a worker of replica 0 take what was handed in, and tells how often it had proposed by then.
fn tell<R: Wait + Clock>(
    rt: &R,
    alloc: Global,
    inbox: &Inbox,
    keyring: ReplicaKeyring,
    proposal: Vec<u8>,
) -> Result<String> {
    let room = WaitingRoom::new(alloc, keyring.config(), 1);
    let keyring = WorkerKeyring::new(keyring);
    let mut proposer = Proposer {
        alloc,
        proposal,
        proposed: 0,
        at_timeout: 0,
    };
    let worker = Worker::new(alloc, keyring, &Open, inbox, &Nowhere, &room);
    let _share = worker.run(rt, &mut proposer, Share::new(ReplicaId(0), 0));
    let (at_timeout, at_stop) = (proposer.at_timeout, proposer.proposed);
    Ok(format!(in alloc; "its timeout came behind {at_timeout}, its stop behind {at_stop}")?)
}

/// Plays it.
pub(crate) fn play<R: Wait + Clock>(rt: &R, alloc: Global) -> Result<String> {
    let config = Config::new(1, 2)?;
    let keyring = replica_keyring_of(alloc, config, ReplicaId(0))?;
    let proposal = frames::proposal_bytes(alloc, config)?;
    let (links, ends) = Links::new(alloc, config)?;
    let Some(inbox) = ends.replicas.first() else {
        bail!("no link of replica 0");
    };
    hand_in(rt, alloc, &links, inbox)?;
    tell(rt, alloc, inbox, keyring, proposal)
}
