//! How a leader finds out whose requests aren't right for others.

ghost use Rattle.fabric.specs.Shares.{HasGrown};

use crate::arrived::Arrived;
use crate::parcel::Base;
use crate::questioned::Questioned;
use crate::recording::Recording;
use crate::requests::{Again, Entry};
use crate::worker::{OWN, Outgoing, Worker};
use admission::{Input, admit_read};
use bytes::Bytes;
use frames_view::{Frame, read};
use ids::{ClientId, Digest, Kind, ReplicaId};
use signed_frames::Sending;
use std::sync::Wait;
use std::time::Clock;
use turns::{Gate, Share, Steps};

impl<'a, G: Gate, O: Outgoing + Questioned + Recording> Worker<'a, G, O> {
    /// Keeps a frame that is a request. Who asked for it before it came has an answer.
    pub(crate) fn keep_request<R: Wait>(&self, rt: &R, arrived: &Arrived<'_>) {
        let Some((client, seq)) = arrived.request() else {
            return;
        };
        self.room.keep_request(rt, client, seq, arrived.bytes);
        if self.room.has_questions() {
            self.answer_all(rt, client, arrived.bytes);
        }
    }

    /// Passes a request on to all who asked for it before it came.
    fn answer_all<R: Wait>(&self, rt: &R, client: ClientId, bytes: &Bytes) {
        for number in 0..self.keyring.config().n() {
            let from = ReplicaId(number);
            if self.room.answers(rt, client, from, bytes) {
                self.pass_on(rt, Some(from), bytes);
            }
        }
    }

    /// Passes a request on to another replica, or to all others. What can't be taken is lost, as on any network.
    fn pass_on<R: Wait>(&self, rt: &R, to: Option<ReplicaId>, bytes: &Bytes) {
        if let Ok(bytes) = bytes.clone() {
            self.out.pass_on(rt, self.keyring.replica(), to, bytes);
        }
    }

    /// Another replica passed a request on. A leader learns by that who has it. Others pass it back, as soon as they have
    /// it.
    pub(crate) fn hear<R: Wait + Clock, S: Steps>(
        &mut self,
        rt: &R,
        steps: &mut S,
        share: &mut Share,
        from: ReplicaId,
        bytes: Bytes,
    )
        ensures { HasGrown share.old share.new }
    {
        if self.out.leads() {
            self.hear_voucher(rt, steps, share, from, &bytes);
            return;
        }
        let Some(client) = self.client_of(&bytes) else {
            return;
        };
        if self.room.has_request(rt, client, &bytes) {
            self.pass_on(rt, Some(from), &bytes);
        } else {
            self.room.wait_for_request(rt, client, from, bytes);
        }
    }

    /// Whose request these bytes are, if they are one.
    fn client_of(&self, bytes: &Bytes) -> Option<ClientId> {
        let arrived = Arrived::new(&self.keyring.config(), OWN, bytes)?;
        let (client, _seq) = arrived.request()?;
        Some(client)
    }

    /// Another replica vouches for a request to a leader, which lets it in once enough do.
    fn hear_voucher<R: Wait + Clock, S: Steps>(
        &mut self,
        rt: &R,
        steps: &mut S,
        share: &mut Share,
        from: ReplicaId,
        bytes: &Bytes,
    )
        ensures { HasGrown share.old share.new }
    {
        let Some(arrived) = Arrived::new(&self.keyring.config(), OWN, bytes) else {
            return;
        };
        let Some((client, _seq)) = arrived.request() else {
            return;
        };
        let now = self.out.millis(rt);
        if self.room.vouch(rt, client, from, bytes, now) {
            let _answer = self.bring(rt, steps, share, &arrived);
        }
    }

    /// What is to be done with a frame now.
    fn entry<R: Wait + Clock>(&self, rt: &R, arrived: &Arrived<'_>) -> Entry {
        match arrived.request() {
            Some((client, _seq)) => {
                let (leads, now) = (self.out.leads(), self.out.millis(rt));
                self.room.entry(rt, client, arrived.bytes, leads, now)
            }
            None => Entry::LetIn,
        }
    }

    /// Whether a frame is let in. A request that isn't is kept, where its tag is right, and if need be others are asked for
    /// it.
    pub(crate) fn lets_in<R: Wait + Clock>(&self, rt: &R, arrived: &Arrived<'_>) -> bool {
        if !self.room.is_wary() {
            return true;
        }
        let entry = self.entry(rt, arrived);
        if entry == Entry::LetIn {
            return true;
        }
        if admit_read(self.keyring.verifying(), &arrived.frame.read).is_ok() {
            self.keep_request(rt, arrived);
            if entry == Entry::AskedFor {
                self.pass_on(rt, None, arrived.bytes);
            }
        }
        false
    }

    /// Notes in trouble whose request was executed.
    pub(crate) fn note_reply<R: Wait>(&self, rt: &R, sending: &Sending) {
        if sending.kind != Kind::Reply || !self.out.in_trouble() {
            return;
        }
        if let Ok(Frame::Reply(reply)) = read(&self.keyring.config(), &sending.frame) {
            self.room.serve(rt, reply.client(), reply.seq());
        }
    }

    /// The replica is to begin anew as leader, from its lock, or from the block that its last proposal certifies. It forgets
    /// by that what is pending.
    pub(crate) fn lead<R: Wait + Clock, S: Steps>(
        &mut self,
        rt: &R,
        steps: &mut S,
        share: &mut Share,
        base: Base,
    )
        ensures { HasGrown share.old share.new }
    {
        let Some(block) = base.lock.or(self.blocks.certified()) else {
            return;
        };
        let now = self.out.millis(rt);
        let again = self.room.begin_trials(rt, base.lock.is_some(), now);
        self.step(rt, steps, share, Input::Lead(block));
        self.climb(rt, steps, share, base.climb);
        self.take_again(rt, steps, share, again);
    }

    /// Proposes so many empty blocks, one on the other. The same ones stand on a block whoever leads from it, and however
    /// often: so others' heights aren't filled by them.
    fn climb<R: Wait + Clock, S: Steps>(
        &mut self,
        rt: &R,
        steps: &mut S,
        share: &mut Share,
        climb: u64,
    )
        ensures { HasGrown share.old share.new }
    {
        for _ in 0..climb {
            self.step(rt, steps, share, Input::Beat);
            self.take_own(rt, steps, share);
        }
    }

    /// Takes what the replica sent to itself: a proposal, and the vote for it.
    fn take_own<R: Wait + Clock, S: Steps>(&mut self, rt: &R, steps: &mut S, share: &mut Share)
        ensures { HasGrown share.old share.new }
    {
        for _ in rt.forever() {
            self.own.link_had_its_turn();
            let Some(bytes) = self.own.take() else {
                break;
            };
            let _worth = self.take(rt, steps, share, OWN, &bytes);
        }
    }

    /// Brings requests that were kept, and asks others for some.
    fn take_again<R: Wait + Clock, S: Steps>(
        &mut self,
        rt: &R,
        steps: &mut S,
        share: &mut Share,
        again: Again,
    )
        ensures { HasGrown share.old share.new }
    {
        let Again { let_in, asked_for } = again;
        for bytes in &asked_for {
            self.pass_on(rt, None, bytes);
        }
        self.bring_all(rt, steps, share, let_in);
    }

    /// Brings frames that were kept.
    fn bring_all<R: Wait + Clock, S: Steps>(
        &mut self,
        rt: &R,
        steps: &mut S,
        share: &mut Share,
        frames: Vec<Bytes>,
    )
        ensures { HasGrown share.old share.new }
    {
        for bytes in frames {
            let _answer = self.bring_bytes(rt, steps, share, OWN, &bytes);
        }
    }

    /// A leader in trouble lets in the next suspect's request, where trials are needed. Once trouble is over, or it leads no
    /// more, nobody is suspected: it takes what it kept as others do, so that its clock sees who waits.
    pub(crate) fn try_suspect<R: Wait + Clock, S: Steps>(
        &mut self,
        rt: &R,
        steps: &mut S,
        share: &mut Share,
    )
        ensures { HasGrown share.old share.new }
    {
        if self.room.suspects_any() {
            let (leads, now) = (self.out.leads(), self.out.millis(rt));
            if self.out.in_trouble() && leads {
                self.try_next(rt, steps, share, now);
            } else {
                let again = self.room.end_trials(rt, leads, now);
                self.take_again(rt, steps, share, again);
            }
        }
    }

    /// Lets in the next suspect's request, if it may.
    fn try_next<R: Wait + Clock, S: Steps>(
        &mut self,
        rt: &R,
        steps: &mut S,
        share: &mut Share,
        now: u64,
    )
        ensures { HasGrown share.old share.new }
    {
        if let Some(bytes) = self.room.next_trial(rt, now) {
            let _answer = self.bring_bytes(rt, steps, share, OWN, &bytes);
            self.room.wait_for_trial(rt);
        }
    }
}
