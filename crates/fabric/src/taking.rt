//! How a worker takes one frame.

ghost use Rattle.fabric.specs.Shares.{HasGrown};

use crate::arrived::Arrived;
use crate::questioned::{Copies, Questioned};
use crate::recording::Recording;
use crate::unfounded::Unfounded;
use crate::waiting::{Carried, Waiting};
use crate::worker::{Outgoing, Worker};
use crate::worth::Worth;
use admission::missing_of;
use bytes::Bytes;
use frames_view::{Frame, read};
use ids::{Config, Digest, Fault, Kind, ReplicaId};
use signed_frames::Out;
use std::sync::Wait;
use std::time::Clock;
use tuning::MOST_ASKED_FOR;
use turns::{Gate, Share, Steps, offer, turn};

/// For which block a step votes, if for one.
fn voted_for(config: &Config, out: &Out) -> Option<Digest> {
    let vote = out
        .sendings()
        .iter()
        .find(|sending| sending.kind == Kind::Vote)?;
    match read(config, &vote.frame) {
        Ok(Frame::Vote(vote)) => Some(Digest(*vote.digest())),
        _ => None,
    }
}

impl<'a, G: Gate, O: Outgoing + Questioned + Recording> Worker<'a, G, O> {
    /// The turn of one frame; where a tag isn't right, it is offered. What it sends goes out.
    pub(crate) fn bring<R: Wait + Clock, S: Steps>(
        &mut self,
        rt: &R,
        steps: &mut S,
        share: &mut Share,
        arrived: &Arrived<'_>,
    ) -> Result<Worth, Fault>
        ensures { HasGrown share.old share.new }
    {
        let keyring = self.keyring.verifying();
        let answer = turn(rt, steps, share, self.gate, keyring, &arrived.frame);
        match answer {
            Err(Fault::BadTag) => self.offer(rt, steps, share, arrived),
            answer => self.finish(rt, arrived, answer),
        }
    }

    /// The turn of the frame that these bytes are.
    pub(crate) fn bring_bytes<R: Wait + Clock, S: Steps>(
        &mut self,
        rt: &R,
        steps: &mut S,
        share: &mut Share,
        number: u64,
        bytes: &Bytes,
    ) -> Result<Worth, Fault>
        ensures { HasGrown share.old share.new }
    {
        match Arrived::new(&self.keyring.config(), number, bytes) {
            Some(arrived) => self.bring(rt, steps, share, &arrived),
            None => Err(Fault::NotAFrame),
        }
    }

    /// What a step sends goes out that a frame brought about, and the frame is recorded. A proposal of another view was in vain where
    /// it found no vote; one of the own view never: its leader may have to climb above what was voted for.
    fn finish<R: Wait>(
        &mut self,
        rt: &R,
        arrived: &Arrived<'_>,
        answer: Result<Out, Fault>,
    ) -> Result<Worth, Fault> {
        let out = answer?;
        let voted = voted_for(&self.keyring.config(), &out);
        let is_in_vain = voted.is_none() && self.is_elsewhere(arrived);
        self.send_all(rt, out);
        self.out.record(rt, arrived.frame(), arrived.bytes, voted);
        Ok(if is_in_vain {
            Worth::InVain
        } else {
            Worth::OfUse
        })
    }

    /// Offers a frame, if its own tag is right. What the step sends goes out.
    pub(crate) fn offer_once<R: Wait, S: Steps>(
        &mut self,
        rt: &R,
        steps: &mut S,
        share: &mut Share,
        arrived: &Arrived<'_>,
    ) -> Option<Result<Worth, Fault>>
        ensures { HasGrown share.old share.new }
    {
        let keyring = self.keyring.verifying();
        let answer = offer(rt, steps, share, keyring, &arrived.frame.read)?;
        Some(self.finish(rt, arrived, answer))
    }

    /// Offers a frame that was refused with `BadTag`: its own tag may be right, and only its certificate not good for this
    /// replica. What has no grounds waits for them.
    fn offer<R: Wait + Clock, S: Steps>(
        &mut self,
        rt: &R,
        steps: &mut S,
        share: &mut Share,
        arrived: &Arrived<'_>,
    ) -> Result<Worth, Fault>
        ensures { HasGrown share.old share.new }
    {
        let tried_at = self.room.news();
        let Some(brought) = self.offer_once(rt, steps, share, arrived) else {
            return Err(Fault::BadTag);
        };
        if self.is_of_view(arrived) {
            let keyring = self.keyring.verifying();
            self.out.doubted(rt, keyring, arrived.bytes.as_slice());
        } else {
            self.look_at_proposal(rt, arrived);
        }
        if brought != Err(Fault::BadTag) {
            return brought;
        }
        self.seek_grounds(rt, steps, share, arrived, tried_at)
    }

    /// A frame brings a block without grounds. A proposal waits for some, and all are asked for its block. A block that was
    /// asked for is kept, and taken where more senders than may be faulty sent it.
    fn seek_grounds<R: Wait + Clock, S: Steps>(
        &mut self,
        rt: &R,
        steps: &mut S,
        share: &mut Share,
        arrived: &Arrived<'_>,
        tried_at: u64,
    ) -> Result<Worth, Fault>
        ensures { HasGrown share.old share.new }
    {
        let Some((sender, _lacks)) = missing_of(&arrived.frame.read) else {
            return Err(Fault::BadTag);
        };
        let bytes = arrived.bytes.clone()?;
        match arrived.carried() {
            Carried::Proposal(block) => {
                self.need_from(rt, block, sender);
                let number = arrived.frame.number;
                self.room.wait_for_grounds(
                    rt,
                    Unfounded {
                        number,
                        bytes,
                        tried_at,
                    },
                );
                Err(Fault::BadTag)
            }
            Carried::Block(block) => match self.out.keep(rt, self.alloc, &block, sender, bytes) {
                Some(copies) => self.gather(rt, steps, share, copies),
                None => Err(Fault::BadTag),
            },
            Carried::Nothing => Err(Fault::BadTag),
        }
    }

    /// All are asked for a block of this sender's that has no grounds, and for those that wait above it: they may have none either
    /// when it comes, and one question behind another's answer brings less than leaders propose. Where the block was asked for
    /// before, these were, too. Who is far behind asks for that alone, at once: it asks for the others by what was recorded.
    fn need_from<R: Wait + Clock>(&self, rt: &R, block: Digest, sender: ReplicaId) {
        if self.out.wants(rt, &block) {
            return;
        }
        if self.out.reach().is_some() {
            let _full = self.out.need_now(rt, block, sender);
            return;
        }
        let mut next = Some(block);
        for _ in 0..MOST_ASKED_FOR {
            let Some(block) = next else {
                break;
            };
            self.out.need(rt, block, sender);
            next = self.room.above(rt, &block);
        }
    }

    /// Whether the replica takes others' copies, and tries nothing alone: it is far behind, or left out and a little behind.
    fn goes_by_copies(&self) -> bool {
        self.out.reach().is_some() || self.out.trails()
    }

    /// Whether a waiting frame brings a block that was asked for, by a replica that goes by copies.
    fn comes_by_copies<R: Wait>(&self, rt: &R, frame: &Waiting) -> bool {
        match frame.brings.block() {
            Some(block) if self.goes_by_copies() => self.out.wants(rt, &block),
            _ => false,
        }
    }

    /// Notes a block for whose sake frames wait. Where memory is refused they are lost, as on any network.
    fn note_known<R: Wait>(&self, rt: &R, known: &mut Vec<Digest>, block: Option<Digest>) {
        if let Some(block) = block {
            if known.push(block).is_err() {
                self.room.lose_for(rt, &block);
            }
        }
    }

    /// Brings what waited for this block, which the replica has by now: the copies of one above it; the frames that lack it; and
    /// what waited for a block that came so. Those for which memory is refused are lost, as on any network.
    pub(crate) fn release<R: Wait + Clock, S: Steps>(
        &mut self,
        rt: &R,
        steps: &mut S,
        share: &mut Share,
        block: Digest,
        copies: Option<Copies>,
    )
        ensures { HasGrown share.old share.new }
    {
        let mut known = Vec::new(self.alloc);
        let (mut latest, mut above) = (Some(block), copies);
        for _ in rt.forever() {
            if let Some(Copies { block, frames }) = above.take() {
                if self.take_copies(rt, steps, share, frames) {
                    self.note_known(rt, &mut known, latest);
                    latest = Some(block);
                    above = self.has_taken(rt, latest.as_ref());
                }
                continue;
            }
            let Some(block) = latest.take().or_else(|| known.pop()) else {
                break;
            };
            let Some(frame) = self.room.take_for(rt, &block) else {
                continue;
            };
            self.note_known(rt, &mut known, Some(block));
            if self.comes_by_copies(rt, &frame) {
                continue;
            }
            let brought = self.bring_bytes(rt, steps, share, frame.number, &frame.bytes);
            if brought.is_ok() {
                latest = frame.brings.block();
                above = self.has_taken(rt, latest.as_ref());
            }
        }
    }

    /// In trouble the parent of a block is asked for, first of who sent the block, then of all. Who is far behind asks for what
    /// others recorded.
    fn ask_below<R: Wait + Clock>(
        &self,
        rt: &R,
        block: &Digest,
        parent: Digest,
        sender: ReplicaId,
    ) {
        if self.out.in_trouble() && self.out.reach().is_none() {
            self.out.need_below(rt, block, parent, sender);
        }
    }

    /// Whether a frame is a proposal of the replica's view.
    fn is_of_view(&self, arrived: &Arrived<'_>) -> bool {
        arrived.proposed_in() == Some(self.out.view())
    }

    /// A proposal isn't taken yet: its certificate may not be good for the replica.
    fn look_at_proposal<R: Wait>(&self, rt: &R, arrived: &Arrived<'_>) {
        if arrived.proposed_in().is_some() {
            let (keyring, bytes) = (self.keyring.verifying(), arrived.bytes.as_slice());
            self.out
                .passed(rt, keyring, bytes, self.is_of_view(arrived));
        }
    }

    /// Takes a frame that was refused with `UnknownParent`. It waits, and who takes the block later finds it. Where
    /// the replica has another worker, that may have taken the block before the frame began to wait: so the frame
    /// is brought once more.
    fn take_later<R: Wait + Clock, S: Steps>(
        &mut self,
        rt: &R,
        steps: &mut S,
        share: &mut Share,
        arrived: &Arrived<'_>,
    )
        ensures { HasGrown share.old share.new }
    {
        let Some(frame) = Waiting::new(arrived) else {
            return;
        };
        let brings = frame.brings.block();
        self.look_at_proposal(rt, arrived);
        match &brings {
            Some(block) => self.ask_below(rt, block, frame.lacks, frame.sender),
            // Of an announcement the view counts at once.
            None => {
                let _seen = self.offer_once(rt, steps, share, arrived);
            }
        }
        self.room.wait(rt, frame);
        if !self.room.is_shared() {
            return;
        }
        let brought = self.bring(rt, steps, share, arrived);
        if brought == Err(Fault::UnknownParent) {
            return;
        }
        let _copy = self.room.take_number(rt, arrived.frame.number);
        if let (Ok(_), Some(block)) = (brought, brings) {
            let above = self.has_taken(rt, Some(&block));
            self.release(rt, steps, share, block, above);
        }
    }

    /// Whether a frame is a vote that comes too late: for the block of the certificate that this replica's last
    /// proposal has. A step would write it down and change nothing else, and so it may get lost, as on any network.
    /// Of each block's votes all but a quorum are such. In trouble a vote for a block below the newest is lost, too, and at
    /// any time one of a replica that is passed over: it may be right for this one alone.
    fn is_late<R: Wait>(&self, rt: &R, arrived: &Arrived<'_>) -> bool {
        if self.blocks.is_empty() {
            return false;
        }
        match arrived.frame() {
            Frame::Vote(vote) => {
                let block = Digest(*vote.digest());
                self.blocks.is_certified(&block)
                    || (self.out.in_trouble() && self.blocks.is_below(&block))
                    || self.out.passes_over(rt, vote.vote().voter())
            }
            _ => false,
        }
    }

    /// Takes a question for a block, unless who asks has just got it, or was given too many of late. What counts is what was
    /// taken: so nobody asks in another's name. None where the frame is no question.
    fn take_question<R: Wait + Clock, S: Steps>(
        &mut self,
        rt: &R,
        steps: &mut S,
        share: &mut Share,
        arrived: &Arrived<'_>,
    ) -> Option<Worth>
        ensures { HasGrown share.old share.new }
    {
        let (asker, block) = arrived.question()?;
        if !self.out.may_supply(rt, asker, &block) {
            return Some(Worth::OfUse);
        }
        if self.bring(rt, steps, share, arrived).is_err() {
            return Some(Worth::InVain);
        }
        self.out.supplied(rt, asker, &block);
        Some(Worth::OfUse)
    }

    /// Takes one frame. What is none gets lost.
    pub(crate) fn take<R: Wait + Clock, S: Steps>(
        &mut self,
        rt: &R,
        steps: &mut S,
        share: &mut Share,
        number: u64,
        bytes: &Bytes,
    ) -> Worth
        ensures { HasGrown share.old share.new }
    {
        match Arrived::new(&self.keyring.config(), number, bytes) {
            Some(arrived) => self.take_read(rt, steps, share, &arrived),
            None => Worth::InVain,
        }
    }

    /// Takes a frame that was read. Where it brings a block, what waited for that block comes next. What is lost
    /// unchecked cost nothing, and what waits for a block may be of use.
    fn take_read<R: Wait + Clock, S: Steps>(
        &mut self,
        rt: &R,
        steps: &mut S,
        share: &mut Share,
        arrived: &Arrived<'_>,
    ) -> Worth
        ensures { HasGrown share.old share.new }
    {
        if let Some(worth) = self.take_question(rt, steps, share, arrived) {
            return worth;
        }
        if self.is_out_of_reach(arrived)
            || self.is_late(rt, arrived)
            || !self.lets_in(rt, arrived)
        {
            return Worth::OfUse;
        }
        if let Some(worth) = self.take_copy(rt, steps, share, arrived) {
            return worth;
        }
        match self.bring(rt, steps, share, arrived) {
            Ok(worth) => {
                self.taken(rt, steps, share, arrived);
                worth
            }
            Err(Fault::UnknownParent) => {
                self.take_later(rt, steps, share, arrived);
                Worth::OfUse
            }
            Err(_) => Worth::InVain,
        }
    }

    /// A frame was taken. A request is kept. What waited for the block that it brings comes next.
    pub(crate) fn taken<R: Wait + Clock, S: Steps>(
        &mut self,
        rt: &R,
        steps: &mut S,
        share: &mut Share,
        arrived: &Arrived<'_>,
    )
        ensures { HasGrown share.old share.new }
    {
        self.keep_request(rt, arrived);
        if self.room.is_empty() && !self.asks() {
            self.room.has_news();
            return;
        }
        let block = arrived.carried().block();
        let above = self.has_taken(rt, block.as_ref());
        if let Some(block) = block {
            self.release(rt, steps, share, block, above);
        }
    }

    /// A frame was taken that brings this block, if any: it isn't asked for any more. The copies of a block that waited for it, if
    /// of one.
    pub(crate) fn has_taken<R: Wait + Clock>(
        &self,
        rt: &R,
        block: Option<&Digest>,
    ) -> Option<Copies> {
        self.room.has_news();
        if !self.asks() {
            return None;
        }
        let above = self.out.close(rt, self.alloc, block?);
        if self.out.reach().is_some() {
            self.need_ahead(rt);
        }
        above
    }

    /// Whether a frame is a proposal of another view than the replica's, and than the next: the view was seen at the last look.
    fn is_elsewhere(&self, arrived: &Arrived<'_>) -> bool {
        let own = self.out.view().0;
        match arrived.proposed_in() {
            Some(view) => view.0 < own || view.0 > own.saturating_add(1),
            None => false,
        }
    }

    /// Whether a frame is a proposal of an earlier view than the replica's: it finds no vote any more.
    fn is_past(&self, arrived: &Arrived<'_>) -> bool {
        match arrived.proposed_in() {
            Some(view) => view.0 < self.out.view().0,
            None => false,
        }
    }

    /// Offers a proposal once more that lacked grounds. Whether it waits on.
    fn offer_again<R: Wait + Clock, S: Steps>(
        &mut self,
        rt: &R,
        steps: &mut S,
        share: &mut Share,
        arrived: &Arrived<'_>,
    ) -> bool
        ensures { HasGrown share.old share.new }
    {
        match self.offer_once(rt, steps, share, arrived) {
            Some(Ok(_)) => self.taken(rt, steps, share, arrived),
            Some(Err(Fault::UnknownParent)) => self.take_later(rt, steps, share, arrived),
            Some(Err(Fault::BadTag)) => return !self.is_past(arrived),
            _ => {}
        }
        false
    }

    /// A proposal that lacked grounds is offered once more, where something came since that may give it some: not to a replica that
    /// takes others' copies.
    pub(crate) fn try_again<R: Wait + Clock, S: Steps>(
        &mut self,
        rt: &R,
        steps: &mut S,
        share: &mut Share,
    )
        ensures { HasGrown share.old share.new }
    {
        if self.goes_by_copies() {
            return;
        }
        let tried_at = self.room.news();
        let Some(Unfounded { number, bytes, .. }) = self.room.next_unfounded(rt) else {
            return;
        };
        let waits_on = match Arrived::new(&self.keyring.config(), number, &bytes) {
            Some(arrived) => self.offer_again(rt, steps, share, &arrived),
            None => false,
        };
        if waits_on {
            let frame = Unfounded {
                number,
                bytes,
                tried_at,
            };
            self.room.wait_for_grounds(rt, frame);
        }
    }
}
