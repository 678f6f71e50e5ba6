//! How a worker takes what another replica recorded.

ghost use Rattle.fabric.specs.Shares.{HasGrown};

use crate::arrived::Arrived;
use crate::parcel::Answer;
use crate::questioned::Questioned;
use crate::recording::Recording;
use crate::worker::{OWN, Outgoing, Worker};
use admission::missing_of;
use bytes::Bytes;
use frames_view::Frame;
use ids::{Fault, Height, ReplicaId};
use std::collections::VecDeque;
use std::sync::Wait;
use std::time::Clock;
use tuning::MOST_ASKED_AHEAD;
use turns::{Gate, Share, Steps};

impl<'a, G: Gate, O: Outgoing + Questioned + Recording> Worker<'a, G, O> {
    /// Whether a frame is of no use to a replica that is far behind, so that it may get lost, as on any network: a block so
    /// high that what it stands on won't come soon; a vote or a request, which others need; or an announcement. It comes to the
    /// others' view once it has their blocks.
    pub(crate) fn is_out_of_reach(&self, arrived: &Arrived<'_>) -> bool {
        let Some(reach) = self.out.reach() else {
            return self.is_no_help(arrived);
        };
        match arrived.frame() {
            Frame::Proposal(proposal) => proposal.core().height().0 > reach.0,
            Frame::Block(block) => block.core().height().0 > reach.0,
            Frame::Vote(_) | Frame::NewView(_) | Frame::Request(_) => true,
            _ => false,
        }
    }

    /// Whether a frame is a vote that comes to one which is left out and a little behind, and doesn't lead: copies bring it on.
    fn is_no_help(&self, arrived: &Arrived<'_>) -> bool {
        matches!(arrived.frame(), Frame::Vote(_)) && self.out.trails() && !self.out.leads()
    }

    /// Takes what another replica answered, where this one was asked and the answer is awaited. Announcements come where there
    /// is nothing more, and where a frame lacks a block: one of a later view may stand higher than this one lets in.
    pub(crate) fn take_answer<R: Wait + Clock, S: Steps>(
        &mut self,
        rt: &R,
        steps: &mut S,
        share: &mut Share,
        from: ReplicaId,
        answer: Answer,
    )
        ensures { HasGrown share.old share.new }
    {
        let Answer {
            question,
            frames,
            announced,
            is_last,
        } = answer;
        if from != question.to || !self.out.awaits(rt, &question) {
            return;
        }
        let is_whole = self.take_recorded(rt, steps, share, from, frames);
        if is_last || !is_whole {
            self.take_announced(rt, steps, share, announced);
        }
        self.out.answered(rt, &question);
    }

    /// Takes frames that a replica recorded, up to the first that lacks a block. Whether none did. Where this replica couldn't take
    /// some of them by their frames, others may have their blocks: then it asks for all that it lacks.
    fn take_recorded<R: Wait + Clock, S: Steps>(
        &mut self,
        rt: &R,
        steps: &mut S,
        share: &mut Share,
        giver: ReplicaId,
        frames: Vec<Bytes>,
    ) -> bool
        ensures { HasGrown share.old share.new }
    {
        let config = self.keyring.config();
        let mut is_one_out = false;
        for bytes in &frames {
            let Some(arrived) = Arrived::new(&config, OWN, bytes) else {
                continue;
            };
            match self.bring_recorded(rt, steps, share, &arrived) {
                Err(Fault::UnknownParent) => {
                    if is_one_out {
                        self.out.forget(rt, giver);
                    }
                    self.need_parent(rt, giver, &arrived);
                    if is_one_out {
                        self.need_blocks(rt, giver, &frames, arrived.height());
                    }
                    return false;
                }
                Err(Fault::BadTag | Fault::WrongJustify | Fault::Crowded) => is_one_out = true,
                _ => {}
            }
        }
        true
    }

    /// The turn of a frame that a replica recorded.
    fn bring_recorded<R: Wait + Clock, S: Steps>(
        &mut self,
        rt: &R,
        steps: &mut S,
        share: &mut Share,
        arrived: &Arrived<'_>,
    ) -> Result<(), Fault>
        ensures { HasGrown share.old share.new }
    {
        self.bring(rt, steps, share, arrived)?;
        self.taken(rt, steps, share, arrived);
        Ok(())
    }

    /// All are asked for the blocks of frames from a height on, on the account of who gave them: now as far as that has room, then
    /// as others come.
    fn need_blocks<R: Wait + Clock>(
        &self,
        rt: &R,
        giver: ReplicaId,
        frames: &[Bytes],
        from: Height,
    ) {
        let config = self.keyring.config();
        let mut blocks = VecDeque::new(self.alloc);
        for bytes in frames {
            let Some(arrived) = Arrived::new(&config, OWN, bytes) else {
                continue;
            };
            if arrived.height().0 < from.0 {
                continue;
            }
            if let Some(block) = arrived.carried().block() {
                let _refused = blocks.push_back(block);
            }
        }
        self.room.ask_next(rt, giver, blocks);
        self.need_ahead(rt);
    }

    /// All are asked for the blocks that come next, as far as the account of who gave their frames has room.
    pub(crate) fn need_ahead<R: Wait + Clock>(&self, rt: &R) {
        for _ in 0..MOST_ASKED_AHEAD {
            let Some((giver, block)) = self.room.next_ahead(rt) else {
                break;
            };
            if !self.out.need_ahead(rt, block, giver) {
                self.room.put_back(rt, giver, block);
                break;
            }
        }
    }

    /// All are asked for the block that a frame lacks, on the account of who gave the frame.
    fn need_parent<R: Wait + Clock>(&self, rt: &R, giver: ReplicaId, arrived: &Arrived<'_>) {
        if let Some((_sender, lacks)) = missing_of(&arrived.frame.read) {
            let _full = self.out.need_now(rt, lacks, giver);
        }
    }

    /// Takes announcements. Of one that lacks its block the view counts.
    fn take_announced<R: Wait + Clock, S: Steps>(
        &mut self,
        rt: &R,
        steps: &mut S,
        share: &mut Share,
        announced: Vec<Bytes>,
    )
        ensures { HasGrown share.old share.new }
    {
        let config = self.keyring.config();
        for bytes in &announced {
            if let Some(arrived) = Arrived::new(&config, OWN, bytes) {
                self.take_announcement(rt, steps, share, &arrived);
            }
        }
    }

    /// Takes an announcement.
    fn take_announcement<R: Wait + Clock, S: Steps>(
        &mut self,
        rt: &R,
        steps: &mut S,
        share: &mut Share,
        arrived: &Arrived<'_>,
    )
        ensures { HasGrown share.old share.new }
    {
        if self.bring(rt, steps, share, arrived) == Err(Fault::UnknownParent) {
            let _seen = self.offer_once(rt, steps, share, arrived);
        }
    }
}
