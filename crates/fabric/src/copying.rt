//! How a worker takes copies of one block.

ghost use Rattle.fabric.specs.Shares.{HasGrown};

use crate::arrived::Arrived;
use crate::questioned::{CopyUse, Questioned};
use crate::recording::Recording;
use crate::waiting::Carried;
use crate::worker::{OWN, Outgoing, Worker};
use crate::worth::Worth;
use admission::{admit_offer_read, missing_of};
use bytes::Bytes;
use ids::Fault;
use signed_frames::Out;
use std::alloc::{AllocError, Global};
use std::sync::Wait;
use std::time::Clock;
use turns::{Gate, Share, Steps, gather};

/// The bytes of frames.
fn slices<'b>(alloc: Global, frames: &'b [Bytes]) -> Result<Vec<&'b [u8]>, AllocError> {
    let mut slices = Vec::new(alloc);
    for frame in frames {
        slices.push(frame.as_slice())?;
    }
    Ok(slices)
}

impl<'a, G: Gate, O: Outgoing + Questioned + Recording> Worker<'a, G, O> {
    /// Copies of one block come together.
    pub(crate) fn gather<R: Wait, S: Steps>(
        &mut self,
        rt: &R,
        steps: &mut S,
        share: &mut Share,
        copies: Vec<Bytes>,
    ) -> Result<Worth, Fault>
        ensures { HasGrown share.old share.new }
    {
        let frames = slices(self.alloc, &copies)?;
        let out: Out = gather(rt, steps, share, self.keyring.verifying(), &frames)?;
        self.send_all(rt, out);
        Ok(Worth::OfUse)
    }

    /// Takes a copy of a block that was asked for, where it is to come together with others' or is of no use any more. Only its own
    /// tag is tested then. None where it is taken as any frame.
    pub(crate) fn take_copy<R: Wait + Clock, S: Steps>(
        &mut self,
        rt: &R,
        steps: &mut S,
        share: &mut Share,
        arrived: &Arrived<'_>,
    ) -> Option<Worth>
        ensures { HasGrown share.old share.new }
    {
        let Carried::Block(block) = arrived.carried() else {
            return None;
        };
        let (sender, parent) = missing_of(&arrived.frame.read)?;
        match self.out.use_of(rt, &block, &parent, arrived.bytes.len()) {
            CopyUse::Alone => return None,
            CopyUse::Nothing => return Some(Worth::OfUse),
            CopyUse::Together => {}
        }
        if admit_offer_read(self.keyring.verifying(), &arrived.frame.read).is_err() {
            return Some(Worth::InVain);
        }
        let copy = arrived.bytes.clone().ok()?;
        let copies = self
            .out
            .keep_copy(rt, self.alloc, &block, parent, sender, copy);
        if let Some(copies) = copies {
            if self.gather(rt, steps, share, copies).is_ok() {
                let above = self.has_taken(rt, Some(&block));
                self.release(rt, steps, share, block, above);
            }
        }
        Some(Worth::OfUse)
    }

    /// Takes the copies of a block that waited for the one below it: together, where more senders sent them than may be faulty; else
    /// the first that is good alone. Whether the block was taken.
    pub(crate) fn take_copies<R: Wait + Clock, S: Steps>(
        &mut self,
        rt: &R,
        steps: &mut S,
        share: &mut Share,
        copies: Vec<Bytes>,
    ) -> bool
        ensures { HasGrown share.old share.new }
    {
        if copies.len() > usize::from(self.keyring.config().faults()) {
            return self.gather(rt, steps, share, copies).is_ok();
        }
        for bytes in &copies {
            if self.bring_bytes(rt, steps, share, OWN, bytes).is_ok() {
                return true;
            }
        }
        false
    }
}
