//! What each worker thread does.

ghost use Rattle.fabric.specs.Shares.{HasGrown};

use crate::inbox::Inbox;
use crate::links::Links;
use crate::own::OwnFrames;
use crate::own_blocks::OwnBlocks;
use crate::parcel::Parcel;
use crate::questioned::Questioned;
use crate::queue::Question;
use crate::recording::Recording;
use crate::waiting::WaitingRoom;
use crate::worth::Worth;
use admission::Input;
use asking::Ask;
use authenticators::VerifyingKeyring;
use bytes::Bytes;
use frames_view::{Frame, read};
use ids::{Config, Digest, Fault, Height, Kind, ReplicaId, View};
use signed_frames::{Out, Sending, To, WorkerKeyring};
use std::alloc::Global;
use std::sync::Wait;
use std::time::Clock;
use suspicion::ReplicaSet;
use tuning::QUESTION_PACE;
use turns::{Gate, Prompt, Share, Steps};

/// A worker of a replica: it takes from the replica's link, sends by `out`, and has keys of its own, with which it
/// checks frames and asks for blocks, and can't say anything else in the replica's name.
#[derive(Drop)]
pub struct Worker<'a, G, O = Links> {
    pub(crate) alloc: Global,
    pub(crate) keyring: WorkerKeyring,
    pub(crate) gate: &'a G,
    inbox: &'a Inbox,
    pub(crate) out: &'a O,
    pub(crate) room: &'a WaitingRoom,
    /// What it proposed.
    pub(crate) blocks: OwnBlocks,
    /// What was sent to the replica itself, and isn't taken yet.
    pub(crate) own: OwnFrames,
}

/// What takes the frames that a replica sends to others, and is told of some that it refuses.
pub trait Outgoing {
    /// Sends a frame of a replica of the deployment where it goes, but not to that replica itself. One that can't be
    /// taken is lost, as on any network.
    fn send<R: Wait>(&self, rt: &R, from: ReplicaId, sending: Sending);

    /// Whether there is trouble around the replica: then its votes go to all.
    fn in_trouble(&self) -> bool {
        false
    }

    /// Whether the replica leads its view.
    fn leads(&self) -> bool {
        false
    }

    /// Whether a leader passes over a replica's votes: in a certificate they weren't right for it, or for others.
    fn passes_over<R: Wait>(&self, _rt: &R, _voter: ReplicaId) -> bool {
        false
    }

    /// Is told that votes of these weren't right for another replica in a leader's certificate.
    fn hear_doubt<R: Wait>(&self, _rt: &R, _from: ReplicaId, _voters: ReplicaSet) {}

    /// The replicas that told so of late: they have to count votes themselves.
    fn left_out(&self) -> ReplicaSet {
        ReplicaSet::none()
    }

    /// The view that the replica is in, as it was seen last.
    fn view(&self) -> View {
        View(0)
    }

    /// The milliseconds since some moment.
    fn millis<R: Clock>(&self, _rt: &R) -> u64 {
        0
    }

    /// Passes a client's request on to another replica, or to all others. They don't take it as the client's frame.
    fn pass_on<R: Wait>(&self, _rt: &R, _from: ReplicaId, _to: Option<ReplicaId>, _frame: Bytes) {}

    /// Is told of a proposal of the replica's view whose own tag is right for this keyring's replica, and whose certificate
    /// isn't good for it.
    fn doubted<R: Wait>(&self, _rt: &R, _keyring: &VerifyingKeyring, _bytes: &[u8]) {}

    /// Is told of another proposal that isn't taken yet, of the replica's view or of another one: its certificate may not be good for
    /// this keyring's replica either.
    fn passed<R: Wait>(
        &self,
        _rt: &R,
        _keyring: &VerifyingKeyring,
        _bytes: &[u8],
        _in_view: bool,
    ) {}
}

/// The number of a frame that a replica sends to itself or has kept: it goes over no link.
pub(crate) const OWN: u64 = 0;

/// A frame that the replica sent to itself.
fn own_parcel(bytes: Bytes) -> Parcel {
    Parcel::Frame {
        number: OWN,
        from: None,
        bytes,
    }
}

/// The links take them as they are.
impl Outgoing for Links {
    fn send<R: Wait>(&self, rt: &R, from: ReplicaId, sending: Sending) {
        let Sending { to, frame, .. } = sending;
        let Ok(bytes) = Bytes::from_vec(frame) else {
            self.lose();
            return;
        };
        if self.send_from(rt, from, to, bytes).is_err() {
            self.lose();
        }
    }

    fn pass_on<R: Wait>(&self, rt: &R, from: ReplicaId, to: Option<ReplicaId>, frame: Bytes) {
        if self.pass_request(rt, from, to, frame).is_err() {
            self.lose();
        }
    }
}

/// They keep no questions.
impl Questioned for Links {}

/// They keep no record.
impl Recording for Links {}

impl<'a, G: Gate, O: Outgoing + Questioned + Recording> Worker<'a, G, O> {
    /// A worker of the keyring's replica. The replica's workers share the room.
    pub fn new(
        alloc: Global,
        keyring: WorkerKeyring,
        gate: &'a G,
        inbox: &'a Inbox,
        out: &'a O,
        room: &'a WaitingRoom,
    ) -> Worker<'a, G, O> {
        Worker {
            alloc,
            keyring,
            gate,
            inbox,
            out,
            room,
            blocks: OwnBlocks::new(alloc),
            own: OwnFrames::new(alloc),
        }
    }

    /// Sends all frames of a step. What goes to the replica itself is its next parcel: over its link it would come
    /// behind the others' answers to it, which would lack its block.
    pub(crate) fn send_all<R: Wait>(&mut self, rt: &R, out: Out) {
        let own = self.keyring.replica();
        for sending in out.into_sendings() {
            self.note_reply(rt, &sending);
            if self.is_too_late(&sending) {
                continue;
            }
            let sending = self.aimed(sending);
            self.share_vote(rt, &sending);
            if sending.to == To::Replica(own) {
                self.keep(Bytes::from_vec(sending.frame).ok());
                continue;
            }
            if sending.to == To::All {
                let copy = Bytes::copy_from_slice(self.alloc, sending.frame.as_slice());
                self.keep(copy.ok());
            }
            self.out.send(rt, own, sending);
        }
    }

    /// A vote for a leader goes to those, too, that have to count votes themselves.
    fn share_vote<R: Wait>(&self, rt: &R, sending: &Sending) {
        let (Kind::Vote, To::Replica(leader)) = (sending.kind, sending.to) else {
            return;
        };
        let (own, left_out) = (self.keyring.replica(), self.out.left_out());
        for number in 0..self.keyring.config().n() {
            let to = ReplicaId(number);
            if left_out.has(to) && to != leader && to != own {
                self.send_vote(rt, to, sending.frame.as_slice());
            }
        }
    }

    /// Sends a vote to one more replica.
    fn send_vote<R: Wait>(&self, rt: &R, to: ReplicaId, vote: &[u8]) {
        if let Ok(frame) = Vec::from_slice(self.alloc, vote) {
            let sending = Sending {
                to: To::Replica(to),
                kind: Kind::Vote,
                frame,
            };
            self.out.send(rt, self.keyring.replica(), sending);
        }
    }

    /// Whether a frame is a vote or a reply of a replica that is far behind: others brought the block to its certificate, and
    /// answered.
    fn is_too_late(&self, sending: &Sending) -> bool {
        matches!(sending.kind, Kind::Vote | Kind::Reply) && self.out.reach().is_some()
    }

    /// Whether the replica asks for blocks that lack: in trouble, and where it is far behind.
    pub(crate) fn asks(&self) -> bool {
        self.out.in_trouble() || self.out.reach().is_some()
    }

    /// A frame as it is to be sent: in trouble votes go to all.
    fn aimed(&self, sending: Sending) -> Sending {
        let Sending { to, kind, frame } = sending;
        let goes_to_all = kind == Kind::Vote && self.out.in_trouble();
        Sending {
            to: if goes_to_all { To::All } else { to },
            kind,
            frame,
        }
    }

    /// Keeps what was sent to the replica itself. Where memory was refused it is lost, as on any network.
    fn keep(&mut self, frame: Option<Bytes>) {
        if let Some(bytes) = frame {
            let _refused = self.own.add(bytes);
        }
    }

    /// The next parcel of the replica's link. It is waited for where nothing is there that the replica sent to itself.
    fn next_of_link<R: Wait + Clock>(&mut self, rt: &R) -> Option<Parcel> {
        self.own.link_had_its_turn();
        if self.own.is_empty() {
            self.room.hold_back(rt);
            return Some(self.inbox.recv(rt));
        }
        self.inbox.try_recv(rt)
    }

    /// The next parcel: what the replica sent to itself goes before what comes over its link. But behind each such frame
    /// the link has its turn: a leader that proposes block on block has to hear that its view is over.
    fn next<R: Wait + Clock>(&mut self, rt: &R) -> Parcel {
        if let Some(bytes) = self.own.take() {
            return own_parcel(bytes);
        }
        if let Some(parcel) = self.next_of_link(rt) {
            return parcel;
        }
        match self.own.take() {
            Some(bytes) => own_parcel(bytes),
            None => self.inbox.recv(rt),
        }
    }

    /// Asks a replica for a block.
    fn ask_one<R: Wait>(&self, rt: &R, to: ReplicaId, block: &Digest) {
        if to == self.keyring.replica() || to.0 >= self.keyring.config().n() {
            return;
        }
        if let Ok(frame) = self.keyring.fetch_frame(self.alloc, to, block) {
            let sending = Sending {
                to: To::Replica(to),
                kind: Kind::Fetch,
                frame,
            };
            self.out.send(rt, self.keyring.replica(), sending);
        }
    }

    /// Asks for blocks that lack since a frame had no grounds, as far as questions are due.
    fn ask<R: Wait + Clock>(&self, rt: &R) {
        for _ in 0..QUESTION_PACE {
            let Some(
                Ask {
                    block,
                    to,
                    is_again,
                },
            ) = self.out.next(rt)
            else {
                break;
            };
            match to {
                Some(to) => self.ask_one(rt, to, &block),
                None => self.ask_all(rt, &block, is_again),
            }
        }
    }

    /// Asks all others for a block; the first time not those whose votes weren't right for it.
    fn ask_all<R: Wait>(&self, rt: &R, block: &Digest, is_again: bool) {
        for number in 0..self.keyring.config().n() {
            let to = ReplicaId(number);
            if is_again || !self.out.passes_over(rt, to) {
                self.ask_one(rt, to, block);
            }
        }
    }

    /// A parcel is done. Asks for the block that a waiting frame lacks, if it has waited long enough and the replica isn't far
    /// behind, and where it asks for those that lack since a frame had no grounds.
    fn end<R: Wait + Clock>(&self, rt: &R) {
        let question = (self.room.end(rt), self.out.reach());
        if let (Some(Question { sender, block }), None) = question {
            self.ask_one(rt, sender, &block);
        }
        if self.asks() {
            self.ask(rt);
        }
    }

    /// One step that no frame brings.
    pub(crate) fn step<R: Wait, S: Steps>(
        &mut self,
        rt: &R,
        steps: &mut S,
        share: &mut Share,
        input: Input<'_>,
    )
        ensures { HasGrown share.old share.new }
    {
        if let Ok(out) = steps.step(rt, share, input) {
            self.note_proposal(&out);
            self.send_all(rt, out);
        }
    }

    /// Notes a proposal that goes out; in trouble its block, too.
    fn note_proposal(&mut self, out: &Out) {
        let Some(sending) = out.sendings().first() else {
            return;
        };
        if let Ok(Frame::Proposal(view)) = read(&self.keyring.config(), &sending.frame) {
            let block = if self.out.in_trouble() {
                Some(view.core().digest())
            } else {
                None
            };
            self.blocks
                .propose(Digest(*view.certificate().digest()), block);
        }
    }

    /// Where the replica is in this view still, it leaves it.
    fn time_out<R: Wait, S: Steps>(&mut self, rt: &R, steps: &mut S, share: &mut Share, view: View)
        ensures { HasGrown share.old share.new }
    {
        if let Some(Ok(out)) = steps.prompt(rt, share, Prompt::Timeout(view)) {
            self.send_all(rt, out);
        }
    }

    /// Where the replica has something to propose, and nothing of it waits for votes, it proposes.
    fn propose<R: Wait, S: Steps>(&mut self, rt: &R, steps: &mut S, share: &mut Share)
        ensures { HasGrown share.old share.new }
    {
        if let Some(Ok(out)) = steps.prompt(rt, share, Prompt::Beat) {
            self.note_proposal(&out);
            self.send_all(rt, out);
        }
    }

    /// Takes what comes over the replica's link until it is told to stop. It gives the share back, with the steps
    /// that it made.
    pub fn run<R: Wait + Clock, S: Steps>(
        mut self,
        rt: &R,
        steps: &mut S,
        mut share: Share,
    ) -> Share
        ensures { HasGrown share result }
    {
        for _ in rt.forever() {
            let parcel = self.next(rt);
            self.room.begin();
            match parcel {
                Parcel::Frame {
                    number,
                    from,
                    bytes,
                } => {
                    let worth = self.take(rt, steps, &mut share, number, &bytes);
                    if let (Worth::InVain, Some(from)) = (worth, from) {
                        self.inbox.charge(rt, from, bytes.len());
                    }
                }
                Parcel::Passed { from, bytes } => self.hear(rt, steps, &mut share, from, bytes),
                Parcel::Doubted { from, voters } => self.out.hear_doubt(rt, from, voters),
                Parcel::Asked { from, question } => {
                    self.out.answer(rt, self.alloc, from, question);
                }
                Parcel::Answered { from, answer } => {
                    self.take_answer(rt, steps, &mut share, from, answer);
                }
                Parcel::CatchUp => self.out.catch_up(rt),
                Parcel::Beat => self.step(rt, steps, &mut share, Input::Beat),
                Parcel::Timeout(view) => self.time_out(rt, steps, &mut share, view),
                Parcel::Lead(base) => self.lead(rt, steps, &mut share, base),
                Parcel::Prune(height) => {
                    self.step(rt, steps, &mut share, Input::Prune(Height(height)));
                }
                Parcel::Stop => break,
            }
            self.try_again(rt, steps, &mut share);
            self.try_suspect(rt, steps, &mut share);
            self.propose(rt, steps, &mut share);
            self.end(rt);
        }
        share
    }
}
