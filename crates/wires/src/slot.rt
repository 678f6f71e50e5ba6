//! What there is of one peer: the frames that wait for it, and its connection.

ghost use Rattle.std.specs.Prelude.{◌≡◌, ◌&&◌, ◌++◌, [], ◌∷◌, IfSome, OnOk, OnErr, MatchBool, Some, None, nat_eq, nat_lt, not, true};
ghost use Rattle.std.specs.Arc.{arc_value};
ghost use Rattle.std.specs.Option.{ForSome};
ghost use Rattle.outbox.specs.Waiting.{counted};
ghost use Rattle.wires.specs.Barring.{bar_after};

use crate::bar::Bar;
use crate::end::End;
use crate::link::{Link, settle};
use crate::wires::Wires;
use bytes::Bytes;
use handshake::{Life, Peer};
use ids::PartyId;
use outbox::{Outbox, Refusal};
use std::alloc::Global;
use std::net::{SocketAddr, TcpStream};
use std::sync::{Arc, Condvar, Mutex, Wait};
use std::time::{Clock, Duration};

/// What one end of a link knows of the other before they meet.
#[derive(Clone, Copy)]
pub struct PeerTerms {
    pub party: PartyId,
    /// Where it is dialled, if it is this end that dials. Connections from there have places of their own at the door.
    pub address: Option<SocketAddr>,
    /// What the frames that wait for it may cost (`outbox`).
    pub backlog: usize,
    /// Whether frames wait for it while it is away. Where they don't, they are lost.
    pub is_kept: bool,
}

/// What lies under a slot's lock. Its link, if it has one, is one of the party that it is kept for, and the latest one.
/// Once all is told to end there is none.
#[derive(Drop)]
struct Inside {
    party: PartyId,
    outbox: Outbox,
    link: Option<Arc<Link>>,
    bar: Bar,
    /// The life in which the party was met, where it is a replica: it is met in no other.
    life: Option<Life>,
    /// How many links there were.
    links: u64,
    is_over: bool,
    /// Whether the writer sleeps, and nobody has rung for it since.
    writer_sleeps: bool,
    ghost own: { ForSome link (λ link. (arc_value link).peer.party ≡ party) },
    ghost latest: { ForSome link (λ link. (arc_value link).number ≡ links) },
    ghost ended: { is_over ≡ true → link ≡ None },
}

/// A place for one peer. Threads share it by reference: a reader, a writer, who sends, and who lets connections in.
#[derive(Drop)]
pub(crate) struct Slot {
    terms: PeerTerms,
    inside: Mutex<Inside>,
    /// Rung where there is something to write, or to write to.
    to_write: Condvar,
    /// Rung where there is a connection to read.
    to_read: Condvar,
}

impl Inside {
    /// Whether the writer has something to do.
    fn has_turn(&self) -> bool {
        self.is_over || (self.link.is_some() && !self.outbox.is_empty())
    }

    /// The present link, if it is a later one than that.
    fn later_link(&self, number: u64) -> Option<Arc<Link>>
        ensures { IfSome result (λ link. (arc_value link).peer.party ≡ self.now.party) }
    {
        let link = self.link.as_ref()?;
        if link.number <= number {
            return None;
        }
        Arc::try_clone(link).ok()
    }

    /// Ends the present link, if there is one.
    fn drop_link(&mut self)
        ensures gone { self.new.link ≡ None }
        ensures outbox { self.new.outbox ≡ self.old.outbox }
        ensures bar { self.new.bar ≡ self.old.bar }
        ensures party { self.new.party ≡ self.old.party }
        ensures over { self.new.is_over ≡ self.old.is_over }
    {
        if let Some(link) = self.link.take() {
            link.end();
        }
    }

    /// The frame waits, or is lost and counted. Whether the writer is to be woken.
    fn put(&mut self, frame: Bytes) -> Result<bool, Refusal>
        ensures kept { OnOk result (self.new.outbox
            ≡ record self.old.outbox { frames = self.old.outbox.frames ++ frame ∷ [] }) }
        ensures lost { OnErr result (self.new.outbox
            ≡ record self.old.outbox { lost = counted self.old.outbox.lost 1 }) }
    {
        self.outbox.put(frame)?;
        let wakes = self.writer_sleeps && self.link.is_some();
        if wakes {
            self.writer_sleeps = false;
        }
        Ok(wakes)
    }

    /// A connection is the link now, and a former one ends. False, and nothing changes, where all is told to end, where
    /// the connection is another party's, and while the party stays out.
    fn take_link(&mut self, link: Arc<Link>, now: u64) -> bool
        ensures is { result ≡ (not self.old.is_over && nat_eq (arc_value link).peer.party self.old.party
            && not (nat_lt now self.old.bar.until)) }
        ensures taken { MatchBool result (self.new.link ≡ Some link) (self.new ≡ self.old) }
        ensures outbox { MatchBool result (self.new.outbox ≡ record self.old.outbox { is_open = true })
            (self.new.outbox ≡ self.old.outbox) }
        ensures bar { self.new.bar ≡ self.old.bar }
    {
        if self.is_over || link.peer.party() != self.party || self.bar.is_on(now) {
            return false;
        }
        self.drop_link();
        self.links = link.number;
        self.outbox.reopen();
        self.link = Some(link);
        true
    }

    /// Whether the party may be met in this life. A replica in another one than before came back without its memory, or is
    /// there twice.
    fn may_be_met(&self, life: Life) -> bool {
        match self.life {
            Some(known) => known == life,
            None => true,
        }
    }

    /// The party was met in this life.
    fn note_life(&mut self, life: Life)
        ensures { self.new ≡ record self.old { life = self.new.life } }
    {
        if self.party.client().is_none() {
            self.life = Some(life);
        }
    }

    /// A connection of the party ended so, at this moment.
    fn note_end(&mut self, end: End, now: u64)
        ensures { self.new ≡ record self.old { bar = bar_after self.old.bar end now } }
    {
        self.bar = self.bar.after(end, now);
    }
}

impl Slot {
    /// A place for this peer, who isn't there yet. It stays out for so many milliseconds where it tells a length that no
    /// item has, the first time.
    pub(crate) fn new(alloc: Global, terms: PeerTerms, bar: u64) -> Slot {
        let mut outbox = Outbox::new(alloc, terms.backlog);
        if !terms.is_kept {
            outbox.close();
        }
        Slot {
            terms,
            inside: Mutex::new(Inside {
                party: terms.party,
                outbox,
                link: None,
                bar: Bar::none(bar),
                life: None,
                links: 0,
                is_over: false,
                writer_sleeps: false,
            }),
            to_write: Condvar::new(),
            to_read: Condvar::new(),
        }
    }

    /// What was known before.
    pub(crate) fn terms(&self) -> &PeerTerms {
        &self.terms
    }

    /// A frame waits for the peer, or is lost. It waits for nobody but those that use this slot just then.
    pub(crate) fn put<R: Wait>(&self, rt: &R, frame: Bytes) -> Result<(), Refusal> {
        let wakes = self.inside.lock(rt).put(frame)?;
        if wakes {
            self.to_write.notify_one();
        }
        Ok(())
    }

    /// How many frames for the peer were lost.
    pub(crate) fn lost<R: Wait>(&self, rt: &R) -> u64 {
        self.inside.lock(rt).outbox.lost()
    }

    /// Whether there is a connection.
    pub(crate) fn is_linked<R: Wait>(&self, rt: &R) -> bool {
        self.inside.lock(rt).link.is_some()
    }

    /// A handshake named this peer: the connection is its link now, and a former one ends. False where that can't be, and where
    /// it is a replica in a second life.
    pub(crate) fn enter<R: Wait + Clock + AllocGlobal>(
        &self,
        rt: &R,
        wires: &Wires,
        peer: Peer,
        stream: TcpStream,
    ) -> bool {
        if !settle(&stream, &wires.pace) {
            return false;
        }
        let (now, life) = (wires.millis(rt), peer.life());
        let mut inside = self.inside.lock(rt);
        if !inside.may_be_met(life) {
            wires.note_other_life(self.terms.party);
            return false;
        }
        let number = inside.links.saturating_add(1);
        let Ok(link) = Arc::new(rt.alloc(), Link::new(number, peer, stream)) else {
            return false;
        };
        let is_in = inside.take_link(link, now);
        if is_in {
            inside.note_life(life);
        }
        drop(inside);
        if is_in {
            self.ring();
        }
        is_in
    }

    /// A connection of the peer ended so, at this moment.
    pub(crate) fn note_end<R: Wait>(&self, rt: &R, end: End, now: u64) {
        self.inside.lock(rt).note_end(end, now);
    }

    /// For how long the peer stays out yet.
    pub(crate) fn barred_for<R: Wait>(&self, rt: &R, now: u64) -> Duration {
        Duration::from_millis(self.inside.lock(rt).bar.left(now))
    }

    /// A link has ended. Where it is the present one, there is none.
    pub(crate) fn leave<R: Wait>(&self, rt: &R, link: &Link) {
        link.end();
        let mut inside = self.inside.lock(rt);
        if inside.links != link.number {
            return;
        }
        inside.drop_link();
        if !self.terms.is_kept {
            inside.outbox.close();
        }
    }

    /// Both threads look again.
    fn ring(&self) {
        self.to_write.notify_all();
        self.to_read.notify_all();
    }

    /// Ends the peer's threads, and its link.
    pub(crate) fn close<R: Wait>(&self, rt: &R) {
        let mut inside = self.inside.lock(rt);
        inside.drop_link();
        inside.is_over = true;
        drop(inside);
        self.ring();
    }

    /// Waits for a link that comes later than that one. None where it is told to end.
    pub(crate) fn next_link<R: Wait>(&self, rt: &R, number: u64) -> Option<Arc<Link>> {
        let mut inside = self.inside.lock(rt);
        for _ in rt.forever() {
            if inside.is_over {
                break;
            }
            if let Some(link) = inside.later_link(number) {
                return Some(link);
            }
            inside = self.to_read.wait(rt, inside);
        }
        None
    }

    /// Waits so long. False where it is told to end.
    pub(crate) fn pause<R: Wait + Clock>(&self, rt: &R, pause: Duration) -> bool {
        let inside = self.inside.lock(rt);
        if inside.is_over {
            return false;
        }
        if pause.is_zero() {
            return true;
        }
        let (inside, _) = self.to_read.wait_timeout(rt, inside, pause);
        !inside.is_over
    }

    /// Waits until there is a link and something to write: frames, which are put into the batch; or none where nothing
    /// was written for so long, so that a ping is due. None where it is told to end.
    pub(crate) fn next_turn<R: Wait + Clock>(
        &self,
        rt: &R,
        ping: Duration,
        most: usize,
        batch: &mut Vec<Bytes>,
    ) -> Option<Arc<Link>> {
        let mut is_due = false;
        let mut inside = self.inside.lock(rt);
        for _ in rt.forever() {
            if inside.is_over {
                break;
            }
            if is_due || inside.has_turn() {
                if let Some(link) = inside.later_link(0) {
                    let _ = inside.outbox.take(most, batch);
                    return Some(link);
                }
            }
            inside.writer_sleeps = true;
            if inside.link.is_some() {
                let (woken, waited) = self.to_write.wait_timeout(rt, inside, ping);
                inside = woken;
                is_due = waited.timed_out();
            } else {
                inside = self.to_write.wait(rt, inside);
            }
            inside.writer_sleeps = false;
        }
        None
    }
}
