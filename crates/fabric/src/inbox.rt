//! Where the parcels of one replica's link wait.

ghost use Rattle.std.specs.Prelude.{◌≡◌, ◌+◌, ◌-◌, ◌/◌, ◌^◌, ◌<◌, ◌≤◌, ◌⊎◌, ◌==◌, ◌&&◌, ◌||◌, ℕ, false, true, is_some, length};
ghost use Rattle.std.specs.Prelude.{IfNone, IfOk, IfSome, MatchBool, MatchOption, OnErr, OnOk, OnSome, Some, map, min, nat_le, nat_lt, option_map};
ghost use Rattle.std.specs.Prelude.{◌*◌, set, slice_get};
ghost use Rattle.std.specs.Prelude.{if◌then◌else◌};
ghost use Rattle.std.specs.Bool.{OnFalse, OnTrue};
ghost use Rattle.std.specs.Option.{ForSome};
ghost use Rattle.fair_queue.specs.Queues.{IsNext, NoneReady, Puts, Takes, charged, ready_at, refilled, waiting_in};
ghost use Rattle.tuning.specs.declared.links.TheConstants.{LINK_SHARE_BYTES, REFILL_BYTES, REFILL_FRAMES, VAIN_WEIGHT};
ghost use Rattle.ids.specs.Sizes.{replicas};
ghost use Rattle.fabric.specs.Inboxes.{count_of, is_over};
ghost use Rattle.fabric.specs.Parcels.{size_of};

use crate::parcel::{Answer, Base, Parcel};
use crate::rows::{Row, Sender, answer_row, clock_row, replica_row, request_row, row_count};
use bytes::Bytes;
use fair_queue::{Allowance, FairQueue, Refusal};
use ids::{Config, Height, ReplicaId, View};
use std::alloc::{AllocError, Global};
use std::hint::spin_loop;
use std::sync::atomic::AtomicU64;
use std::sync::atomic::Ordering::SeqCst;
use std::sync::{Condvar, Mutex, MutexGuard, Wait};
use std::time::{Clock, Duration, Instant};
use tuning::{LINK_SHARE_BYTES, LOOKS, REFILL_BYTES, REFILL_FRAMES, REFILL_MILLIS, VAIN_WEIGHT};

/// A parcel that waits.
#[derive(Drop)]
struct Handed {
    is_request: bool,
    parcel: Parcel,
}

/// What waits, and for what the workers wait.
#[derive(Drop)]
struct Inside {
    queue: FairQueue<Handed>,
    /// How many parcels wait.
    waiting: usize,
    /// How many frames were handed in.
    numbered: u64,
    /// How many parcels are to be taken before the workers end. None while they go on.
    before_stop: Option<usize>,
    ghost counted: { waiting ≡ count_of queue },
    ghost still_wait: { ForSome before_stop (λ before. before ≤ waiting) },
    /// When each sender was allowed its part again. None before that, and where the clock can't be read.
    refilled: Option<Instant>,
    /// How many workers sleep until the next time.
    timed: usize,
    /// How many workers sleep.
    asleep: usize,
    /// For how many of them was rung since, and they aren't back yet.
    rung: usize,
}

impl Inside {
    /// The number of the next frame.
    fn next_number(&mut self) -> u64
        ensures number { result ≡ min (self.old.numbered + 1) (2 ^ 64 - 1) }
        ensures kept { self.new.numbered ≡ result }
        ensures queue { self.new.queue ≡ self.old.queue }
    {
        self.numbered = self.numbered.saturating_add(1);
        self.numbered
    }

    /// A parcel more waits. Whether a sleeping worker is to look at it: it may be taken, or it is the first that
    /// waits for the next time.
    #[tactic(auto, using(crate::proofs::Counting::one_more))]
    fn add(&mut self, row: Row, parcel: Parcel) -> Result<bool, Refusal>
        ensures put { OnOk result (Puts self.old.queue row.number (size_of parcel)
            (record { is_request = row.is_request; parcel = parcel }) self.new.queue) }
        ensures wakes { IfOk result (λ wakes.
            wakes ≡ (count_of self.old.queue == 0 || ready_at self.new.queue.rows row.number)) }
        ensures unchanged { OnErr result (self.new ≡ self.old) }
        ensures room { row.number < length self.old.queue.rows → count_of self.old.queue < 2 ^ 64 - 1
            → waiting_in self.old.queue.rows row.number + size_of parcel ≤ LINK_SHARE_BYTES
            → OnErr result (result ≡ Err Refusal.Memory) }
    {
        if row.number >= self.queue.rows() {
            return Err(Refusal::Full);
        }
        let Some(waiting) = self.waiting.checked_add(1) else {
            return Err(Refusal::Full);
        };
        let (number, size, is_request) = (row.number, parcel.size(), row.is_request);
        self.queue.put(number, size, Handed { is_request, parcel })?;
        self.waiting = waiting;
        Ok(waiting == 1 || self.queue.is_ready_at(number))
    }

    /// Whether a row is no more than half full.
    fn has_room(&self, row: usize) -> bool
        ensures { result ≡ nat_le (waiting_in self.now.queue.rows row) (LINK_SHARE_BYTES / 2) }
    {
        self.queue.waiting_in(row) <= LINK_SHARE_BYTES / 2
    }

    /// Whether who asks next is told to end.
    fn is_over(&self) -> bool
        ensures { result ≡ is_over self.now.before_stop }
    {
        self.before_stop == Some(0)
    }

    /// Takes the parcel whose turn it is. Once all was taken that was handed in before the workers were told to
    /// end, it is a stop, for each worker that asks.
    #[tactic(auto, using(crate::proofs::Counting::one_less))]
    fn next(&mut self) -> Option<Handed>
        ensures taken { MatchBool (is_over self.old.before_stop)
            ((result ≡ Some (record { is_request = false; parcel = Parcel.Stop })) × (self.new ≡ self.old))
            (IfSome result (λ handed. Takes self.old.queue handed self.new.queue)) }
        ensures none { IfNone result ((self.new ≡ self.old) × NoneReady self.old.queue) }
        ensures left { OnSome result
            (self.new.before_stop ≡ option_map (λ before. before - 1) self.old.before_stop) }
    {
        if self.is_over() {
            return Some(Handed {
                is_request: false,
                parcel: Parcel::Stop,
            });
        }
        let handed = self.queue.take()?;
        self.waiting -= 1;
        self.before_stop = self.before_stop.map(|before| before.saturating_sub(1));
        Some(handed)
    }

    /// The workers are to end once all was taken that waits now.
    fn stop(&mut self)
        ensures before { self.new.before_stop ≡ Some (count_of self.old.queue) }
        ensures queue { self.new.queue ≡ self.old.queue }
    {
        self.before_stop = Some(self.waiting);
    }

    /// Whether something can be taken.
    fn has_next(&self) -> bool
        ensures some { OnTrue result ((is_over self.now.before_stop ≡ true)
            ⊎ ((number : ℕ) × (place : ℕ) × IsNext self.now.queue number place)) }
        ensures none { OnFalse result ((is_over self.now.before_stop ≡ false) × NoneReady self.now.queue) }
    {
        self.is_over() || self.queue.is_ready()
    }

    /// Whether another worker has something to do or to wait for.
    fn leaves_more(&self) -> bool
        ensures { result ≡ (is_some self.now.before_stop
            || (nat_lt 0 (count_of self.now.queue) && self.now.timed == 0)) }
    {
        self.before_stop.is_some() || (self.waiting > 0 && self.timed == 0)
    }

    /// Whether a worker sleeps for which nobody has rung. Now somebody does.
    fn rings(&mut self) -> bool
        ensures rings { result ≡ nat_lt self.old.rung self.old.asleep }
        ensures rung { self.new.rung ≡ (if result then self.old.rung + 1 else self.old.rung) }
        ensures others { self.new ≡ record self.old { rung = self.new.rung } }
    {
        if self.rung >= self.asleep {
            return false;
        }
        self.rung += 1;
        true
    }

    /// A worker falls asleep.
    fn falls_asleep(&mut self)
        ensures { self.new ≡ record self.old { asleep = min (self.old.asleep + 1) (2 ^ 64 - 1) } }
    {
        self.asleep = self.asleep.saturating_add(1);
    }

    /// A worker that slept is back, whether somebody rang for it or not.
    fn is_back(&mut self)
        ensures { self.new
            ≡ record self.old { asleep = self.old.asleep - 1; rung = self.old.rung - 1 } }
    {
        self.asleep = self.asleep.saturating_sub(1);
        self.rung = self.rung.saturating_sub(1);
    }

    /// A frame of so many bytes came from this row in vain: it counts as `VAIN_WEIGHT`, of which it was one when it was taken.
    fn charge(&mut self, row: usize, bytes: usize)
        ensures charged { MatchOption (slice_get self.old.queue.rows row) (self.new.queue ≡ self.old.queue)
            (λ one. self.new.queue ≡ record self.old.queue {
              rows = set self.old.queue.rows row
                  (charged (VAIN_WEIGHT - 1) (min (bytes * (VAIN_WEIGHT - 1)) (2 ^ 64 - 1)) one);
            }) }
        ensures numbered { self.new.numbered ≡ self.old.numbered }
        ensures before_stop { self.new.before_stop ≡ self.old.before_stop }
    {
        let more = VAIN_WEIGHT - 1;
        self.queue.charge(row, more, bytes.saturating_mul(more));
    }

    /// Each sender is allowed its part again.
    fn refill(&mut self, now: Option<Instant>)
        ensures { self.new.queue.rows ≡ map (refilled self.old.queue.allowed) self.old.queue.rows }
    {
        self.queue.refill();
        self.refilled = now;
    }
}

/// What each sender is allowed: of what all replicas together are, the same part for each. So what a faulty one can
/// have checked by all others together doesn't grow with their number.
fn allowance(config: Config) -> Allowance
    ensures count { result.count ≡ REFILL_FRAMES / replicas config }
    ensures size { result.size ≡ REFILL_BYTES / replicas config }
{
    let replicas = usize::from(config.n());
    Allowance {
        count: REFILL_FRAMES / replicas,
        size: REFILL_BYTES / replicas,
    }
}

/// How long it is until each sender is allowed its part again. None where the time has come, and where the clock
/// can't be read.
fn until_refill<R: Clock>(rt: &R, refilled: Option<Instant>) -> Option<Duration> {
    let passed = refilled.and_then(|since| since.elapsed(rt).ok())?;
    Duration::from_millis(REFILL_MILLIS).checked_sub(passed)
}

/// Where the parcels of one replica's link wait. Threads share it by reference.
///
/// Each sender has a row with a share of its own (`fair_queue`). Senders take turns, and in `REFILL_MILLIS` no more is
/// taken from one than its allowance.
#[derive(Drop)]
pub struct Inbox {
    config: Config,
    /// From how many fronts requests come.
    fronts: u8,
    inside: Mutex<Inside>,
    bell: Condvar,
    /// How often something came that may be taken. A worker looks at it for a while before it sleeps.
    arrivals: AtomicU64,
    /// How many requests wait.
    requests: AtomicU64,
    /// How many requests were dealt out to rows.
    dealt: AtomicU64,
}

impl Inbox {
    /// An inbox in which nothing waits, for requests from so many fronts.
    pub fn new(alloc: Global, config: Config, fronts: u8) -> Result<Inbox, AllocError> {
        let queue = FairQueue::new(alloc, row_count(config), allowance(config))?;
        Ok(Inbox {
            config,
            fronts,
            inside: Mutex::new(Inside {
                queue,
                waiting: 0,
                numbered: 0,
                before_stop: None,
                refilled: None,
                timed: 0,
                asleep: 0,
                rung: 0,
            }),
            bell: Condvar::new(),
            arrivals: AtomicU64::new(0),
            requests: AtomicU64::new(0),
            dealt: AtomicU64::new(0),
        })
    }

    /// How many requests wait.
    pub(crate) fn requests(&self) -> u64 {
        self.requests.load(SeqCst)
    }

    /// Whether a sender's row is no more than half full, so that what one read of a connection brings finds room there.
    pub fn has_room<R: Wait>(&self, rt: &R, from: &Sender) -> bool {
        let first = match *from {
            Sender::Replica(from) => replica_row(from),
            Sender::Front(front) => request_row(self.config, front, self.fronts, 0),
        };
        self.inside.lock(rt).has_room(first.number)
    }

    /// The row of a sender's frames.
    fn row_of(&self, from: &Sender) -> Row {
        match *from {
            Sender::Replica(from) => replica_row(from),
            Sender::Front(front) => {
                let dealt = self.dealt.fetch_add(1, SeqCst);
                request_row(self.config, front, self.fronts, dealt)
            }
        }
    }

    /// Something came that may be taken. A worker that sleeps is woken, where none is on its way already: to ring
    /// costs a call of the system.
    fn tell(&self, inside: MutexGuard<'_, Inside>) {
        let mut inside = inside;
        let rings = inside.rings();
        drop(inside);
        self.arrivals.fetch_add(1, SeqCst);
        if rings {
            self.bell.notify_one();
        }
    }

    /// Hands in a frame, which gets its number here. `Full` where it doesn't fit in its sender's share, `Memory` where memory was
    /// refused; then it is lost.
    pub fn hand_in_frame<R: Wait>(
        &self,
        rt: &R,
        from: &Sender,
        bytes: Bytes,
    ) -> Result<(), Refusal> {
        let row = self.row_of(from);
        let from = from.replica();
        let mut inside = self.inside.lock(rt);
        let number = inside.next_number();
        let wakes = inside.add(
            row,
            Parcel::Frame {
                number,
                from,
                bytes,
            },
        )?;
        if row.is_request {
            self.requests.fetch_add(1, SeqCst);
        }
        if wakes {
            self.tell(inside);
        }
        Ok(())
    }

    /// A frame of so many bytes came from a replica in vain: it counts as more than one.
    pub(crate) fn charge<R: Wait>(&self, rt: &R, from: ReplicaId, bytes: usize) {
        let row = replica_row(from);
        self.inside.lock(rt).charge(row.number, bytes);
    }

    /// Puts a parcel that is no request into a row.
    fn put<R: Wait>(&self, rt: &R, row: Row, parcel: Parcel) -> Result<(), Refusal> {
        let mut inside = self.inside.lock(rt);
        if inside.add(row, parcel)? {
            self.tell(inside);
        }
        Ok(())
    }

    /// Hands in what a replica says that is no frame. It refuses as `hand_in_frame` does.
    pub fn hand_in<R: Wait>(&self, rt: &R, from: ReplicaId, parcel: Parcel) -> Result<(), Refusal> {
        self.put(rt, replica_row(from), parcel)
    }

    /// Hands in what a replica answers to this one's question. It refuses as `hand_in_frame` does.
    pub fn hand_in_answer<R: Wait>(
        &self,
        rt: &R,
        from: ReplicaId,
        answer: Answer,
    ) -> Result<(), Refusal> {
        let row = answer_row(self.config, from);
        self.put(rt, row, Parcel::Answered { from, answer })
    }

    /// Hands in what the replica's clock tells it.
    fn hand_in_prompt<R: Wait>(&self, rt: &R, prompt: Parcel) -> Result<(), Refusal> {
        self.put(rt, clock_row(self.config), prompt)
    }

    /// Gives the replica leave to make a proposal.
    pub fn beat<R: Wait>(&self, rt: &R) -> Result<(), Refusal> {
        self.hand_in_prompt(rt, Parcel::Beat)
    }

    /// Tells the replica that this view has lasted too long. It makes no step by that where it has left the view by the time
    /// that a worker takes it.
    pub fn timeout<R: Wait>(&self, rt: &R, view: View) -> Result<(), Refusal> {
        self.hand_in_prompt(rt, Parcel::Timeout(view))
    }

    /// Has a replica that is far behind look whether it asks.
    pub fn catch_up<R: Wait>(&self, rt: &R) -> Result<(), Refusal> {
        self.hand_in_prompt(rt, Parcel::CatchUp)
    }

    /// Gives the replica leave to begin anew as leader.
    pub fn lead<R: Wait>(&self, rt: &R, base: Base) -> Result<(), Refusal> {
        self.hand_in_prompt(rt, Parcel::Lead(base))
    }

    /// Gives the replica leave to prune its tree up to a height.
    pub fn prune<R: Wait>(&self, rt: &R, height: Height) -> Result<(), Refusal> {
        self.hand_in_prompt(rt, Parcel::Prune(height.0))
    }

    /// All workers end, however many there are, once all was taken that was handed in before. It takes no memory.
    pub fn stop<R: Wait>(&self, rt: &R) {
        self.inside.lock(rt).stop();
        self.arrivals.fetch_add(1, SeqCst);
        self.bell.notify_all();
    }

    /// Whether its workers were told to end.
    pub fn is_ending<R: Wait>(&self, rt: &R) -> bool {
        self.inside.lock(rt).before_stop.is_some()
    }

    /// How many parcels wait.
    pub fn waiting<R: Wait>(&self, rt: &R) -> usize {
        self.inside.lock(rt).waiting
    }

    /// Takes a parcel, where one may be taken now.
    pub(crate) fn try_recv<R: Wait>(&self, rt: &R) -> Option<Parcel> {
        let mut inside = self.inside.lock(rt);
        let Handed { is_request, parcel } = inside.next()?;
        if is_request {
            self.requests.fetch_sub(1, SeqCst);
        }
        if inside.leaves_more() {
            self.tell(inside);
        }
        Some(parcel)
    }

    /// Loses all that may be taken now, as on any network; but not the end.
    pub fn lose<R: Wait + Clock>(&self, rt: &R) {
        for _ in rt.forever() {
            match self.try_recv(rt) {
                None | Some(Parcel::Stop) => break,
                Some(_) => {}
            }
        }
    }

    /// Takes a parcel, as soon as one may be taken.
    pub fn recv<R: Wait + Clock>(&self, rt: &R) -> Parcel {
        for _ in rt.forever() {
            if let Some(parcel) = self.try_recv(rt) {
                return parcel;
            }
            if !self.comes_soon() {
                self.sleep(rt);
            }
        }
        Parcel::Stop
    }

    /// Whether something comes within a few looks.
    fn comes_soon(&self) -> bool {
        let seen = self.arrivals.load(SeqCst);
        for _ in 0..LOOKS {
            if self.arrivals.load(SeqCst) != seen {
                return true;
            }
            spin_loop();
        }
        false
    }

    /// Sleeps until something is told of, where nothing can be taken; and not longer than until each sender is
    /// allowed its part again, where something waits for that.
    fn sleep<R: Wait + Clock>(&self, rt: &R) {
        let mut inside = self.inside.lock(rt);
        if inside.has_next() {
            return;
        }
        if inside.waiting == 0 {
            inside.falls_asleep();
            let mut inside = self.bell.wait(rt, inside);
            inside.is_back();
        } else {
            self.sleep_a_while(rt, inside);
        }
    }

    /// Allows each sender its part again, or sleeps until it is time for that. Once the workers are to end, it is at any time: what a
    /// flood left would hold them up.
    fn sleep_a_while<R: Wait + Clock>(&self, rt: &R, mut inside: MutexGuard<'_, Inside>) {
        let left = if inside.before_stop.is_some() {
            None
        } else {
            until_refill(rt, inside.refilled)
        };
        let Some(left) = left else {
            let now = Instant::now(rt).ok();
            inside.refill(now);
            return;
        };
        inside.timed = inside.timed.saturating_add(1);
        inside.falls_asleep();
        let (mut inside, _) = self.bell.wait_timeout(rt, inside, left);
        inside.is_back();
        inside.timed = inside.timed.saturating_sub(1);
    }
}
