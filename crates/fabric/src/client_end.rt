//! The link of one client.

use crate::parcel::frame_size;
use bytes::Bytes;
use crossbeam_channel::{Receiver, SendError, Sender, TryRecvError};
use ids::ReplicaId;
use std::alloc::{AllocError, Global};
use std::sync::atomic::Ordering::SeqCst;
use std::sync::atomic::{AtomicBool, AtomicU64};
use std::sync::{Arc, Condvar, Mutex, Wait};
use std::time::{Clock, Duration, Instant};
use tuning::{CLIENT_SHARE_BYTES, CLIENT_SLEEP_MILLIS};

/// A frame, and which replica handed it in.
#[derive(Drop)]
struct FromReplica {
    from: ReplicaId,
    frame: Bytes,
}

/// Why a frame isn't handed in at a client's link.
#[derive(Clone, Copy, Debug, PartialEq, Eq)]
pub enum NotTold {
    /// There is no such client.
    NoSuchClient,
    /// It doesn't fit in the share of its replica, or there is no such replica.
    Full,
    /// Memory was refused.
    Memory,
    /// The other end was dropped.
    Closed,
}

/// What both ends of a client's link know beside its channel.
#[derive(Drop)]
struct BothEnds {
    /// How much of each replica waits.
    shares: Vec<AtomicU64>,
    /// How many frames were handed in, and how many were taken.
    handed_in: AtomicU64,
    taken: AtomicU64,
    /// How many frames have to wait before a sleeping client is woken.
    enough: u64,
    /// Whether the client sleeps, and nobody has rung for it since.
    asleep: AtomicBool,
    /// Held by the client until it sleeps, so that nobody rings before.
    bed: Mutex<()>,
    bell: Condvar,
}

/// The end of a client's link at which replicas hand in frames. Each has a share of its own.
#[derive(Drop)]
pub(crate) struct ClientStart {
    frames: Sender<FromReplica>,
    both: Arc<BothEnds>,
}

/// The end of a client's link at which frames come out, in the order in which they were handed in. While a client
/// waits there, it sleeps.
///
/// Not each frame wakes it: f + 1 that wait do. Fewer than f + 1 replies can't be accepted, so to look at the
/// first f would be in vain. And it may always wait for so many: when a client has taken some replies and
/// accepts none yet, at most f of them are of correct replicas, since those answer alike. There are 2f + 1
/// correct replicas at least, so f + 1 of their replies or more are still to come. Where some of these are
/// late or lost, a slice bounds what that costs: after each the client takes what waits.
#[derive(Drop)]
pub struct ClientEnd {
    frames: Receiver<FromReplica>,
    both: Arc<BothEnds>,
}

/// The two ends of a client's link, in which nothing waits, with a counter at 0 for each replica, of which f may be
/// faulty.
pub(crate) fn client_link(
    alloc: Global,
    shares: Vec<AtomicU64>,
    faults: u8,
) -> Result<(ClientStart, ClientEnd), AllocError> {
    let (frames, end) = crossbeam_channel::unbounded(alloc)?;
    let both = BothEnds {
        shares,
        handed_in: AtomicU64::new(0),
        taken: AtomicU64::new(0),
        enough: u64::from(faults) + 1,
        asleep: AtomicBool::new(false),
        bed: Mutex::new(()),
        bell: Condvar::new(),
    };
    let both = Arc::new(alloc, both)?;
    let start = ClientStart {
        frames,
        both: Arc::try_clone(&both)?,
    };
    Ok((start, ClientEnd { frames: end, both }))
}

/// Takes so much more of a share, where that has room for them.
fn enter(share: &AtomicU64, size: u64) -> bool {
    let before = share.fetch_add(size, SeqCst);
    let fits = before.saturating_add(size) <= CLIENT_SHARE_BYTES;
    if !fits {
        share.fetch_sub(size, SeqCst);
    }
    fits
}

/// Why a frame wasn't sent.
fn not_told(error: SendError<FromReplica>) -> NotTold {
    match error {
        SendError::OutOfMemory(_) => NotTold::Memory,
        SendError::Disconnected(_) => NotTold::Closed,
    }
}

/// How long a client that waits until a moment sleeps at most. None where the moment has come, and where the
/// clock can't be read.
fn slice_until<R: Clock>(rt: &R, until: Instant) -> Option<Duration> {
    let now = Instant::now(rt).ok()?;
    let left = until.duration_since(now);
    if left.is_zero() {
        return None;
    }
    Some(left.min(Duration::from_millis(CLIENT_SLEEP_MILLIS)))
}

impl BothEnds {
    /// Whether enough frames wait to wake the client.
    fn are_enough(&self) -> bool {
        let handed_in = self.handed_in.load(SeqCst);
        handed_in.saturating_sub(self.taken.load(SeqCst)) >= self.enough
    }

    /// A frame more waits. Where the client sleeps and enough wait, it is woken.
    fn one_more<R: Wait>(&self, rt: &R) {
        self.handed_in.fetch_add(1, SeqCst);
        if self.are_enough() && self.asleep.swap(false, SeqCst) {
            drop(self.bed.lock(rt));
            self.bell.notify_one();
        }
    }

    /// The frame that was taken out waits no more.
    fn one_less(&self, told: &FromReplica) {
        self.taken.fetch_add(1, SeqCst);
        if let Some(share) = self.shares.get(usize::from(told.from.0)) {
            share.fetch_sub(frame_size(&told.frame) as u64, SeqCst);
        }
    }

    /// Sleeps until enough frames wait, and so long at most.
    fn sleep<R: Wait + Clock>(&self, rt: &R, most: Duration) {
        let bed = self.bed.lock(rt);
        self.asleep.store(true, SeqCst);
        if !self.are_enough() {
            let (_bed, _) = self.bell.wait_timeout(rt, bed, most);
        }
        self.asleep.store(false, SeqCst);
    }
}

impl ClientStart {
    /// Hands in a frame of a replica. It waits for nobody but those that use this link just then.
    pub(crate) fn hand_in<R: Wait>(
        &self,
        rt: &R,
        from: ReplicaId,
        frame: Bytes,
    ) -> Result<(), NotTold> {
        let size = frame_size(&frame) as u64;
        let Some(share) = self.both.shares.get(usize::from(from.0)) else {
            return Err(NotTold::Full);
        };
        if !enter(share, size) {
            return Err(NotTold::Full);
        }
        match self.frames.send(rt, FromReplica { from, frame }) {
            Ok(()) => {
                self.both.one_more(rt);
                Ok(())
            }
            Err(error) => {
                share.fetch_sub(size, SeqCst);
                Err(not_told(error))
            }
        }
    }
}

impl ClientEnd {
    /// Takes the oldest frame, where one waits. Else sleeps until enough wait, or a slice has passed and one
    /// waits, and takes the oldest. None where none came until a moment, or none can come any more.
    pub fn recv_deadline<R: Wait + Clock>(&self, rt: &R, until: Instant) -> Option<Bytes> {
        for _ in rt.forever() {
            match self.frames.try_recv(rt) {
                Ok(told) => {
                    self.both.one_less(&told);
                    return Some(told.frame);
                }
                Err(TryRecvError::Disconnected) => return None,
                Err(TryRecvError::Empty) => self.both.sleep(rt, slice_until(rt, until)?),
            }
        }
        None
    }

    /// Takes the oldest frame, where one waits.
    pub fn try_recv<R: Wait>(&self, rt: &R) -> Option<Bytes> {
        let told = self.frames.try_recv(rt).ok()?;
        self.both.one_less(&told);
        Some(told.frame)
    }
}
