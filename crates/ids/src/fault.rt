ghost use Rattle.std.specs.Prelude.{◌≡◌};
ghost use Rattle.ids.specs.declared.fault.Fault.TheVariants.{Memory};
ghost use Rattle.ids.specs.Numbers.{fault_number};

use std::alloc::{AllocError, AllocFailed};
use thiserror::Error;

/// Why a call refuses. The number of a refusal is the same wherever it comes.
#[derive(Clone, Copy, Debug, PartialEq, Eq, Hash, Error)]
pub enum Fault {
    /// The sizes of a deployment are out of their limits.
    #[error("sizes out of their limits")]
    BadSize = 1,
    /// A request line begins with none of the commands' names.
    #[error("unknown command")]
    UnknownName = 2,
    /// A request line doesn't have the fields that its command takes.
    #[error("bad command line format")]
    BadFields = 3,
    /// A request announces more data than may be stored.
    #[error("object too large for cache")]
    TooLarge = 4,
    /// The data of a request isn't followed by CR LF.
    #[error("bad data chunk")]
    BadChunk = 5,
    /// A request line has no end within its limit.
    #[error("line too long")]
    LineTooLong = 6,
    /// A feed holds too many bytes to take these in.
    #[error("too many bytes at once")]
    FeedFull = 7,
    /// The bytes are no frame at these sizes.
    #[error("not a frame")]
    NotAFrame = 10,
    /// A frame's own tag is wrong for its receiver, or a certificate in it isn't good.
    #[error("wrong tag or bad certificate")]
    BadTag = 11,
    /// A certificate is for another block than the one that is justified.
    #[error("certificate of another block")]
    WrongJustify = 12,
    /// A block's parent, a voted block or a certified one isn't in the tree.
    #[error("block not in the tree")]
    UnknownParent = 13,
    /// A block's height isn't its parent's plus one.
    #[error("height isn't the parent's plus one")]
    BadHeight = 14,
    /// A height has as many blocks as it may have.
    #[error("too many blocks of one height")]
    Crowded = 15,
    /// As many requests are pending as may be.
    #[error("too many pending requests")]
    PoolFull = 16,
    /// The tree has as many blocks as it may have.
    #[error("tree is full")]
    Full = 17,
    /// A decided block conflicts with the last executed one.
    #[error("decided block conflicts with an executed one")]
    Conflict = 18,
    /// The allocator refused memory.
    #[error("out of memory")]
    Memory = 19,
    /// The replica stopped before.
    #[error("replica has stopped")]
    Stopped = 20,
    /// A block justifies one below the horizon.
    #[error("block below the horizon")]
    Pruned = 21,
    /// A frame or an input is for another party, or of a kind that this party doesn't take.
    #[error("not for this party")]
    NotMine = 30,
    /// A reply isn't for the outstanding request, or none is outstanding.
    #[error("not the outstanding request")]
    WrongSeq = 31,
    /// A reply's replica was counted for this request before.
    #[error("replica was counted before")]
    Doubled = 32,
    /// A request is outstanding.
    #[error("a request is outstanding")]
    Busy = 33,
    /// All request numbers were used.
    #[error("no request number is left")]
    Spent = 34,
    /// The record has no frame of this number.
    #[error("no such frame")]
    NoSuchFrame = 40,
    /// There is no such party.
    #[error("no such party")]
    NoSuchParty = 41,
    /// A submitted payload isn't the canonical text of a request.
    #[error("not a canonical request")]
    NotARequest = 42,
    /// More replicas are named faulty than are tolerated.
    #[error("too many faulty replicas")]
    TooManyFaulty = 43,
    /// Too few replicas are handed in, one of them twice, or ones of unequal sizes.
    #[error("too few replicas")]
    TooFew = 44,
    /// Not all shares are handed in, or one that isn't the replica's own.
    #[error("not all shares")]
    NotAll = 45,
    /// The number of keys of a cache is out of its limits.
    #[error("number of keys out of its limits")]
    BadKeys = 46,
    /// A reader failed.
    #[error("reading failed")]
    ReadFailed = 50,
    /// A writer failed.
    #[error("writing failed")]
    WriteFailed = 51,
    /// A connection couldn't be accepted.
    #[error("accepting a connection failed")]
    AcceptFailed = 52,
}

impl Fault {
    /// The number of the refusal, as programs print it.
    pub fn number(self) -> u8
        ensures { result ≡ fault_number self }
    {
        self as u8
    }
}

impl From<AllocError> for Fault {
    ghost from_gives = { λ _ fault. fault ≡ Memory };

    fn from(_error: AllocError) -> Fault {
        Fault::Memory
    }
}

impl<T: Drop> From<AllocFailed<T>> for Fault {
    ghost from_gives = { λ _ fault. fault ≡ Memory };

    fn from(_error: AllocFailed<T>) -> Fault {
        Fault::Memory
    }
}
