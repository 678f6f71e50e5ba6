ghost use Rattle.std.specs.Prelude.{◌≡◌};
ghost use Rattle.definitions.specs.Replies.{fault_text};

use ids::LineFault;

/// What a get tells of one key.
#[derive(Debug, Drop, PartialEq, Eq)]
pub struct Value {
    pub key: Vec<u8>,
    pub flags: u32,
    pub stored: Vec<u8>,
    /// The number of the change that stored it. Only a gets tells it.
    pub cas_unique: u64,
}

/// A reply, which owns what it tells.
#[derive(Debug, Drop, PartialEq, Eq)]
pub enum Reply {
    /// The data was stored.
    Stored,
    /// The command's condition didn't hold.
    NotStored,
    /// Another change came since the one that a cas names.
    Exists,
    /// The key isn't there.
    NotFound,
    /// The key was taken away.
    Deleted,
    /// The number after an incr or decr.
    Number(u64),
    /// What was found of the keys of a get or gets.
    Values {
        values: Vec<Value>,
        with_cas_unique: bool,
    },
    /// Every change that a cas unique can number was made.
    OutOfMemory,
    /// The joined data would be too long.
    TooLarge,
    /// What is stored is no number.
    NonNumeric,
    /// The command is no request.
    NoRequest,
}

/// What is answered to a line that is no request.
pub fn fault_text(fault: LineFault) -> &'static str
    ensures { result.now ≡ fault_text fault }
{
    match fault {
        LineFault::UnknownName => "ERROR\r\n",
        LineFault::BadFields => "CLIENT_ERROR bad command line format\r\n",
        LineFault::TooLarge => "SERVER_ERROR object too large for cache\r\n",
        LineFault::BadChunk => "CLIENT_ERROR bad data chunk\r\n",
        LineFault::LineTooLong => "CLIENT_ERROR line too long\r\n",
    }
}
