//! The limits that definitions or several crates know, each said once. Those of a deployment's
//! sizes are `Config`'s.

/// The most replicas that there are: the length of each fixed row over replicas.
pub const MOST_REPLICAS: usize = 31;

/// The most commands of a block.
pub const MOST_COMMANDS: usize = 16;

/// The most blocks of one height.
pub const MOST_OF_HEIGHT: usize = 64;

/// The most blocks of a tree, genesis counted.
pub const MOST_BLOCKS: usize = 1_048_576;

/// No block is as high as this, 2^58: so the places of commands, sixteen a block, fit into eight bytes.
pub const HEIGHT_LIMIT: u64 = 288_230_376_151_711_744;

/// How many heights below its horizon a tree still keeps: three blocks in direct succession are seen whole, of which
/// the highest may stand at the horizon.
pub const BELOW_HORIZON: u64 = 2;

/// The most requests that wait for a block.
pub const MOST_PENDING: usize = 4096;

/// The most bytes of a command's payload: a request with the longest key, numbers and data, and room to grow.
pub const MOST_PAYLOAD: usize = 4608;

/// The most bytes of a reply's text: sixteen values of the longest data under the longest keys, and `END`.
pub const MOST_TEXT: usize = 70_293;

/// The most bytes of a key (protocol.txt, "Keys").
pub const MOST_KEY: usize = 250;

/// The most keys of one retrieval.
pub const MOST_ASKED: usize = 16;

/// The most bytes of data under a key.
pub const MOST_DATA: usize = 4096;

/// The most bytes of a request line with its CR LF.
pub const MOST_LINE: usize = 4096;

/// The most keys that a cache may have room for.
pub const MOST_KEYS: usize = 65_536;

/// The most bytes that a connection holds of what was read and not yet taken.
pub const MOST_HELD: usize = 16_384;

/// The first byte of a frame of version 2. One of version 1 begins with its kind.
pub const VERSION_TWO: u8 = 130;

/// How many bytes stand before what the tags of a frame of version 2 speak of: the mark and the kind.
pub const HEAD_LEN: usize = 2;

/// The most faulty replicas with which frames of version 1 are read.
pub const MOST_FAULTS_OF_VERSION_ONE: u8 = 4;
