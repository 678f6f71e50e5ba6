//! What waits at links, and how much of it is taken.

use ids::MOST_COMMANDS;

/// Bytes of one sender that may wait at a replica's link; more is lost. Less: a replica that slept for a second loses
/// frames that it then asks for. More: a flooder fills more memory.
pub const LINK_SHARE_BYTES: usize = 16_777_216;

/// Bytes of one replica that may wait at a client's link; more is lost. The longest reply has some 70,000, and a correct
/// replica answers a client's one request at a time. Less than that: such a reply never comes.
pub const CLIENT_SHARE_BYTES: u64 = 262_144;

/// Bytes that a parcel counts beside its own, for the memory that it takes where it waits.
pub const PARCEL_SIZE: usize = 128;

/// Milliseconds that what a sender is allowed has to last.
pub const REFILL_MILLIS: u64 = 10;

/// Frames that a replica takes from all other replicas in that time; each of n gets the n-th part. More: a flooder
/// takes more of the processors. Fewer: correct senders wait.
pub const REFILL_FRAMES: usize = 768;

/// Bytes that a replica takes from all other replicas in that time; each of n gets the n-th part.
pub const REFILL_BYTES: usize = 2_097_152;

/// As how many frames one counts that a replica sent in vain: that was refused, or is a proposal that found no vote. More: who
/// is late at times waits. Fewer: a flooder takes more of the processors.
pub const VAIN_WEIGHT: usize = 8;

/// Rows in which clients' requests wait at a replica's link: as many get their turn between two frames of a replica as
/// go into one block.
pub const CLIENT_ROWS: usize = MOST_COMMANDS;

/// Looks of a worker whether something came, before it sleeps: to be woken costs a call of the system.
pub const LOOKS: u32 = 100;

/// Milliseconds that a client sleeps at most before it looks what waits, where fewer than f + 1 frames do.
pub const CLIENT_SLEEP_MILLIS: u64 = 5;

/// Microseconds that a replica which was made to lie waits where others don't take what it sends. Shorter: its thread takes their
/// processors. Longer: it hears less.
pub const LIAR_REST_MICROS: u64 = 100;

/// Blocks of one height that a replica takes on one replica's account, at most. In all runs that were tried a correct
/// one needed three. More: faulty ones bring more. Fewer: correct leaders are refused. Among many replicas the
/// doorkeeper lets in fewer, so that no height is ever full.
pub const MOST_OF_SENDER: usize = 4;

/// Heights by which a proposal's block may stand above the block that it justifies, times one more than the number of its
/// view. More: behind faulty leaders that climb, a correct one proposes longer before anything is decided. Fewer: one whose
/// votes are late has fewer trials in a view. Below four: nothing is decided in view 0.
pub const MOST_CLIMB: u64 = 16;

/// Heights by which a leader that begins anew from its lock climbs above all that it voted for, before it proposes a
/// request. More: more empty blocks. Fewer: below what others voted for nothing finds votes.
pub const LEAD_CLIMB: u64 = 24;
