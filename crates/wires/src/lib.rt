//! Frames over TCP between processes: the links of one party to its peers.
//!
//! Of two parties the one with the higher number dials. A connection belongs to one party for its life, the one that the
//! handshake named, and all that comes over it is handed on as that party's ([`Arrivals`]), whatever the frames say.
//!
//! # Who waits for whom
//!
//! | Thread | Waits for |
//! |---|---|
//! | a peer's reader | its bell, or a pause before it dials; a dial and its handshake; its socket, up to a silence; room in its own row |
//! | a peer's writer | its bell; its socket, up to a write that moves nothing |
//! | the door | the listener, while nobody is at a handshake; else a pause. Its guests' sockets never wait |
//! | who sends | a peer's lock |
//!
//! A lock is held for one call, and who holds it waits for nothing: no socket, no room, no second lock. A row gets room
//! by whoever takes its frames out, who waits for no socket: what it sends lies in an outbox or is lost. So there is
//! no circle within a process. Between two processes a full row holds up the other end's writer; that one gives the
//! connection up after a while, and waits for nobody meanwhile whom its own reader needs.
#![tactic(auto)]

mod arrivals;
mod backoff;
mod bar;
mod beginning;
mod calling;
mod door;
mod end;
mod link;
mod meeting;
mod other_sizes;
mod pace;
mod receiving;
mod running;
mod sending;
mod size_warning;
mod slot;
mod timed;
mod wires;
mod writing;

pub use arrivals::Arrivals;
pub use end::End;
pub use other_sizes::OtherSizes;
pub use pace::Pace;
pub use receiving::receive;
pub use running::run;
pub use size_warning::SizeWarning;
pub use slot::PeerTerms;
pub use wires::{NotSent, Wires};
pub use writing::write_frames;
