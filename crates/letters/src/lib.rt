//! What one process tells another one over a wire: frames, and a few letters that are none.
//!
//! A frame goes as it is. Every other letter begins with a mark, with which no frame begins, and its fields, big-endian.
//! Whoever sends a letter is known by the link that brings it: it names nobody, and has no tag.
#![tactic(auto)]

mod laws;
mod letter;
mod mark;
mod progress;
mod reading;
mod writing;

pub use laws::{
    each_frame_is_a_letter, each_letter_fits, one_text_is_of_one_letter,
    what_is_written_is_read_back,
};
pub use letter::Letter;
pub use progress::Progress;
pub use reading::read;
pub use writing::write;
