//! How the two ends of a link find out who the other one is, before the first frame: pure functions over bytes.
//!
//! Of two parties the one with the higher number dials. The acceptor greets with a nonce, the dialler asks, and the
//! acceptor answers; each shows by a tag under the key of the pair that it is who it says, at the same sizes, now.
#![tactic(auto)]

mod ask;
mod dialling;
mod endpoint;
mod label;
mod laws;
mod parts;
mod peer;
mod refusal;
mod texts;
mod words;

pub use dialling::Dialling;
pub use endpoint::Endpoint;
pub use laws::{
    an_answer_is_heard_exactly, an_ask_is_admitted_exactly, each_text_is_of_one_handshake,
    no_ask_is_an_answer, no_text_is_of_a_frame, two_ends_meet,
};
pub use peer::Peer;
pub use refusal::Refusal;
pub use texts::{AnswerBytes, AskBytes, GreetingBytes, greeting};
pub use words::{Life, Nonce};
