//! The key file: the keys of all pairs of parties that exchange frames, and the keyrings that they make.
//!
//! One line for each pair, `P Q KEY` and LF: two party numbers in decimal, and 64 hexadecimal
//! digits in lower case, with one space between fields. A replica is its number, client c is 256 +
//! c. The pairs are those of a replica P with each replica from P on, itself included, and with
//! each client, ordered by P and then by Q. A holder's own file has those of them in which it acts for one of the two.
#![tactic(auto)]

mod held_keys;
mod holder;
mod key_file;
mod line;
mod pair_key;
mod rows;

pub use held_keys::HeldKeys;
pub use holder::Holder;
pub use key_file::{KeyFileFault, PairKeys, find_key};
pub use line::take_key;
pub use pair_key::PairKey;
