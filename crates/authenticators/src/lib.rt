//! HMAC-SHA-256 (RFC 2104, FIPS 180-4), and the tags that parties put on their frames.
//!
//! Each pair of parties that exchange frames has one key of 32 bytes. A tag is the HMAC, under the key of the
//! two, of a label, the sender, the receiver and a content; a vector is one tag for each replica.
#![tactic(auto)]

mod foreseen;
mod keyring;
mod known_tags;
mod mac;
mod replica_keyring;
mod shared_key;
mod vectors;
mod verifying_keyring;

pub use keyring::Keyring;
pub use mac::hmac;
pub use replica_keyring::ReplicaKeyring;
pub use shared_key::SharedKey;
pub use verifying_keyring::VerifyingKeyring;
