//! The sequential cache: what stands under each key, and what each request of memcached's text protocol
//! (protocol.txt) does to it and is told.
//!
//! One method does it all: `Cache::apply`, of which it is proved that it does and replies what the
//! definitions say.
#![tactic(auto)]

mod cache;
mod change;
mod count;
mod entry;
mod items;
mod number;
mod room;
mod store;
mod uses;
mod values;

pub use cache::Cache;
