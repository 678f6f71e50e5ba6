//! What a replica executes: the decided commands in their order, each that is fresh applied to the one cache.
#![tactic(auto)]

mod answer;
mod apply;
mod clients;
mod entries;
mod entry;
mod executed;
mod executor;
mod ledger;

pub use answer::Answer;
pub use apply::ReplyTexts;
pub use entries::{Entries, EntryIter};
pub use entry::Entry;
pub use executor::Executor;
pub use ledger::{Ledger, NoLedger};
