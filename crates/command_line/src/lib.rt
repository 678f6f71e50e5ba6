//! The words of `mcbft`: those on its command line, and those that it ends with.
#![tactic(auto)]

mod commands;
mod files;
mod lies;
mod of_ask;
mod of_audit;
mod of_front;
mod of_replica;
mod options;
mod reading;
mod shared;
mod table;
mod terms;
mod wanted;
mod words;

pub use commands::matches_of;
pub use files::Files;
pub use of_ask::AskOptions;
pub use of_audit::AuditOptions;
pub use of_front::FrontOptions;
pub use of_replica::ReplicaOptions;
pub use options::Options;
pub use wanted::Wanted;
pub use words::words_of;
