//! What a deployment runs on.

use log::Log;
use std::sync::Wait;
use std::thread::Threads;
use std::time::Clock;

/// What the threads of a deployment run on: it starts them, and gives them locks, a clock, memory and a log.
pub trait Runtime: Threads + Wait + Clock + Sync + Send + AllocGlobal + Log + Clone + Drop {}

impl<R: Threads + Wait + Clock + Sync + Send + AllocGlobal + Log + Clone + Drop> Runtime for R {}
