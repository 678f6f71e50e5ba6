//! How often an operator is warned of a peer that has other sizes.

use log::kv::Source;
use log::span::Spans;
use log::{Line, Log, Metadata, Record};
use std::alloc::Global;
use std::fmt::Display;
use std::sync::atomic::AtomicU64;
use std::sync::atomic::Ordering::SeqCst;
use wires::{OtherSizes, SizeWarning};

/// A logger that counts warnings of the villain's sizes.
#[derive(Drop)]
struct Warnings {
    alloc: Global,
    count: AtomicU64,
}

impl Log for Warnings {
    fn enabled(&self, _metadata: &Metadata<'_>) -> bool {
        true
    }

    fn log<D: Display, K: Source, S: Spans>(&self, record: &Record<'_, D, K, S>) {
        if let Ok(line) = format!(in self.alloc; "{}", Line::new(record)) {
            if line.as_str().contains("r3 asks at other sizes") {
                self.count.fetch_add(1, SeqCst);
            }
        }
    }

    fn flush(&self) {}

    fn target(&self) -> &str {
        ""
    }
}

/// How often it is told in two looks at what is known.
pub(crate) fn warnings_of(alloc: Global, known: &OtherSizes) -> u64 {
    let warnings = Warnings {
        alloc,
        count: AtomicU64::new(0),
    };
    let mut told = SizeWarning::none();
    told.look(&warnings, known, 0);
    told.look(&warnings, known, 1);
    warnings.count.load(SeqCst)
}
