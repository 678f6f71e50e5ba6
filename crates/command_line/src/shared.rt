//! Options that several commands have.

use crate::table::{LeftOut, MOST_OF_32_BITS, Number, Text, Word};

pub(crate) const DEPLOYMENT: Word = Word::Text(Text {
    name: "deployment",
    value: "FILE",
    left_out: LeftOut::Refused,
    help: "Deployment file, the same for all processes",
});

pub(crate) const OWN_KEYS: Word = Word::Text(Text {
    name: "keys",
    value: "FILE",
    left_out: LeftOut::Refused,
    help: "Its key file, made by bin/make-keys --deployment FILE DIR",
});

pub(crate) const STATE: Word = Word::Text(Text {
    name: "state",
    value: "DIR",
    left_out: LeftOut::Refused,
    help: "Its state directory; never copy it, never restore it",
});

pub(crate) const LIAR_UNTIL: Word = Word::Number(Number {
    name: "liar-until",
    value: "SECONDS",
    least: 0,
    most: MOST_OF_32_BITS,
    left_out: LeftOut::Default("0"),
    help: "Liars fall silent then; 0: never",
});

pub(crate) const LIAR_SEED: Word = Word::Number(Number {
    name: "liar-seed",
    value: "N",
    least: 0,
    most: u64::MAX,
    left_out: LeftOut::Default("0"),
    help: "From what any draws its lies",
});

pub(crate) const SERVE: Word = Word::Number(Number {
    name: "serve",
    value: "N",
    least: 0,
    most: u64::MAX,
    left_out: LeftOut::Default("0"),
    help: "Ends after N connections; 0: never",
});

pub(crate) const BLOCKS: Word = Word::Number(Number {
    name: "blocks",
    value: "B",
    least: 0,
    most: MOST_OF_32_BITS,
    left_out: LeftOut::Default("0"),
    help: "Stops a replica at B blocks; 0: 1,048,576",
});

pub(crate) const WINDOW: Word = Word::Number(Number {
    name: "window",
    value: "H",
    least: 0,
    most: MOST_OF_32_BITS,
    left_out: LeftOut::Default("4096"),
    help: "Heights that replicas remember",
});

pub(crate) const WINDOW_MOST: Word = Word::Number(Number {
    name: "window-most",
    value: "H",
    least: 0,
    most: MOST_OF_32_BITS,
    left_out: LeftOut::Default("0"),
    help: "Heights kept for replicas that are behind; 0: 65,536 among all",
});

pub(crate) const RECORD: Word = Word::Number(Number {
    name: "record",
    value: "MB",
    least: 0,
    most: MOST_OF_32_BITS,
    left_out: LeftOut::Default("256"),
    help: "What replicas record for who fell behind",
});

pub(crate) const WORKERS: Word = Word::Number(Number {
    name: "workers",
    value: "N",
    least: 1,
    most: 2,
    left_out: LeftOut::Default("1"),
    help: "Threads of each replica: 1 or 2",
});

pub(crate) const WATCH: Word = Word::Number(Number {
    name: "watch",
    value: "SECONDS",
    least: 0,
    most: MOST_OF_32_BITS,
    left_out: LeftOut::Default("0"),
    help: "Seconds between lines of status; 0: none",
});
