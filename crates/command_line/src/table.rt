//! An option of a command, as the tables of `commands` have it, and as the parser wants it.

use crate::lies::LIARS;
use crate::of_ask::ASKS;
use clap::builder::ValueParser;
use clap::{Arg, ArgAction, Command};
use std::alloc::{AllocError, Global};

/// The greatest number of 32 bits.
pub(crate) const MOST_OF_32_BITS: u64 = 4_294_967_295;

/// What is done where an option is left out.
#[derive(Clone, Copy)]
pub(crate) enum LeftOut {
    /// The command line is refused.
    Refused,
    /// Nothing: it has no value.
    Nothing,
    /// This stands for it.
    Default(&'static str),
}

/// An option that takes a text.
#[derive(Clone, Copy)]
pub(crate) struct Text {
    pub(crate) name: &'static str,
    /// How help calls it.
    pub(crate) value: &'static str,
    pub(crate) left_out: LeftOut,
    pub(crate) help: &'static str,
}

/// An option that takes a number.
#[derive(Clone, Copy)]
pub(crate) struct Number {
    pub(crate) name: &'static str,
    /// How help calls it.
    pub(crate) value: &'static str,
    pub(crate) least: u64,
    pub(crate) most: u64,
    pub(crate) left_out: LeftOut,
    pub(crate) help: &'static str,
}

/// An option of a command.
#[derive(Clone, Copy)]
pub(crate) enum Word {
    Text(Text),
    Number(Number),
    /// The name of a lie, with this help.
    Liar(&'static str),
    Archive,
    /// What a replica is asked.
    Ask,
    /// Files, one or more.
    Windows,
}

/// A command that takes these options too.
pub(crate) fn with_words<'a>(
    alloc: Global,
    bare: Command<'a>,
    words: &[Word],
) -> Result<Command<'a>, AllocError> {
    let mut command = bare;
    for word in words {
        command = command.arg(arg_of(alloc, *word))?;
    }
    Ok(command)
}

/// An option as the parser wants it.
fn arg_of(alloc: Global, word: Word) -> Arg<'static> {
    match word {
        Word::Text(text) => text_arg(alloc, text),
        Word::Number(number) => number_arg(alloc, number),
        Word::Liar(help) => liar_arg(alloc, help),
        Word::Archive => archive_arg(alloc),
        Word::Ask => ask_arg(alloc),
        Word::Windows => windows_arg(alloc),
    }
}

/// The option, and what is done where it is left out.
fn or_left_out(arg: Arg<'static>, left_out: LeftOut) -> Arg<'static> {
    match left_out {
        LeftOut::Refused => arg.required(true),
        LeftOut::Nothing => arg,
        LeftOut::Default(text) => arg.default_value(text),
    }
}

fn text_arg(alloc: Global, text: Text) -> Arg<'static> {
    let arg = Arg::new(alloc, text.name)
        .long(text.name)
        .value_name(text.value)
        .help(text.help);
    or_left_out(arg, text.left_out)
}

fn number_arg(alloc: Global, number: Number) -> Arg<'static> {
    let arg = Arg::new(alloc, number.name)
        .long(number.name)
        .value_name(number.value)
        .value_parser(ValueParser::Unsigned(number.least, number.most))
        .help(number.help);
    or_left_out(arg, number.left_out)
}

fn liar_arg(alloc: Global, help: &'static str) -> Arg<'static> {
    Arg::new(alloc, "liar")
        .long("liar")
        .value_name("LIE")
        .value_parser(LIARS.as_slice())
        .help(help)
}

fn ask_arg(alloc: Global) -> Arg<'static> {
    Arg::new(alloc, "what")
        .value_name("WHAT")
        .value_parser(ASKS.as_slice())
        .required(true)
        .help("To write its window into its state directory, or to stop and do so")
}

fn windows_arg(alloc: Global) -> Arg<'static> {
    Arg::new(alloc, "windows")
        .value_name("FILE")
        .num_args(1..)
        .required(true)
        .help("The window of one replica, from its state directory")
}

fn archive_arg(alloc: Global) -> Arg<'static> {
    Arg::new(alloc, "archive")
        .long("archive")
        .action(ArgAction::SetTrue)
        .help("Replicas forget nothing; the end judges all")
}
