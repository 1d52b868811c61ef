//! The command line.
use crate::early::Early;
use clap::builder::ValueParser;
use clap::parser::ValueSource;
use clap::{Arg, ArgAction, ArgMatches, Command, value_parser};
use std::alloc::{AllocError, Global};

const EXPLORE: &str = "sbiboard explore";

const TEST: &str = "sbiboard test";

const STATES: &str = "states";

const TIMES: &str = "times";

const SEED: &str = "seed";

const FAILED: &str = "failed";

const FILE: &str = "FILE";

const AFTER: &str = "\
A condition is a comment that begins with `#!`, as `#! never 2 load 0x1000 -> value 0x11`; docs/FORMATS.md has all, and
docs/ASSEMBLY.md the language. A condition that holds in all orders, of any length, holds in all histories of the program.

Exit status: 0 all hold, 1 some don't, 2 usage, 6 no memory, 7 input or output failed, 8 not all was judged or seen.";

const AFTER_TEST: &str = "\
A condition is a comment that begins with `#!`, as `#! never 2 load 0x1000 -> value 0x11`; docs/FORMATS.md has all, and
docs/ASSEMBLY.md the language. If a program has few states, all of its orders are judged, as by `explore`; otherwise, and with --times
or --seed, orders that the seed picks.

Exit status: 0 all hold, 1 some don't, 2 usage, 6 no memory, 7 input or output failed, 8 not all was judged.";

/// The most states of a program whose orders are all judged by `test`.
const FEW: usize = 20_000;

/// Which orders are tried.
#[derive(Clone, Copy)]
pub(crate) struct Seeds {
    /// The seed that picks them.
    pub(crate) seed: u64,
    /// How many.
    pub(crate) times: u64,
}

/// Which orders are looked at.
#[derive(Clone, Copy)]
pub(crate) enum Looks {
    /// All.
    All,
    /// All of a program of few states, some of any other.
    AllOrSome(Seeds),
    /// Some.
    Some(Seeds),
}

/// What a command line asks for.
#[derive(Drop)]
pub(crate) struct Wanted<'a> {
    /// Which orders are looked at.
    pub(crate) looks: Looks,
    /// The limit of states.
    pub(crate) states: usize,
    /// The folder that records are written into.
    pub(crate) failed: &'a str,
    /// The files.
    pub(crate) files: Vec<&'a str>,
}

/// Reads the words of a command line, the program's own name first.
///
/// # Errors
///
/// Clap's text: a fault of usage or help; or an allocation failed.
pub(crate) fn wanted_by<'a>(alloc: Global, words: &'a [String]) -> Result<Wanted<'a>, Early> {
    let is_test = words.first().is_some_and(|name| name.as_str() == TEST);
    let command = if is_test {
        described_testing(alloc)?
    } else {
        described(alloc)?
    };
    let matches = command.try_get_matches_from(words)?;
    let mut files = Vec::new(alloc);
    if let Some(named) = matches.get_strs(FILE) {
        files.extend_from_slice(named)?;
    }
    let states: u64 = matches.get_one(STATES).unwrap_or(0);
    Ok(Wanted {
        looks: if is_test {
            looks_of(&matches)
        } else {
            Looks::All
        },
        states: if is_test { FEW } else { states as usize },
        failed: matches.get_str(FAILED).unwrap_or("."),
        files,
    })
}

/// Which orders `test` looks at.
fn looks_of(matches: &ArgMatches<'_>) -> Looks {
    let seeds = Seeds {
        seed: matches.get_one(SEED).unwrap_or(0),
        times: matches.get_one(TIMES).unwrap_or(0),
    };
    if is_given(matches, TIMES) || is_given(matches, SEED) {
        Looks::Some(seeds)
    } else {
        Looks::AllOrSome(seeds)
    }
}

/// Whether an option stands among the words.
fn is_given(matches: &ArgMatches<'_>, name: &str) -> bool {
    matches.value_source(name) == Some(ValueSource::CommandLine)
}

/// The command line, as clap reads it.
fn described<'a>(alloc: Global) -> Result<Command<'a>, AllocError> {
    let command = Command::new(alloc, EXPLORE)
        .bin_name(EXPLORE)?
        .about("Look at all orders of a program in assembly, and judge its conditions")
        .after_help(AFTER);
    let states = number(alloc, STATES, "N", "1000000", "The limit of states");
    with_files(alloc, command.arg(states)?)
}

/// The same, where some orders are enough.
fn described_testing<'a>(alloc: Global) -> Result<Command<'a>, AllocError> {
    let command = Command::new(alloc, TEST)
        .bin_name(TEST)?
        .about("Look at orders of a program in assembly, and judge its conditions")
        .after_help(AFTER_TEST);
    let about = "How many orders of each program to try";
    let command = command.arg(number(alloc, TIMES, "N", "1000", about))?;
    let seed = number(alloc, SEED, "S", "0", "The seed of the orders");
    with_files(alloc, command.arg(seed)?)
}

/// An option whose value is a number.
fn number<'a>(
    alloc: Global,
    name: &'a str,
    value: &'a str,
    usual: &'a str,
    about: &'a str,
) -> Arg<'a> {
    Arg::new(alloc, name)
        .long(name)
        .value_name(value)
        .value_parser(value_parser!(u64))
        .default_value(usual)
        .help(about)
}

/// The same command, with the files that are read and written.
fn with_files<'a>(alloc: Global, command: Command<'a>) -> Result<Command<'a>, AllocError> {
    let failed = Arg::new(alloc, FAILED)
        .long(FAILED)
        .value_name("DIR")
        .value_parser(ValueParser::NonEmptyString)
        .default_value(".")
        .help("The folder for records of conditions that fail, and of each `some` that is met");
    let command = command.arg(failed)?;
    let file = Arg::new(alloc, FILE)
        .required(true)
        .action(ArgAction::Append)
        .help("Programs in assembly, with their conditions");
    command.arg(file)
}
