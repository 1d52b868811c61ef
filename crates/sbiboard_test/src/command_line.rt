//! The command lines of `test` and `explore`.
ghost use Rattle.std.specs.Prelude.{◌<◌};

use crate::early::Early;
use clap::builder::ValueParser;
use clap::parser::ValueSource;
use clap::{Arg, ArgAction, ArgMatches, Command, value_parser};
use std::alloc::{AllocError, Global};
use std::rt::Clock;
use std::thread::{self, Threads};
use test_report::Mode;
use test_terms::{Limit, Options, Orders, Screen};

const TIMES: &str = "times";

const SEED: &str = "seed";

const ORDER: &str = "order";

const JOBS: &str = "jobs";

const SECONDS: &str = "seconds";

const THREADS: &str = "threads";

const TAP: &str = "tap";

const FAILED: &str = "failed";

const STATES: &str = "states";

const NO_OUTCOMES: &str = "no-outcomes";

const FILE: &str = "FILE";

/// The name under which the program looks at all orders.
const EXPLORE: &str = "sbiboard explore";

/// How many orders are tried at a time at most.
const MOST_JOBS: u64 = 256;

const AFTER: &str = "\
A condition is a comment of a script that begins with `#!`, as in
  #! never 2 load 0x1000 -> value 0x11 after 0 poll -> ret 0 _
docs/FORMATS.md has all of them. The output is points of the Test Anything Protocol.
If a program has few states, all of its orders are judged, as by `explore`; otherwise, and with --times, --seed, --order or
--threads, orders that the seed picks.
FILEs that end in .s are programs in assembly (docs/ASSEMBLY.md); of the options they take --times, --seed, --failed, --tap, --tap-version,
--junit, --html and --json.

Exit status: 0 all hold, 1 some don't, 2 usage, 6 no memory, 7 input or output failed, 8 not all was judged.";

const AFTER_EXPLORE: &str = "\
A condition is a comment of a script that begins with `#!`, as `#! never 2 load 0x1000 -> value 0x11`; docs/FORMATS.md has all.
A condition that holds in all orders, of any length, is proved to hold in all histories of the program.
A state takes some 2 KB for three harts whose RAM is mostly 0.
FILEs that end in .s are programs in assembly (docs/ASSEMBLY.md); of the options they take --states, --failed, --tap, --tap-version,
--junit, --html and --json.

Exit status: 0 all hold, 1 some don't, 2 usage, 6 no memory, 7 input or output failed, 8 not all was judged or seen.";

/// Reads the words of a command line, the program's own name first.
///
/// # Errors
///
/// Clap's text: a fault of usage, help or the version; or an allocation failed.
pub(crate) fn options_of<'a, R: AllocGlobal + Clock + Threads>(
    rt: &R,
    words: &'a [String],
    screen: Screen,
) -> Result<Options<'a>, Early> {
    let alloc = rt.alloc();
    let mode = mode_of(words);
    let command = match mode {
        Mode::Test => described(alloc)?,
        Mode::Explore => described_exploring(alloc)?,
    };
    let matches = command.try_get_matches_from(words)?;
    let times = matches.get_one(TIMES).unwrap_or(0);
    let states: u64 = matches.get_one(STATES).unwrap_or(0);
    Ok(Options {
        mode,
        orders: match matches.get_one(ORDER) {
            Some(order) => Orders::One(order),
            None => Orders::First(times),
        },
        seed: matches.get_one(SEED).unwrap_or(0),
        jobs: jobs_of(rt, matches.get_one(JOBS)),
        runs: if matches.get_flag(THREADS) { times } else { 0 },
        are_few_seen: !asks_for_some(&matches),
        states: states as usize,
        outcomes: mode == Mode::Explore && !matches.get_flag(NO_OUTCOMES),
        screen,
        failed: matches.get_str(FAILED).unwrap_or("."),
        limit: Limit::begin(rt, matches.get_one(SECONDS))?,
        tap: matches.get_str(TAP),
        files: files_of(alloc, &matches)?,
    })
}

/// Whether to test or to explore, by the program's own name.
fn mode_of(words: &[String]) -> Mode {
    match words.first() {
        Some(name) if name.as_str() == EXPLORE => Mode::Explore,
        _ => Mode::Test,
    }
}

/// Whether they ask for orders of a seed, or for runs on threads.
fn asks_for_some(matches: &ArgMatches<'_>) -> bool {
    matches.get_flag(THREADS)
        || is_given(matches, TIMES)
        || is_given(matches, SEED)
        || is_given(matches, ORDER)
}

/// Whether an option stands among the words.
fn is_given(matches: &ArgMatches<'_>, name: &str) -> bool {
    matches.value_source(name) == Some(ValueSource::CommandLine)
}

/// The files that are named.
fn files_of<'a>(alloc: Global, matches: &ArgMatches<'a>) -> Result<Vec<&'a str>, AllocError> {
    let mut files = Vec::new(alloc);
    if let Some(named) = matches.get_strs(FILE) {
        files.extend_from_slice(named)?;
    }
    Ok(files)
}

/// How many orders are tried at a time: as many as are asked for, or as there are processors.
fn jobs_of(rt: &impl Threads, asked: Option<u64>) -> u64
    ensures { 0 < result }
{
    match asked {
        Some(jobs) => jobs.clamp(1, MOST_JOBS),
        None => match thread::available_parallelism(rt) {
            Ok(many) => (many.get() as u64).clamp(1, MOST_JOBS),
            Err(_) => 1,
        },
    }
}

/// The command line, as clap reads it.
fn described<'a>(alloc: Global) -> Result<Command<'a>, AllocError> {
    let command = Command::new(alloc, "sbiboard test")
        .bin_name("sbiboard test")?
        .about(
            "Look at orders of programs, replay schedules and compare traces, and judge their conditions",
        )
        .after_help(AFTER);
    let about = "Programs, schedules and traces, with their conditions";
    with_files(
        alloc,
        with_ways(alloc, with_orders(alloc, command)?)?,
        about,
    )
}

/// The same, where all orders are looked at.
fn described_exploring<'a>(alloc: Global) -> Result<Command<'a>, AllocError> {
    let command = Command::new(alloc, EXPLORE)
        .bin_name(EXPLORE)?
        .about("Look at all orders of a program, and judge its conditions")
        .after_help(AFTER_EXPLORE);
    let states = number(alloc, STATES, "N", "The limit of states");
    let command = command.arg(states.default_value("1000000"))?;
    let no_outcomes = Arg::new(alloc, NO_OUTCOMES)
        .long(NO_OUTCOMES)
        .action(ArgAction::SetTrue)
        .help("Don't report what each load gave last");
    let command = command.arg(no_outcomes)?;
    let about = "Explore orders for at most N seconds";
    let command = command.arg(number(alloc, SECONDS, "N", about))?;
    with_files(alloc, command, "Programs, with their conditions")
}

/// The same, with what says which orders are tried.
fn with_orders<'a>(alloc: Global, command: Command<'a>) -> Result<Command<'a>, AllocError> {
    let times = number(alloc, TIMES, "N", "How many orders of each program to try");
    let command = command.arg(times.default_value("1000"))?;
    let seed = number(alloc, SEED, "S", "The seed of the orders");
    let command = command.arg(seed.default_value("0"))?;
    let order = number(alloc, ORDER, "K", "Try only order K of the seed");
    command.arg(order.conflicts_with(TIMES)?)
}

/// The same, with what says how they are tried.
fn with_ways<'a>(alloc: Global, command: Command<'a>) -> Result<Command<'a>, AllocError> {
    let about = "How many orders to try at a time (default: one per processor)";
    let command = command.arg(number(alloc, JOBS, "J", about))?;
    let threads = Arg::new(alloc, THREADS)
        .long(THREADS)
        .action(ArgAction::SetTrue)
        .help("Also run each program as often on real threads");
    let command = command.arg(threads)?;
    let about = "Try orders for at most N seconds";
    command.arg(number(alloc, SECONDS, "N", about))
}

/// The same, with the files that are read and written.
fn with_files<'a>(
    alloc: Global,
    command: Command<'a>,
    about: &'a str,
) -> Result<Command<'a>, AllocError> {
    let failed = Arg::new(alloc, FAILED)
        .long(FAILED)
        .value_name("DIR")
        .value_parser(ValueParser::NonEmptyString)
        .default_value(".")
        .help("The folder for records of conditions that fail, and of each `some` that is met");
    let command = command.arg(failed)?;
    let tap = Arg::new(alloc, TAP)
        .long(TAP)
        .value_name("FILE")
        .value_parser(ValueParser::NonEmptyString)
        .help("Also write the points into FILE");
    let command = command.arg(tap)?;
    let file = Arg::new(alloc, FILE)
        .required(true)
        .action(ArgAction::Append)
        .help(about);
    command.arg(file)
}

/// An option whose value is a number.
fn number<'a>(alloc: Global, name: &'a str, value: &'a str, about: &'a str) -> Arg<'a> {
    Arg::new(alloc, name)
        .long(name)
        .value_name(value)
        .value_parser(value_parser!(u64))
        .help(about)
}
