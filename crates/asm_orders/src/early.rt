//! Why the program ends early, and with which status.
use clap::error::ErrorKind;
use std::alloc::AllocError;
use std::io;
use test_report::Unwritten;
use test_terms::Stop;

/// Why the program ends early.
#[derive(Drop)]
pub(crate) enum Early {
    /// The command line asks for help, or has a fault of usage.
    Usage(clap::Error),
    /// The exploration ended early.
    Stop(Stop),
}

impl From<clap::Error> for Early {
    fn from(error: clap::Error) -> Early {
        Early::Usage(error)
    }
}

impl From<Stop> for Early {
    fn from(stop: Stop) -> Early {
        Early::Stop(stop)
    }
}

impl From<AllocError> for Early {
    fn from(_: AllocError) -> Early {
        Early::Stop(Stop::NoMemory)
    }
}

impl From<io::Error> for Early {
    fn from(error: io::Error) -> Early {
        Early::Stop(Stop::from(error))
    }
}

/// Prints why the program ends early, and returns its status.
pub(crate) fn told<R: Eprint + Print>(rt: &R, early: &Early) -> u8 {
    match early {
        Early::Usage(error) => shown(rt, error),
        Early::Stop(stop) => stopped(rt, stop),
    }
}

/// Prints why not all files were explored, and returns the status.
fn stopped(rt: &impl Eprint, stop: &Stop) -> u8 {
    match stop {
        Stop::NoMemory => no_memory(rt),
        Stop::BadBoard => {
            let _ = eprintln!(rt; "sbiboard: bad board");
            1
        }
        Stop::System(error) => {
            let _ = eprintln!(rt; "sbiboard: {error}");
            7
        }
        Stop::Unwritten(Unwritten { path, why }) => {
            let _ = eprintln!(rt; "sbiboard: {path}: {why}");
            7
        }
    }
}

fn no_memory(rt: &impl Eprint) -> u8 {
    let _ = eprintln!(rt; "sbiboard: no memory");
    6
}

/// Prints clap's text for a command line without files to explore, and returns the status.
fn shown<R: Eprint + Print>(rt: &R, error: &clap::Error) -> u8 {
    if error.kind() == ErrorKind::OutOfMemory {
        return no_memory(rt);
    }
    if error.print(rt).is_err() {
        return 7;
    }
    match error.kind() {
        ErrorKind::DisplayHelp | ErrorKind::DisplayVersion => 0,
        _ => 2,
    }
}
