//! How the program ends: its message, and its status.
ghost use Rattle.std.specs.Prelude.{◌≡◌};
ghost use Rattle.script_tasks.specs.Outcomes.{EndsWith, IsMemory, StopsWith, status_of, usage_status};
ghost use Rattle.script_tasks.specs.declared.ending.NoOutcome.TheVariants.{System, Usage};

use crate::outcome::Outcome;
use clap::error::ErrorKind;
use std::alloc::AllocError;
use std::io;
use thiserror::Error;

/// Why the program ended without an outcome of its task.
#[derive(Debug, Drop, Error)]
pub enum NoOutcome {
    /// The command line names no task: it asks for help or the version, or has a fault of usage.
    #[error(transparent)]
    Usage(clap::Error),
    /// A call of the system failed.
    #[error(transparent)]
    System(io::Error),
}

impl From<clap::Error> for NoOutcome {
    ghost from_gives = { λ error stop. stop ≡ Usage error };

    fn from(error: clap::Error) -> NoOutcome {
        NoOutcome::Usage(error)
    }
}

impl From<io::Error> for NoOutcome {
    ghost from_gives = { λ error stop. stop ≡ System error };

    fn from(error: io::Error) -> NoOutcome {
        NoOutcome::System(error)
    }
}

impl From<AllocError> for NoOutcome {
    ghost from_gives = { λ _ stop. IsMemory stop };

    fn from(refused: AllocError) -> NoOutcome {
        NoOutcome::System(io::Error::from(refused))
    }
}

/// Prints how the program ended, and returns its exit status (profile). An outcome that isn't good is a line on standard error.
/// For a command line without a task, clap's text is printed; help and the version go to standard output.
pub fn ended<R: Eprint + Print>(rt: &R, run: Result<Outcome, NoOutcome>) -> u8
    ensures { EndsWith run result }
{
    match run {
        Ok(outcome) => report(rt, outcome),
        Err(NoOutcome::System(error)) => report(rt, Outcome::from(error)),
        Err(NoOutcome::Usage(error)) => shown(rt, &error),
    }
}

/// Prints clap's text for a command line without a task, and returns the status.
fn shown<R: Eprint + Print>(rt: &R, error: &clap::Error) -> u8
    ensures { StopsWith (Usage error.now) result }
{
    let kind = error.kind();
    if kind == ErrorKind::OutOfMemory {
        return report(rt, Outcome::NoMemory);
    }
    match error.print(rt) {
        Ok(()) => usage_status(kind),
        Err(error) => report(rt, Outcome::from(error)),
    }
}

/// Prints an outcome on standard error if it has a line, and returns its status.
fn report<R: Eprint>(rt: &R, outcome: Outcome) -> u8
    ensures { result ≡ status_of outcome }
{
    if outcome.is_reported() {
        let _ = eprintln!(rt; "sbiboard: {outcome}");
    }
    outcome.status()
}

/// The status of clap's text for a command line without a task.
fn usage_status(kind: ErrorKind) -> u8
    ensures { result ≡ usage_status kind }
{
    match kind {
        ErrorKind::DisplayHelp | ErrorKind::DisplayVersion => 0,
        ErrorKind::OutOfMemory => 6,
        _ => 2,
    }
}
