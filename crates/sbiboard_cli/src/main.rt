//! The program: `sbiboard replay FILE`, `sbiboard check FILE` and `sbiboard run [--keep FILE2] FILE`. It opens the files and
//! standard output, passes them to the library, and exits with the status that the library returns.
#![tactic(auto)]

ghost use Rattle.std.specs.Prelude.{◌^◌, ◌<◌};

use sbiboard::{
    Device, NoOutcome, Open, Outcome, Sink, Source, Subcommand, check, command, ended, replay,
    run_and_keep, run_script,
};
use std::fs::OpenFile;
use std::io::{BufWriter, ErrorKind};
use std::os::unix::fs::MetadataExt;
use std::process::ExitCode;
use std::rt::{Env, Files};
use std::sync::Wait;
use std::thread::Threads;
use std::{env, fs, io};

const BUFFER: usize = 65_536;

fn main(rt: HostRuntime) -> ExitCode {
    ExitCode::from(ended(&rt, asked(&rt)))
}

/// Does what the command line asks for.
fn asked<R: AllocGlobal + Env + Files + Print + Threads + Wait + Sync>(
    rt: &R,
) -> Result<Outcome, NoOutcome>
where
    R::File: Send,
{
    let words = env::args(rt)?.collect::<Vec<String>>(rt.alloc())?;
    let task = command(rt.alloc(), words.as_slice())?;
    let script = script_of(rt, task)?;
    done(rt, task, script)
}

/// Opens the script of a task. The record must not be kept in the script's own file.
fn script_of<R: Files>(rt: &R, task: Subcommand<'_>) -> Result<R::File, NoOutcome> {
    let (Subcommand::Run { file, .. } | Subcommand::Replay(file) | Subcommand::Check(file)) = task;
    let script = fs::open(rt, file)?;
    if let Subcommand::Run {
        keep: Some(path),
        ..
    } = task
        && is_of(rt, &script, path)
    {
        return Err(NoOutcome::System(io::Error::from(ErrorKind::InvalidInput)));
    }
    Ok(script)
}

/// Does a task on its script and standard output.
fn done<R: AllocGlobal + Files + Print + Threads + Wait + Sync>(
    rt: &R,
    task: Subcommand<'_>,
    script: R::File,
) -> Result<Outcome, NoOutcome>
where
    R::File: Send,
{
    let expected = length_of(&script);
    let mut reader = Device::expecting(script, expected);
    let output = BufWriter::with_capacity(rt.alloc(), BUFFER, io::writer(rt))?;
    let mut writer = Device::new(output);
    done_between(rt, task, &mut reader, &mut writer)
}

/// Does a task between a source and a sink.
fn done_between<S: Source, W: Sink, R: AllocGlobal + Files + Threads + Wait + Sync>(
    rt: &R,
    task: Subcommand<'_>,
    reader: &mut S,
    writer: &mut W,
) -> Result<Outcome, NoOutcome>
where
    R::File: Send,
    requires reader_counts { S.failures reader.old < 2 ^ 63 }
    requires writer_counts { W.failures writer.old < 2 ^ 63 }
{
    match task {
        Subcommand::Run { keep, .. } => run(rt, keep, reader, writer),
        Subcommand::Replay(_) => Ok(replay(rt.alloc(), reader, writer)),
        Subcommand::Check(_) => Ok(check(rt.alloc(), reader, writer)),
    }
}

/// Runs a program, and keeps its record in the file of this name, if there is one.
fn run<S: Source, W: Sink, R: AllocGlobal + Files + Threads + Wait + Sync>(
    rt: &R,
    keep: Option<&str>,
    reader: &mut S,
    writer: &mut W,
) -> Result<Outcome, NoOutcome>
where
    R::File: Send,
    requires reader_counts { S.failures reader.old < 2 ^ 63 }
    requires writer_counts { W.failures writer.old < 2 ^ 63 }
{
    match keep {
        Some(path) => Ok(run_and_keep(rt, reader, writer, path)?.reported()),
        None => Ok(run_script(rt, reader, writer, &Open)),
    }
}

/// Whether a path is that of an open file, which a record kept there would overwrite.
fn is_of<R: Files>(rt: &R, file: &R::File, path: &str) -> bool {
    match (file.metadata(), fs::metadata(rt, path)) {
        (Ok(own), Ok(named)) => own.dev() == named.dev() && own.ino() == named.ino(),
        _ => false,
    }
}

/// The length of a file, as the system tells it: a pipe's is 0.
fn length_of(file: &impl OpenFile) -> usize {
    match file.metadata() {
        Ok(found) => usize::try_from(found.len()).unwrap_or(0),
        Err(_) => 0,
    }
}
