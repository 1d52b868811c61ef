//! The program behind `sbiboard test` and `sbiboard explore`. It explores all orders of programs or tries some, replays
//! schedules, and compares traces. It judges the records by the scripts' conditions, and prints points of the Test Anything
//! Protocol.
#![tactic(auto)]

mod command_line;
mod early;
mod folder;

use command_line::options_of;
use early::{Early, told};
use folder::Folder;
use std::env;
use std::io::{self, IsTerminal};
use std::process::ExitCode;
use std::rt::{Clock, Env, Files};
use std::sync::Wait;
use std::thread::Threads;
use test_report::Status;
use test_runner::test_all;
use test_terms::Screen;

fn main(rt: HostRuntime) -> ExitCode {
    let screen = Screen {
        is_read: rt.stdout().is_terminal(),
        is_watched: rt.stderr().is_terminal(),
    };
    ExitCode::from(match run(&rt, screen) {
        Ok(Status::AllHold) => 0,
        Ok(Status::SomeFail) => 1,
        Ok(Status::NotJudged) => 8,
        Err(early) => told(&rt, &early),
    })
}

/// Does what the command line asks for, and returns the verdict on all points.
fn run<R: AllocGlobal + Clock + Env + Eprint + Files + Print + Sync + Threads + Wait>(
    rt: &R,
    screen: Screen,
) -> Result<Status, Early> {
    let words = env::args(rt)?.collect::<Vec<String>>(rt.alloc())?;
    let options = options_of(rt, words.as_slice(), screen)?;
    Ok(test_all(rt, &Folder { rt }, &options, &mut io::writer(rt))?)
}
