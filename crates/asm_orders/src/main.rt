//! The program behind `sbiboard explore FILE.s` and `sbiboard test FILE.s`. It looks at orders of programs in assembly, judges their
//! conditions, and prints points of the Test Anything Protocol.
#![tactic(auto)]

mod answers;
mod early;
mod ends;
mod exploring;
mod finding;
mod judging;
mod loader;
mod loading;
mod loose_records;
mod loosely;
mod marked;
mod naming;
mod reading;
mod records;
mod source;
mod sources;
mod standing;
mod telling;
mod trying;
mod words;

use early::{Early, told};
use exploring::explore_all;
use std::env;
use std::process::ExitCode;
use std::rt::{Env, Files};
use test_report::Status;
use words::wanted_by;

fn main(rt: HostRuntime) -> ExitCode {
    ExitCode::from(match run(&rt) {
        Ok(Status::AllHold) => 0,
        Ok(Status::SomeFail) => 1,
        Ok(Status::NotJudged) => 8,
        Err(early) => told(&rt, &early),
    })
}

/// Does what the command line asks for, and returns the verdict on all points.
fn run<R: AllocGlobal + Env + Eprint + Files + Print>(rt: &R) -> Result<Status, Early> {
    let words = env::args(rt)?.collect::<Vec<String>>(rt.alloc())?;
    let wanted = wanted_by(rt.alloc(), words.as_slice())?;
    Ok(explore_all(rt, &wanted)?)
}
