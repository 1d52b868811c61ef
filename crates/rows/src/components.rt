//! What no schedule shows of the components: sets at the edges of their words, resets, the last moments of the time,
//! and the numbers and texts of errors.

use board_core::{BuildFault, Refusal};
use guest_script::{FaultKind, ScriptFault};
use hart_mask::{HartSet, InvalidParam};
use hsm::AlreadyAvailable;
use interrupts::{Ipis, TimeFull, Timers};
use monitor::Failed;
use sbi_abi::SbiError;
use sbiboard::{NoOutcome, Outcome, ReadFault, ended};
use std::alloc::AllocError;
use std::fmt::Display;
use std::io::{self, ErrorKind};
use sv39::{Leaf, Level};
use tlb_model::Entry;

/// Shows a set's size, and its ids in their order.
fn show_set<R: Print>(rt: &R, name: &str, set: HartSet) -> io::Result<()> {
    print!(rt; "{name}: {} of", set.len())?;
    for id in set.iter() {
        print!(rt; " {id}")?;
    }
    println!(rt; "")
}

/// Sets with the first and last ids of their two words.
pub fn show_sets<R: Print>(rt: &R) -> io::Result<()> {
    let mut set = HartSet::new();
    show_set(rt, "new", set)?;
    set.insert(127);
    set.insert(64);
    set.insert(63);
    set.insert(0);
    set.insert(64);
    show_set(rt, "inserted", set)?;
    let low = HartSet::below(64);
    show_set(rt, "union", low.union(set))?;
    show_set(rt, "intersection", low.intersection(set))?;
    set.remove(63);
    show_set(rt, "removed", set)?;
    let first = set.pop_first();
    show_set(rt, "without its first", set)?;
    set.remove(64);
    let last = set.pop_first();
    let is_default = set == HartSet::default();
    println!(rt; "popped: {first:?} {last:?} {:?}", set.pop_first())?;
    println!(rt; "emptied: {} {is_default}", set.is_empty())
}

/// Shows which of these harts have a pending software interrupt.
fn show_ipis<R: Print>(rt: &R, name: &str, ipis: &Ipis) -> io::Result<()> {
    print!(rt; "{name}:")?;
    for h in [0, 64, 127] {
        print!(rt; " {}", ipis.pending(h))?;
    }
    println!(rt; "")
}

/// Software interrupts that are sent, cleared and reset; a copy is a value of its own.
pub fn show_software_interrupts<R: Print>(rt: &R) -> io::Result<()> {
    let mut ipis = Ipis::new();
    let mut targets = HartSet::new();
    targets.insert(0);
    targets.insert(127);
    ipis.send(targets);
    targets.remove(127);
    ipis.send(targets);
    let copy = ipis;
    ipis.clear(0);
    show_ipis(rt, "cleared", &ipis)?;
    show_ipis(rt, "copy", &copy)?;
    ipis.reset();
    show_ipis(rt, "reset", &ipis)
}

/// What is done to timers.
#[derive(Clone, Copy)]
enum Turn {
    Set(u64, u64),
    Forget(u64),
    Tick(u64),
    Reset,
}

const TURNS: [Turn; 13] = [
    Turn::Set(0, 0),
    Turn::Set(1, 1),
    Turn::Set(2, u64::MAX),
    Turn::Tick(1),
    Turn::Set(1, 2),
    Turn::Forget(0),
    Turn::Tick(u64::MAX - 1),
    Turn::Tick(u64::MAX - 2),
    Turn::Tick(1),
    Turn::Tick(0),
    Turn::Set(0, u64::MAX - 1),
    Turn::Reset,
    Turn::Tick(1),
];

/// Makes a turn, and answers whether it was accepted.
fn turned(timers: &mut Timers, turn: Turn) -> bool {
    let harts = timers.len();
    match turn {
        Turn::Set(h, deadline) if h < harts => timers.set(h, deadline),
        Turn::Forget(h) if h < harts => timers.forget(h),
        Turn::Tick(n) => return timers.tick(n).is_ok(),
        Turn::Reset => timers.reset(),
        Turn::Set(..) | Turn::Forget(_) => return false,
    }
    true
}

/// The timers of three harts after each turn: the time, and each hart's deadline with whether it has come.
pub fn show_timers<R: AllocGlobal + Print>(rt: &R) -> io::Result<()> {
    let mut timers = Timers::new(rt.alloc(), 3)?;
    for turn in TURNS {
        let is_accepted = turned(&mut timers, turn);
        print!(rt; "{is_accepted} {:#x}", timers.time())?;
        for h in 0..timers.len() {
            print!(rt; " {:?} {}", timers.deadline(h), timers.pending(h))?;
        }
        println!(rt; "")?;
    }
    Ok(())
}

/// Prints the number and the text of an error.
fn show_error<R: Print, N: Display, E: Display>(rt: &R, number: &N, error: &E) -> io::Result<()> {
    println!(rt; "{number} {error}")
}

/// The numbers and texts of the components' errors.
pub fn show_errors<R: Print>(rt: &R) -> io::Result<()> {
    for error in [
        SbiError::Failed,
        SbiError::NotSupported,
        SbiError::InvalidParam,
        SbiError::Denied,
        SbiError::InvalidAddress,
        SbiError::AlreadyAvailable,
        SbiError::AlreadyStarted,
        SbiError::AlreadyStopped,
        SbiError::from(InvalidParam),
        SbiError::from(AlreadyAvailable),
    ] {
        show_error(rt, &error.number(), &error)?;
    }
    for refusal in [
        Refusal::Off,
        Refusal::WrongPhase,
        Refusal::Nothing,
        Refusal::HistoryFull,
        Refusal::TimeFull,
    ] {
        show_error(rt, &refusal.number(), &refusal)?;
    }
    for fault in [
        BuildFault::BadConfig,
        BuildFault::NoMemory,
        BuildFault::CutFull,
    ] {
        show_error(rt, &fault.number(), &fault)?;
    }
    println!(rt; "{InvalidParam}; {AlreadyAvailable}; {TimeFull}")
}

/// The numbers and texts of the faults of scripts and of reading.
pub fn show_faults<R: Print>(rt: &R) -> io::Result<()> {
    for fault in [
        FaultKind::BadByte,
        FaultKind::NoBoardLine,
        FaultKind::UnknownWord,
        FaultKind::BadNumber,
        FaultKind::WordCount,
        FaultKind::OtherKind,
        FaultKind::SecondBlock,
        FaultKind::TooLong,
        FaultKind::NoMemory,
    ] {
        let found = ScriptFault { line: 3, fault };
        println!(rt; "{} {} {found}", fault.number(), found.number())?;
    }
    let fault = ReadFault::Script(ScriptFault {
        line: 3,
        fault: FaultKind::BadByte,
    });
    println!(rt; "{Failed}; {}; {fault}", ReadFault::Failed)
}

/// The status and the text of each outcome, and of failures of the system. What is said of each stands on standard
/// error.
pub fn show_endings<R: Print + Eprint>(rt: &R) -> io::Result<()> {
    for outcome in [
        Outcome::Good,
        Outcome::Script {
            line: 12,
            number: 5,
        },
        Outcome::BadBoard,
        Outcome::WrongKind,
        Outcome::HistoryFull,
        Outcome::Differs,
        Outcome::NoMemory,
        Outcome::Io,
    ] {
        println!(rt; "{} {} {outcome}", ended(rt, Ok(outcome)), outcome.status())?;
    }
    for kind in [
        ErrorKind::NotFound,
        ErrorKind::IsADirectory,
        ErrorKind::InvalidData,
        ErrorKind::Interrupted,
        ErrorKind::OutOfMemory,
    ] {
        let stop = NoOutcome::from(io::Error::from(kind));
        println!(rt; "{} {kind:?}", ended(rt, Err(stop)))?;
    }
    println!(rt;
        "{} refused memory",
        ended(rt, Err(NoOutcome::from(AllocError)))
    )
}

const LEAF: Leaf = Leaf {
    page: 0x1000,
    pa: 0x8000_0000,
    level: Level::Mega,
    global: true,
    r: true,
    w: false,
    x: true,
    d: false,
};

/// What `Debug` writes of an entry, which is kept smaller than it is told.
pub fn show_entry<R: Print>(rt: &R) -> io::Result<()> {
    println!(rt; "{:?}", Entry::new(LEAF, 5))
}
