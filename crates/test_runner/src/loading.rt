//! Reads a file with its conditions, or returns why it can't be tested.
ghost use Rattle.std.specs.Prelude.{◌≡◌, IfOk, IfSome, take};
ghost use Rattle.test_runner.specs.Inside.Loaded.{IsLoaded};
ghost use Rattle.test_runner.specs.Reporting.{most_read};

use crate::texts::Texts;
use conditions::{Condition, Wrong, conditions};
use diagnostics::{bad_board, bad_condition, faulty};
use guest_script::{FaultKind, Script, locate};
use std::alloc::{AllocError, Global};
use std::io::{self, ErrorKind, Read};

/// One byte more than a script may have.
const READ_LIMIT: u64 = 16_777_217;

/// A script that can be tested.
#[derive(Drop)]
pub(crate) struct Loaded {
    /// What its bytes are.
    pub(crate) script: Script,
    /// Its conditions.
    pub(crate) conditions: Vec<Condition>,
}

/// Why nothing was loaded.
#[derive(Drop)]
pub(crate) enum Unloaded {
    /// The file can't be tested: the text behind its name, with the place if there is one, and the fault.
    File(String),
    /// Memory was refused.
    NoMemory,
}

impl From<AllocError> for Unloaded {
    fn from(_: AllocError) -> Unloaded {
        Unloaded::NoMemory
    }
}

fn unread(kind: ErrorKind) -> &'static str {
    match kind {
        ErrorKind::NotFound => "no such file",
        ErrorKind::IsADirectory => "is a directory",
        ErrorKind::PermissionDenied => "permission denied",
        _ => "can't be read",
    }
}

/// The bytes of a file, at most one more than a script may have.
pub(crate) fn read<T: Texts>(alloc: Global, texts: &T, file: &str) -> Result<Vec<u8>, Unloaded>
    ensures { IfOk result (λ text. IfSome (T.bytes texts.now file.now) (λ all. text.items ≡ take most_read all)) }
{
    match bytes_of(alloc, texts, file) {
        Ok(text) => Ok(text),
        Err(error) => Err(unreadable(alloc, error.kind())?),
    }
}

fn bytes_of<T: Texts>(alloc: Global, texts: &T, file: &str) -> io::Result<Vec<u8>>
    ensures { IfOk result (λ text. IfSome (T.bytes texts.now file.now) (λ all. text.items ≡ take most_read all)) }
{
    let mut text = Vec::new(alloc);
    texts.open(file)?.take(READ_LIMIT).read_to_end(&mut text)?;
    Ok(text)
}

/// The script that bytes are, and its conditions.
pub(crate) fn load(alloc: Global, text: &[u8]) -> Result<Loaded, Unloaded>
    ensures { IfOk result (IsLoaded text.now) }
{
    let script = match locate(alloc, text) {
        Ok(script) => script,
        Err(found) if found.wrong.fault() == FaultKind::NoMemory => return Err(Unloaded::NoMemory),
        Err(found) => return Err(Unloaded::File(faulty(alloc, text, found)?)),
    };
    if !script.config.is_good() {
        return Err(Unloaded::File(bad_board(alloc, &script.config)?));
    }
    let conditions = match conditions(alloc, text) {
        Ok(conditions) => conditions,
        Err(found) if found.wrong == Wrong::NoMemory => return Err(Unloaded::NoMemory),
        Err(found) => return Err(Unloaded::File(bad_condition(alloc, text, found)?)),
    };
    Ok(Loaded { script, conditions })
}

fn unreadable(alloc: Global, kind: ErrorKind) -> Result<Unloaded, AllocError> {
    if kind == ErrorKind::OutOfMemory {
        return Ok(Unloaded::NoMemory);
    }
    let why = unread(kind);
    Ok(Unloaded::File(format!(in alloc; ": {why}")?))
}
