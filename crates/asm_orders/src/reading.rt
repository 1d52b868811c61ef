//! Reads files.
use std::alloc::{AllocError, Global};
use std::fs;
use std::io::{self, ErrorKind, Read};
use std::rt::Files;

/// The most bytes of a file.
const MOST_BYTES: usize = 16_777_216;

/// Why nothing was loaded.
#[derive(Drop)]
pub(crate) enum Unloaded {
    /// A file can't be explored: its name, the place if there is one, and the fault.
    File(String),
    /// Memory was refused.
    NoMemory,
}

impl From<AllocError> for Unloaded {
    fn from(_: AllocError) -> Unloaded {
        Unloaded::NoMemory
    }
}

/// The bytes of a file.
pub(crate) fn read<R: AllocGlobal + Files>(rt: &R, name: &str) -> Result<Vec<u8>, Unloaded> {
    let alloc = rt.alloc();
    let text = match bytes_of(rt, name) {
        Ok(text) => text,
        Err(error) => return Err(unreadable(alloc, name, error.kind())?),
    };
    if text.len() > MOST_BYTES {
        return Err(too_long(alloc, name)?);
    }
    Ok(text)
}

/// A file with too many bytes.
pub(crate) fn too_long(alloc: Global, name: &str) -> Result<Unloaded, AllocError> {
    unread(alloc, name, "more than 16,777,216 bytes")
}

/// A file that can't be read, by the kind of the error.
fn unreadable(alloc: Global, name: &str, kind: ErrorKind) -> Result<Unloaded, AllocError> {
    if kind == ErrorKind::OutOfMemory {
        return Ok(Unloaded::NoMemory);
    }
    unread(alloc, name, why_unread(kind))
}

/// The bytes of a file, and one more than it may have.
fn bytes_of<R: AllocGlobal + Files>(rt: &R, name: &str) -> io::Result<Vec<u8>> {
    let mut text = Vec::new(rt.alloc());
    fs::open(rt, name)?
        .take(MOST_BYTES as u64 + 1)
        .read_to_end(&mut text)?;
    Ok(text)
}

fn why_unread(kind: ErrorKind) -> &'static str {
    match kind {
        ErrorKind::NotFound => "no such file",
        ErrorKind::IsADirectory => "is a directory",
        ErrorKind::PermissionDenied => "permission denied",
        _ => "can't be read",
    }
}

/// A file that can't be explored, and why.
pub(crate) fn unread(alloc: Global, name: &str, why: &str) -> Result<Unloaded, AllocError> {
    Ok(Unloaded::File(format!(in alloc; "{name}: {why}")?))
}
