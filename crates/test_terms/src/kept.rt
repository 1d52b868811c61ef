//! Records that points keep in files.
use crate::files::is_one_of;
use crate::trial::Trial;
use board_core::Event;
use guest_programs::End;
use std::alloc::{AllocError, Global};
use std::fs;
use std::io::{self, ErrorKind};
use std::rt::Files;
use test_report::{Detail, RecordParts, Unwritten, record, stuck_harts};

/// How many steps are shown before and behind the one that fails.
const AROUND: usize = 6;

/// Writes a record into a file whose name ends with this label. It adds the file's name, the steps around the one at this
/// place, and why the record ended stuck, if it did. They are added also if the file can't be written.
///
/// # Errors
///
/// Memory was refused.
pub fn keep<R: AllocGlobal + Files>(
    trial: &Trial<'_, R>,
    label: &str,
    kept: RecordParts<'_>,
    place: Option<usize>,
    details: &mut Vec<Detail>,
) -> Result<(), AllocError> {
    let alloc = trial.rt.alloc();
    let folder = trial.options.failed;
    let name = trial.record;
    let path = format!(in alloc; "{folder}/{name}{label}")?;
    let bytes = record(alloc, kept)?;
    let unwritten = match write(trial, path.as_str(), &bytes) {
        Ok(()) => None,
        Err(error) => Some(Unwritten::new(alloc, path.as_str(), &error)?),
    };
    details.push(Detail::Record(path))?;
    if let Some(unwritten) = unwritten {
        details.push(Detail::Unwritten(unwritten))?;
    }
    if let Some(place) = place {
        details.push(Detail::Steps(place, around(alloc, kept.events, place)?))?;
    }
    if kept.end == Some(End::Stuck) {
        details.push(Detail::Stuck(stuck_harts(alloc, &trial.case, kept.board)?))?;
    }
    Ok(())
}

/// Writes a file, which must not be one of the tested files.
fn write<R: Files>(trial: &Trial<'_, R>, path: &str, bytes: &[u8]) -> io::Result<()> {
    if is_one_of(trial.rt, path, &trial.options.files) {
        return Err(io::Error::from(ErrorKind::AlreadyExists));
    }
    fs::write(trial.rt, path, bytes)
}

/// The steps around one, each with its place, from 0.
fn around(
    alloc: Global,
    events: &[Event],
    place: usize,
) -> Result<Vec<(usize, Event)>, AllocError> {
    let mut found = Vec::new(alloc);
    let from = place.saturating_sub(AROUND);
    let last = place.saturating_add(AROUND);
    for (k, event) in events.iter().enumerate() {
        if from <= k && k <= last {
            found.push((k, *event))?;
        }
    }
    Ok(found)
}
