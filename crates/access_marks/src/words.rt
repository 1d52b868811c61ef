//! Words of which an instruction cache may hold another than the memory's.
ghost use Rattle.std.specs.Prelude.{◌≡◌, IfOk};
ghost use Rattle.tlb_watch.specs.declared.effect.CacheEffect.TheVariants.{Applied};
ghost use Rattle.access_marks.specs.declared.words.WordNote.TheVariants.{Changed, Fenced};
ghost use Rattle.access_marks.specs.Inside.Words.{differs, differs_by, is_note, with_change, with_effect, with_note};

use std::alloc::AllocError;
use tlb_model::Flush;
use tlb_watch::{CacheEffect, HartAddress};

/// What parts instruction caches from the memory, or brings them together.
#[derive(Clone, Copy, PartialEq, Eq)]
pub(crate) enum WordNote {
    /// The memory's word at this physical address changed.
    Changed(u128),
    /// A FENCE.I was applied at this hart.
    Fenced(u64),
}

/// Notes that the word at a physical address changed, if one did.
///
/// # Errors
///
/// Out of memory.
pub(crate) fn note_change(
    notes: &mut Vec<WordNote>,
    changed: Option<u128>,
) -> Result<(), AllocError>
    ensures { IfOk result (λ _. notes.new.items ≡ with_change changed notes.old.items) }
{
    if let Some(at) = changed {
        note(notes, WordNote::Changed(at))?;
    }
    Ok(())
}

/// Notes what an event did to the harts' caches.
///
/// # Errors
///
/// Out of memory.
pub(crate) fn note_effect(notes: &mut Vec<WordNote>, effect: CacheEffect) -> Result<(), AllocError>
    ensures { IfOk result (λ _. notes.new.items ≡ with_effect effect notes.old.items) }
{
    match effect {
        CacheEffect::Nothing => {}
        CacheEffect::Applied(hart, flush) => note_fence(notes, hart, flush)?,
        CacheEffect::Reset => notes.clear(),
    }
    Ok(())
}

/// Notes a fence at a hart, if it is a FENCE.I.
///
/// # Errors
///
/// Out of memory.
fn note_fence(notes: &mut Vec<WordNote>, hart: u64, flush: Flush) -> Result<(), AllocError>
    ensures { IfOk result (λ _. notes.new.items ≡ with_effect (Applied hart flush) notes.old.items) }
{
    match flush {
        Flush::Words => note(notes, WordNote::Fenced(hart))?,
        Flush::Entries(_) => {}
    }
    Ok(())
}

/// Adds a note, and drops an older one that is the same: so there are no more notes than words and harts.
///
/// # Errors
///
/// Out of memory.
fn note(notes: &mut Vec<WordNote>, note: WordNote) -> Result<(), AllocError>
    ensures { IfOk result (λ _. notes.new.items ≡ with_note note notes.old.items) }
{
    notes.retain(|other| !is_note(note, *other));
    notes.push(note)?;
    Ok(())
}

/// Whether a note is this one.
fn is_note(note: WordNote, other: WordNote) -> bool
    ensures { result ≡ is_note note other }
{
    match note {
        WordNote::Changed(at) => is_change(at, other),
        WordNote::Fenced(hart) => is_fence(hart, other),
    }
}

/// Whether a note is that the word at this physical address changed.
fn is_change(at: u128, note: WordNote) -> bool
    ensures { result ≡ is_note (Changed at) note }
{
    match note {
        WordNote::Changed(place) => place == at,
        WordNote::Fenced(_) => false,
    }
}

/// Whether a note is of a FENCE.I at this hart.
fn is_fence(hart: u64, note: WordNote) -> bool
    ensures { result ≡ is_note (Fenced hart) note }
{
    match note {
        WordNote::Changed(_) => false,
        WordNote::Fenced(other) => other == hart,
    }
}

/// Whether the hart's instruction cache may hold another word of the physical address than the memory's.
pub(crate) fn differs(notes: &[WordNote], at: HartAddress) -> bool
    ensures { result ≡ differs notes.now at.hart at.address }
{
    let mut found = false;
    for note in notes {
        found = differs_by(at, found, *note);
    }
    found
}

/// The same after one note more.
fn differs_by(at: HartAddress, before: bool, note: WordNote) -> bool
    ensures { result ≡ differs_by at.hart at.address before note }
{
    match note {
        WordNote::Changed(place) => before || place == u128::from(at.address),
        WordNote::Fenced(hart) => before && hart != at.hart,
    }
}
