//! Where instructions stand in a program's text.
use crate::answers::Search;
use crate::loader::IN_LOADER;
use asm_guests::Code;
use asm_tokens::TextPlace;
use diagnostics::Case;
use std::alloc::AllocError;
use std::fmt::Write;
use std::path::Path;

/// Adds the file, the line and the text of the instruction at an address: `a.s:12: ld t0, 8(s0)`; of the loader that it is one; or
/// the address, if no instruction is there.
///
/// # Errors
///
/// Memory was refused.
pub(crate) fn put_source<C: Code>(
    search: &Search<'_, C>,
    pc: u64,
    out: &mut String,
) -> Result<(), AllocError> {
    let at = match byte_of(search, pc) {
        Some(Place::Byte(at)) => at,
        Some(Place::Loader) => return out.push_str("the loader"),
        None => return write!(out, "{pc:#x}"),
    };
    let (file, TextPlace { line, .. }) = search.sources.place(at);
    let name = file.name.as_str();
    put_word(Path::new(name).file_name().unwrap_or(""), out)?;
    write!(out, ":{line}:")?;
    let case = Case {
        file: name,
        text: &file.text,
        conditions: &[],
    };
    for word in case.said_at(line as u64).split_whitespace() {
        out.push(' ')?;
        put_word(word, out)?;
    }
    Ok(())
}

/// The line of the instruction at an address in the program's own file; 0 if it stands elsewhere, or none is there.
pub(crate) fn number_of<C: Code>(search: &Search<'_, C>, pc: u64) -> u64 {
    match byte_of(search, pc) {
        Some(Place::Byte(at)) if search.sources.is_own(at) => {
            search.sources.place(at).1.line as u64
        }
        _ => 0,
    }
}

/// Where an instruction stands.
#[derive(Clone, Copy)]
enum Place {
    /// At this byte of the whole text.
    Byte(usize),
    /// In the loader.
    Loader,
}

/// Where the instruction at an address stands, if there is one. Of two at one address the first counts.
fn byte_of<C: Code>(search: &Search<'_, C>, pc: u64) -> Option<Place> {
    let line = search.lines.iter().find(|line| line.at == pc)?;
    if line.left == IN_LOADER {
        return Some(Place::Loader);
    }
    Some(Place::Byte(search.sources.text.len().saturating_sub(line.left)))
}

/// Adds a word as a trace may have it: printable, of ASCII.
fn put_word(word: &str, out: &mut String) -> Result<(), AllocError> {
    for letter in word.chars() {
        out.push(if letter.is_ascii_graphic() {
            letter
        } else {
            '?'
        })?;
    }
    Ok(())
}
