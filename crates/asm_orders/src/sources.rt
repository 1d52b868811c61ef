//! A program's text, with the files that it includes.
use crate::reading::{Unloaded, read, too_long, unread};
use asm_tokens::{Mark, Placed, TextPlace, Token, place_at, read_tokens};
use std::alloc::{AllocError, Global};
use std::path::Path;
use std::rt::Files;
use std::str;

/// How many files may include one another.
const DEEPEST: usize = 16;

/// The most bytes of a program with all that it includes.
const MOST_BYTES: usize = 16_777_216;

/// A file of a program.
#[derive(Drop)]
pub(crate) struct SourceFile {
    /// Its name.
    pub(crate) name: String,
    /// Its bytes.
    pub(crate) text: Vec<u8>,
}

/// Bytes of a whole text up to the next stretch: where they begin there, their file, and where they begin in it.
#[derive(Clone, Copy)]
struct Stretch {
    begin: usize,
    file: usize,
    from: usize,
}

/// An `.include` in a text: where it begins and ends, and the name of its file.
#[derive(Clone, Copy)]
struct Include<'a> {
    begin: usize,
    end: usize,
    name: &'a [u8],
}

/// A program's own file, those that it includes, and its whole text, in which these stand in place of each `.include`.
#[derive(Drop)]
pub(crate) struct Sources {
    own: SourceFile,
    others: Vec<SourceFile>,
    /// The whole text.
    pub(crate) text: Vec<u8>,
    stretches: Vec<Stretch>,
}

impl Sources {
    /// A program of one file.
    fn new(alloc: Global, name: &str, bytes: Vec<u8>) -> Result<Sources, AllocError> {
        let mut text = Vec::new(alloc);
        text.extend_from_slice(&bytes)?;
        let own = SourceFile {
            name: String::from_str(alloc, name)?,
            text: bytes,
        };
        Ok(Sources {
            own,
            others: Vec::new(alloc),
            text,
            stretches: Vec::new(alloc),
        })
    }

    /// The name of its own file.
    pub(crate) fn name(&self) -> &str {
        self.own.name.as_str()
    }

    /// Its own file.
    pub(crate) fn own_file(&self) -> &SourceFile {
        &self.own
    }

    /// The bytes of its own file.
    pub(crate) fn own(&self) -> &[u8] {
        &self.own.text
    }

    /// A byte of the whole text, by its line and column there.
    pub(crate) fn byte_at(&self, place: TextPlace) -> usize {
        let mut at: usize = 0;
        for (i, line) in self.text.split(|b| *b == b'\n').enumerate() {
            if i.saturating_add(1) == place.line {
                return at.saturating_add(place.column.saturating_sub(1));
            }
            at = at.saturating_add(line.len()).saturating_add(1);
        }
        at
    }

    /// The file of a byte of the whole text, and the byte's line and column there.
    pub(crate) fn place(&self, at: usize) -> (&SourceFile, TextPlace) {
        let (file, from) = self.origin(at);
        let file = self.file(file);
        let left = file.text.len().saturating_sub(from);
        (file, place_at(&file.text, left))
    }

    /// Whether a byte of the whole text is one of its own file.
    pub(crate) fn is_own(&self, at: usize) -> bool {
        self.origin(at).0 == 0
    }

    /// A file by its number; its own is 0.
    fn file(&self, number: usize) -> &SourceFile {
        match number.checked_sub(1) {
            Some(i) => self.others.get(i).unwrap_or(&self.own),
            None => &self.own,
        }
    }

    /// Takes another whole text, with more files.
    fn become_whole(&mut self, whole: Whole) -> Result<(), AllocError> {
        let Whole {
            text,
            stretches,
            others,
        } = whole;
        for file in others {
            self.others.push(file)?;
        }
        self.text = text;
        self.stretches = stretches;
        Ok(())
    }

    /// The number of a byte's file, and where the byte stands in it.
    fn origin(&self, at: usize) -> (usize, usize) {
        let mut found = (0, at);
        for stretch in &self.stretches {
            if let Some(behind) = at.checked_sub(stretch.begin) {
                found = (stretch.file, stretch.from.saturating_add(behind));
            }
        }
        found
    }
}

/// The files of the program of this name.
pub(crate) fn read_sources<R: AllocGlobal + Files>(
    rt: &R,
    name: &str,
) -> Result<Sources, Unloaded> {
    let alloc = rt.alloc();
    let text = read(rt, name)?;
    let mut all = Sources::new(alloc, name, text)?;
    for _ in 0..DEEPEST {
        if !expand(rt, &mut all)? {
            return Ok(all);
        }
    }
    Err(unread(alloc, name, "too many files include one another")?)
}

/// Puts a file in place of each `.include` of the whole text, and returns whether there was one. A text with a fault has none: the
/// fault is told when it is assembled.
fn expand<R: AllocGlobal + Files>(rt: &R, all: &mut Sources) -> Result<bool, Unloaded> {
    let alloc = rt.alloc();
    let mut whole = Whole::new(alloc);
    let mut from = 0;
    for one in includes(alloc, &all.text)? {
        let file = included(rt, all, one)?;
        whole.put(all, from, one.begin)?;
        whole.put_file(all, file)?;
        from = one.end;
        if whole.text.len() > MOST_BYTES {
            return Err(too_long(alloc, all.name())?);
        }
    }
    if whole.others.is_empty() {
        return Ok(false);
    }
    whole.put(all, from, all.text.len())?;
    all.become_whole(whole)?;
    Ok(true)
}

/// A whole text that is made of another one, and the files that it includes.
#[derive(Drop)]
struct Whole {
    text: Vec<u8>,
    stretches: Vec<Stretch>,
    others: Vec<SourceFile>,
}

impl Whole {
    /// Nothing yet.
    fn new(alloc: Global) -> Whole {
        Whole {
            text: Vec::new(alloc),
            stretches: Vec::new(alloc),
            others: Vec::new(alloc),
        }
    }

    /// Adds bytes of the former text.
    fn put(&mut self, all: &Sources, begin: usize, end: usize) -> Result<(), AllocError> {
        let (file, from) = all.origin(begin);
        let at = self.text.len();
        self.stretches.push(Stretch {
            begin: at,
            file,
            from,
        })?;
        for stretch in &all.stretches {
            if begin < stretch.begin && stretch.begin < end {
                self.stretches.push(Stretch {
                    begin: at.saturating_add(stretch.begin.saturating_sub(begin)),
                    ..*stretch
                })?;
            }
        }
        self.text
            .extend_from_slice(all.text.get(begin..end).unwrap_or(b""))
    }

    /// Adds a file that the former text includes, on lines of its own.
    fn put_file(&mut self, all: &Sources, file: SourceFile) -> Result<(), AllocError> {
        let before = all.others.len().saturating_add(self.others.len());
        self.stretches.push(Stretch {
            begin: self.text.len(),
            file: before.saturating_add(1),
            from: 0,
        })?;
        self.text.extend_from_slice(&file.text)?;
        self.text.push(b'\n')?;
        self.others.push(file)?;
        Ok(())
    }
}

/// The file that an `.include` names: below the folder of the file in which that stands.
fn included<R: AllocGlobal + Files>(
    rt: &R,
    all: &Sources,
    one: Include<'_>,
) -> Result<SourceFile, Unloaded> {
    let alloc = rt.alloc();
    let (file, TextPlace { line, column }) = all.place(one.begin);
    let own = file.name.as_str();
    let name = str::from_utf8(one.name).unwrap_or("");
    let name = beside(alloc, own, name)?;
    let text = match read(rt, name.as_str()) {
        Ok(text) => text,
        Err(Unloaded::NoMemory) => return Err(Unloaded::NoMemory),
        Err(Unloaded::File(why)) => {
            return Err(Unloaded::File(format!(in alloc; "{own}:{line}:{column}: {why}")?));
        }
    };
    match line_of_condition(&text) {
        None => Ok(SourceFile { name, text }),
        Some(line) => Err(Unloaded::File(format!(in alloc;
            "{name}:{line}: conditions stand in the program's own file"
        )?)),
    }
}

/// The name of a file that another one names: one that begins with a slash as it is, any other below the other's folder.
fn beside(alloc: Global, own: &str, name: &str) -> Result<String, AllocError> {
    let mut path = String::new(alloc);
    if !name.starts_with('/') {
        let last = Path::new(own).file_name().unwrap_or(own);
        path.push_str(own.strip_suffix(last).unwrap_or(""))?;
    }
    path.push_str(name)?;
    Ok(path)
}

/// The first line of a text that begins with `#!`, from 1.
fn line_of_condition(text: &[u8]) -> Option<usize> {
    let at = text
        .split(|b| *b == b'\n')
        .position(|line| line.trim_ascii_start().starts_with(b"#!"))?;
    Some(at.saturating_add(1))
}

/// Each `.include "NAME"` of a text that is a whole statement.
fn includes<'a>(alloc: Global, text: &'a [u8]) -> Result<Vec<Include<'a>>, AllocError> {
    let mut all = Vec::new(alloc);
    let Ok(tokens) = read_tokens(alloc, text) else {
        return Ok(all);
    };
    let mut is_begin = true;
    for (i, first) in tokens.iter().enumerate() {
        if is_begin && let Some(one) = include_at(text.len(), tokens.get(i..).unwrap_or(&[])) {
            all.push(one)?;
        }
        is_begin = matches!(first.token, Token::End | Token::Mark(Mark::Colon));
    }
    Ok(all)
}

/// The `.include "NAME"` that tokens begin with, if it is a whole statement; `len` is the number of the text's bytes.
fn include_at<'a>(len: usize, tokens: &[Placed<'a>]) -> Option<Include<'a>> {
    let word = tokens.first()?;
    let said = tokens.get(1)?;
    let (Token::Word(b".include"), Token::Text(name)) = (word.token, said.token) else {
        return None;
    };
    let is_whole = match tokens.get(2) {
        Some(behind) => matches!(behind.token, Token::End),
        None => true,
    };
    if !is_whole {
        return None;
    }
    let begin = len.saturating_sub(said.left);
    Some(Include {
        begin: len.saturating_sub(word.left),
        end: begin.saturating_add(name.len()).saturating_add(2),
        name,
    })
}
