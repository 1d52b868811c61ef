//! The conditions of a script's text, read from its comments.
ghost use Rattle.std.specs.Prelude.{◌≡◌, ◌≢◌, ◌↔◌, ◌⊎◌, ℕ, IfErr, IfOk, List, MatchOption, MatchResult, false, map, true};
ghost use Rattle.condition_script.specs.FirstFault.{IsFaultColumn, IsFaulty, IsUnreadable};
ghost use Rattle.condition_script.specs.Grammar.{BeginsAsking, IsAsking, IsShebang, IsSilent, ReadsConditions, ConditionValue, asked_words, condition_value, from_comment, is_marked};
ghost use Rattle.condition_script.specs.Inside.Reading.{IsLineRead, IsPut, texts};

use crate::asking::asked_rule;
use crate::beginnings::longest_beginning;
use crate::columns::{behind_blanks, column_behind, from_comment, is_marked};
use crate::faults::{Fault, Unread, Wrong};
use crate::rules::Rule;
use crate::words::{Word, asked_words};
use line_words::next_line;
use std::alloc::Global;

/// A condition of a script.
#[derive(Drop)]
pub struct Condition {
    /// Its line's number, from 1.
    pub line: u64,
    /// `maybe`: it may be about steps that no order has.
    pub is_maybe: bool,
    /// The condition itself.
    pub rule: Rule,
}

/// The conditions of a script's text: its lines that begin with `#!`, blanks aside. `#!/` on the first line is none. A `#!` behind other
/// words is a fault.
///
/// # Errors
///
/// The first condition that can't be read, or an allocation failed.
pub fn conditions(alloc: Global, text: &[u8]) -> Result<Vec<Condition>, Fault>
    // The answer is the conditions that the bytes have.
    ensures conditions { IfOk result (λ found. ReadsConditions text.now (map condition_value found.items)) }
    // Bytes that have conditions are read as those, unless an allocation failed.
    ensures only { (s : List ConditionValue) → ReadsConditions text.now s
        → MatchResult result (λ found. map condition_value found.items ≡ s) (λ e. e.wrong ≡ Wrong.NoMemory) }
    // Any other fault is at the first line that can't be read, and at the first word of it with which no condition goes on.
    ensures fault { IfErr result (λ e. e.wrong ≢ Wrong.NoMemory → IsFaulty text.now e.line e.column) }
{
    let mut found = Vec::new(alloc);
    let mut rest = text;
    let mut line = 1;
    while !rest.is_empty() {
        let (bytes, after) = next_line(rest);
        match read_line(alloc, line, bytes, &mut found) {
            Ok(()) => {}
            Err(unread) => return Err(located(line, unread)),
        }
        rest = after;
        line += 1;
    }
    Ok(found)
}

/// Reads a line, and appends its condition, if it has one.
fn read_line(
    alloc: Global,
    line: u64,
    text: &[u8],
    found: &mut Vec<Condition>,
) -> Result<(), Unread>
    ensures { MatchResult result (λ _. IsPut line text.now found.old.items found.new.items)
        (λ unread. (unread.wrong ≡ Wrong.NoMemory) ⊎ IsUnreadable line text.now unread.column) }
{
    if let Some(condition) = condition_of(alloc, line, text)? {
        found.push(condition)?;
    }
    Ok(())
}

/// The condition of a line, if it has one.
fn condition_of(alloc: Global, line: u64, text: &[u8]) -> Result<Option<Condition>, Unread>
    ensures { IsLineRead line text.now result }
{
    let Some(rest) = asked(line, text) else {
        return Ok(None);
    };
    let words = asked_words(alloc, rest)?;
    condition_in(alloc, line, text, rest, &words)
}

/// The condition that a line's words are, behind `#!`.
fn condition_in(
    alloc: Global,
    line: u64,
    text: &[u8],
    rest: &[u8],
    words: &[Word<'_>],
) -> Result<Option<Condition>, Unread>
    requires asking { IsAsking line text.now rest.now }
    requires words { texts words.now ≡ asked_words rest.now }
    ensures { IsLineRead line text.now result }
{
    match asked_rule(alloc, words) {
        Ok((is_maybe, rule)) => Ok(Some(Condition {
            line,
            is_maybe,
            rule,
        })),
        Err(wrong) => Err(unread(alloc, text, rest, words, wrong)),
    }
}

/// What is wrong with a line's words, and from which column on.
fn unread(alloc: Global, text: &[u8], rest: &[u8], words: &[Word<'_>], wrong: Wrong) -> Unread
    requires { texts words.now ≡ asked_words rest.now }
    ensures { (result.wrong ≡ Wrong.NoMemory) ⊎ ((wrong ≡ Wrong.NoMemory → result.wrong ≡ Wrong.NoMemory) × IsFaultColumn text.now rest.now result.column) }
{
    match longest_beginning(alloc, words) {
        Ok(many) => Unread {
            column: column_behind(text, rest, many),
            wrong: wrong_at(words, many, wrong),
        },
        Err(lacking) => Unread {
            column: 0,
            wrong: lacking,
        },
    }
}

/// What is wrong with a line's words from this one on: of a `#!` that it stands there.
fn wrong_at(words: &[Word<'_>], many: usize, wrong: Wrong) -> Wrong
    ensures { wrong ≡ Wrong.NoMemory → result ≡ Wrong.NoMemory }
{
    match (wrong, words.get(many)) {
        (Wrong::NoMemory, _) => Wrong::NoMemory,
        (_, Some(word)) if word.text == b"#!".as_slice() => Wrong::NotAlone,
        _ => wrong,
    }
}

/// The text behind a line's `#!`, or from it on if it stands behind other words.
fn asked(line: u64, text: &[u8]) -> Option<&[u8]>
    ensures { MatchOption result (IsSilent line text.now) (λ rest. IsAsking line text.now rest.now) }
{
    match asked_in(text) {
        Some(rest) => unless_shebang(line, text, rest),
        None => None,
    }
}

/// What is asked behind a `#!`, unless it names the program that runs the script.
fn unless_shebang<'a>(line: u64, text: &[u8], rest: &'a [u8]) -> Option<&'a [u8]>
    requires { BeginsAsking text.now rest.now }
    ensures { MatchOption result (IsShebang line text.now) (λ found. IsAsking line text.now found.now) }
{
    if is_shebang(line, text) {
        None
    } else {
        Some(rest)
    }
}

/// Whether this line names the program that runs the script.
fn is_shebang(line: u64, text: &[u8]) -> bool
    ensures { (result ≡ true) ↔ IsShebang line text.now }
{
    line == 1 && text.starts_with(b"#!/")
}

/// The same, of any line.
fn asked_in(text: &[u8]) -> Option<&[u8]>
    ensures { MatchOption result ((rest : List ℕ) → BeginsAsking text.now rest → ⊥) (λ rest. BeginsAsking text.now rest.now) }
{
    match behind_blanks(text).strip_prefix(b"#!") {
        Some(rest) => Some(rest),
        None => late_mark(text),
    }
}

/// A line's comment, if it begins with `#!`.
fn late_mark(text: &[u8]) -> Option<&[u8]>
    ensures { MatchOption result (is_marked (from_comment text.now) ≡ false)
        (λ rest. (is_marked (from_comment text.now) ≡ true) × (rest.now ≡ from_comment text.now)) }
{
    let comment = from_comment(text);
    if is_marked(comment) {
        Some(comment)
    } else {
        None
    }
}

/// What can't be read in a line.
fn located(line: u64, unread: Unread) -> Fault
    ensures line { result.line ≡ line }
    ensures column { result.column ≡ unread.column }
    ensures wrong { result.wrong ≡ unread.wrong }
{
    Fault {
        line,
        column: unread.column,
        wrong: unread.wrong,
    }
}
