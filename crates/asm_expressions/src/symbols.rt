//! Symbols, and the words that name them.
ghost use Rattle.std.specs.Prelude.{◌≡◌, None, map, option_map};
ghost use Rattle.asm_expressions.specs.Symbols.{context_of, direction_of, first_below, last_label_above, local_label, symbol_named, named_of, symbol_value};

use asm_tokens::is_local_label;

/// A symbol: a label, a local label, or a name with a value (GNU as, Labels, Local Labels, .set).
#[derive(Clone, Copy)]
pub struct Symbol<'a> {
    /// Its name; of a local label its digits.
    pub name: &'a [u8],
    /// Its value.
    pub value: u64,
    /// The number of the statement that defines it.
    pub statement: usize,
}

/// An `auipc` with `%pcrel_hi(..)` (RISC-V psABI, PC-Relative Symbol Addresses).
#[derive(Clone, Copy, PartialEq, Eq)]
pub struct PcrelHigh {
    /// Its address.
    pub at: u64,
    /// How far its symbol is from there.
    pub distance: u64,
}

/// Where an expression stands, and what is known there.
#[derive(Clone, Copy)]
pub struct Scope<'s, 'a> {
    /// The symbols, in the order of their statements.
    pub symbols: &'s [Symbol<'a>],
    /// Each `auipc` with `%pcrel_hi(..)`, once all symbols are known.
    pub highs: &'s [PcrelHigh],
    /// The number of the expression's statement.
    pub statement: usize,
    /// The address of the statement, which `.` names.
    pub here: u64,
    /// The number of bytes from the end of the statement to the end of the text.
    pub end: usize,
}

/// Where a local label is looked for.
#[derive(Clone, Copy, PartialEq, Eq)]
enum Direction {
    /// `1b`: it is the last one above.
    Backward,
    /// `1f`: it is the first one below.
    Forward,
}

/// The value of the symbol, or the local label, that a word names.
pub(crate) fn symbol_value(scope: &Scope<'_, '_>, word: &[u8]) -> Option<u64>
    ensures { result ≡ symbol_value (context_of scope.now) word.now }
{
    let Some((digits, direction)) = local_label(word) else {
        return first_named(scope.symbols, word);
    };
    match direction {
        Direction::Backward => last_label_above(scope.symbols, digits, scope.statement),
        Direction::Forward => first_below(scope.symbols, digits, scope.statement),
    }
}

/// The digits of a word that names a local label, and its direction.
fn local_label(word: &[u8]) -> Option<(&[u8], Direction)>
    ensures { option_map (λ found. (found.0.now, found.1)) result ≡ local_label word.now }
{
    if !is_local_label(word) {
        return None;
    }
    match word {
        [digits @ .., last] => Some((digits, direction_of(*last))),
        [] => None,
    }
}

/// The direction that the last byte of a local label's name says.
fn direction_of(last: u8) -> Direction
    ensures { result ≡ direction_of last }
{
    if last == b'b' {
        Direction::Backward
    } else {
        Direction::Forward
    }
}

/// The value of the first symbol of this name.
pub fn first_named(symbols: &[Symbol<'_>], name: &[u8]) -> Option<u64>
    ensures { result ≡ symbol_named name.now (map named_of symbols.now) }
{
    for symbol in symbols {
        if symbol.name == name {
            return Some(symbol.value);
        }
    }
    None
}

/// The value of the last symbol with these digits up to this statement.
fn last_label_above(symbols: &[Symbol<'_>], digits: &[u8], statement: usize) -> Option<u64>
    ensures { result ≡ last_label_above digits.now statement None (map named_of symbols.now) }
{
    let mut last = None;
    for symbol in symbols {
        if symbol.name == digits && symbol.statement <= statement {
            last = Some(symbol.value);
        }
    }
    last
}

/// The value of the first symbol with these digits behind this statement.
fn first_below(symbols: &[Symbol<'_>], digits: &[u8], statement: usize) -> Option<u64>
    ensures { result ≡ first_below digits.now statement (map named_of symbols.now) }
{
    for symbol in symbols {
        if symbol.name == digits && symbol.statement > statement {
            return Some(symbol.value);
        }
    }
    None
}
