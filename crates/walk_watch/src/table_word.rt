//! A word of a page table, as walks read it (Privileged 4.3.1, 4.3.2).
ghost use Rattle.std.specs.Prelude.{◌≡◌, ◌<◌, ◌*◌, ◌^◌, Some};
ghost use Rattle.sv39.specs.Entries.{has_bit, is_aligned, is_leaf, is_pointer, is_present, leaf_of, page_number};
ghost use Rattle.sv39.specs.Maps.{is_some_global, is_some_pointer, outcome, table_of};
ghost use Rattle.any_tlb.specs.Mixed.{is_end_global};

use sv39::{Cause, Kind, Leaf, Level, PAGE_BYTES};

// The bits of a word (Privileged 4.3.1).

const V: u64 = 0;

const R: u64 = 1;

const W: u64 = 2;

const X: u64 = 3;

const U: u64 = 4;

const G: u64 = 5;

const A: u64 = 6;

const D: u64 = 7;

/// Whether a word is in the RAM, and a valid pointer at this level.
pub(crate) fn is_pointer(word: Option<u64>, level: Level) -> bool
    ensures { result ≡ is_some_pointer level word }
{
    match word {
        Some(word) => is_pointer_at(word, level),
        None => false,
    }
}

/// Whether a word is in the RAM, and has G.
pub(crate) fn is_global(word: Option<u64>) -> bool
    ensures { result ≡ is_some_global word }
{
    match word {
        Some(word) => has(word, G),
        None => false,
    }
}

/// Whether a walk that ends at a word meets G there: the word is in the RAM, and has V and G. Without V the other bits are
/// software's (Privileged 4.3.1).
pub(crate) fn is_end_global(word: Option<u64>) -> bool
    ensures { result ≡ is_end_global word }
{
    match word {
        Some(word) => has(word, V) && has(word, G),
        None => false,
    }
}

/// The table that a word points to.
pub(crate) fn table_of(word: Option<u64>) -> u64
    ensures table { result ≡ table_of word }
    ensures small { result < 2 ^ 56 }
{
    match word {
        Some(word) => address(word),
        None => 0,
    }
}

/// The result of a walk that ends at this word (Privileged 4.3.2).
pub(crate) fn outcome(
    word: Option<u64>,
    va: u64,
    kind: Kind,
    level: Level,
    global: bool,
) -> Result<Leaf, Cause>
    ensures { result ≡ outcome word va kind level global }
{
    match word {
        Some(word) => outcome_of(word, va, kind, level, global),
        None => Err(kind.access_fault()),
    }
}

/// The same of a word in the RAM.
fn outcome_of(word: u64, va: u64, kind: Kind, level: Level, global: bool) -> Result<Leaf, Cause>
    ensures { result ≡ outcome (Some word) va kind level global }
{
    if !is_leaf(word, level) {
        return Err(kind.page_fault());
    }
    let mapped = leaf(word, va, level, global);
    if mapped.allows(kind) {
        Ok(mapped)
    } else {
        Err(kind.page_fault())
    }
}

/// Whether the bit is 1.
fn has(word: u64, bit: u64) -> bool
    requires { bit < 64 }
    ensures { result ≡ has_bit bit word }
{
    word >> bit & 1 == 1
}

/// The physical address of the page that the word's PPN names.
fn address(word: u64) -> u64
    ensures page { result ≡ PAGE_BYTES * page_number word }
    ensures small { result < 2 ^ 56 }
{
    (word >> 10) % (1 << 44) * PAGE_BYTES
}

/// V is 1, and bits 63 to 54 are 0.
fn is_present(word: u64) -> bool
    ensures { result ≡ is_present word }
{
    has(word, V) && word >> 54 == 0
}

/// Whether the word is a valid pointer at this level.
fn is_pointer_at(word: u64, level: Level) -> bool
    ensures { result ≡ is_pointer level word }
{
    match level {
        Level::Kilo => false,
        Level::Mega | Level::Giga | Level::Tera => is_branch(word),
    }
}

/// Whether the word is a valid pointer, at a level that isn't the lowest.
fn is_branch(word: u64) -> bool
    ensures { result ≡ is_pointer Level.Mega word }
{
    is_present(word)
        && !(has(word, R) || has(word, W) || has(word, X))
        && !(has(word, A) || has(word, D) || has(word, U))
}

/// Whether the word is a valid leaf at the level.
fn is_leaf(word: u64, level: Level) -> bool
    ensures { result ≡ is_leaf level word }
{
    is_present(word)
        && (has(word, R) || has(word, X))
        && (has(word, R) || !has(word, W))
        && !has(word, U)
        && has(word, A)
        && is_aligned(word, level)
}

/// Whether the word's physical page is aligned to the size of the level's pages.
fn is_aligned(word: u64, level: Level) -> bool
    ensures { result ≡ is_aligned level word }
{
    address(word) % level.size() == 0
}

/// This word as the leaf, at its level, of the page with the address.
fn leaf(word: u64, va: u64, level: Level, global: bool) -> Leaf
    ensures { result ≡ leaf_of word va level global }
{
    Leaf {
        page: va - va % level.size(),
        pa: address(word),
        level,
        global: has(word, G) || global,
        r: has(word, R),
        w: has(word, W),
        x: has(word, X),
        d: has(word, D),
    }
}
