//! The page tables that `.map`s write.
ghost use Rattle.std.specs.Prelude.{◌≡◌, ◌≤◌, ◌<◌, ◌^◌, ◌++◌, IfErr, IfOk, OnOk, not};
ghost use Rattle.std.specs.List.{list_any};
ghost use Rattle.sv39.specs.Pages.{levels_from, page_of, part};
ghost use Rattle.sv39.specs.Paging.{scheme};
ghost use Rattle.asm_expressions.specs.Symbols.{context_of};
ghost use Rattle.asm_tokens.specs.Readings.{spots_of};
ghost use Rattle.asm_program.specs.Inside.Passes.{StopsAt, with_before};
ghost use Rattle.asm_program.specs.Maps.{map_said_of};
ghost use Rattle.asm_program.specs.Tables.{entry_address, entry_for, entry_word, is_alone, is_entry_for, is_fit, is_kilo, is_leaf_by, is_of_another_mode, is_page, map_words, mapped, mapping_in, said_leaf, table_bytes, walked_by, written_word, written_words};

use crate::data::Datum;
use crate::forms::fault;
use crate::maps::{MapText, leaf_bits, map_text};
use crate::stop::Stop;
use asm_expressions::{Fault, Scope, Wrong, value_of};
use asm_tokens::Placed;
use std::alloc::AllocError;
use sv39::{Level, PAGE_BYTES, Paging};

/// What a `.map` maps.
#[derive(Clone, Copy)]
pub(crate) struct Mapping {
    /// The mode.
    pub paging: Paging,
    /// The address of the root table.
    pub root: u64,
    /// The page's address.
    pub page: u64,
    /// The number of the part.
    pub statement: usize,
}

/// An entry of a page table that a `.map` writes.
#[derive(Clone, Copy)]
pub(crate) struct Entry {
    /// The first map that has it.
    pub map: Mapping,
    /// The level of its table.
    pub level: Level,
    /// Its address.
    pub at: u64,
    /// The address of the table that it leads to; of a leaf it says nothing.
    pub table: u64,
}

/// How far a map has come.
#[derive(Clone, Copy)]
struct Reached {
    /// The table that it has reached.
    table: u64,
    /// The address of its last entry.
    at: u64,
}

const SV39_LEVELS: [Level; 3] = [Level::Giga, Level::Mega, Level::Kilo];

const SV48_LEVELS: [Level; 4] = [Level::Tera, Level::Giga, Level::Mega, Level::Kilo];

/// The levels of a mode, the highest first.
fn levels_of(paging: Paging) -> &'static [Level]
    ensures { result.now ≡ levels_from (scheme paging).root }
{
    match paging {
        Paging::Sv39 => &SV39_LEVELS,
        Paging::Sv48 => &SV48_LEVELS,
    }
}

/// The root table and the page of a map.
pub(crate) fn mapping_in(
    scope: &Scope<'_, '_>,
    paging: Paging,
    text: &MapText<'_, '_>,
) -> Result<Mapping, Fault>
    ensures { result ≡ mapping_in (context_of scope.now) paging (map_said_of text.now) }
{
    let root = value_of(scope, text.root)?;
    let page = value_of(scope, text.page)?;
    Ok(Mapping {
        paging,
        root,
        page,
        statement: scope.statement,
    })
}

/// Adds the entries of a map that no map above has, each with a table behind all others, and returns the address of its last one.
pub(crate) fn add_map(
    entries: &mut Vec<Entry>,
    next: &mut u64,
    map: &Mapping,
) -> Result<u64, AllocError>
    ensures entries { OnOk result (entries.new.items ≡ (mapped map.now next.old entries.old.items).entries) }
    ensures next { OnOk result (next.new ≡ (mapped map.now next.old entries.old.items).next) }
    ensures at { IfOk result (λ at. at ≡ (mapped map.now next.old entries.old.items).at) }
{
    let levels = levels_of(map.paging);
    let mut reached = Reached {
        table: map.root,
        at: map.root,
    };
    for level in levels {
        reached = step(entries, next, map, *level, reached)?;
    }
    Ok(reached.at)
}

/// Goes one level further.
fn step(
    entries: &mut Vec<Entry>,
    next: &mut u64,
    map: &Mapping,
    level: Level,
    reached: Reached,
) -> Result<Reached, AllocError>
    ensures { IfOk result (λ now. record { entries = entries.new.items; next = next.new; table = now.table; at = now.at }
        ≡ walked_by map.now level (record { entries = entries.old.items; next = next.old; table = reached.table; at = reached.at }) (entry_for map.now level entries.old.items)) }
{
    if let Some(entry) = entry_for(entries, map, level) {
        return Ok(Reached {
            table: entry.table,
            at: entry.at,
        });
    }
    let at = entry_address(reached.table, level, map.page);
    let table = *next;
    entries.push(Entry {
        map: *map,
        level,
        at,
        table,
    })?;
    *next = table.wrapping_add(table_bytes(level));
    Ok(Reached { table, at })
}

/// The address of a page's entry in a table of this level.
fn entry_address(table: u64, level: Level, page: u64) -> u64
    ensures { result ≡ entry_address table level page }
{
    table.wrapping_add(8 * (page / level.size() % 512))
}

/// The bytes of the table that an entry leads to.
fn table_bytes(level: Level) -> u64
    ensures { result ≡ table_bytes level }
{
    match level {
        Level::Kilo => 0,
        _ => PAGE_BYTES,
    }
}

/// The entry of this level for a map's page.
fn entry_for(entries: &[Entry], map: &Mapping, level: Level) -> Option<Entry>
    ensures { result ≡ entry_for map.now level entries.now }
{
    for entry in entries {
        if is_entry_for(map, level, entry) {
            return Some(*entry);
        }
    }
    None
}

/// Whether an entry is that of this level for a map's page, under its root.
fn is_entry_for(map: &Mapping, level: Level, entry: &Entry) -> bool
    ensures { result ≡ is_entry_for map.now level entry.now }
{
    entry.map.paging.width() == map.paging.width()
        && entry.map.root == map.root
        && entry.level.number() == level.number()
        && page_of(level, entry.map.page) == page_of(level, map.page)
}

/// The first address of the level's page that has the address.
fn page_of(level: Level, at: u64) -> u64
    ensures { result ≡ page_of level at }
{
    at / level.size() * level.size()
}

/// Adds the words of a map.
#[tactic(auto, unfolding(crate::specs::Tables::map_words))]
pub(crate) fn add_map_words(
    numbers: &mut Vec<Datum>,
    entries: &[Entry],
    scope: &Scope<'_, '_>,
    paging: Paging,
    left: usize,
    operands: &[Placed<'_>],
) -> Result<(), Stop>
    ensures added { OnOk result (with_before numbers.old.items (map_words entries.now (context_of scope.now) paging left (spots_of operands.now)) ≡ Ok numbers.new.items) }
    ensures fault { IfErr result (StopsAt (with_before numbers.old.items (map_words entries.now (context_of scope.now) paging left (spots_of operands.now)))) }
{
    let Some(text) = map_text(operands) else {
        return Err(Stop::At(fault(Wrong::BadOperands, left)));
    };
    let leaf = said_leaf(entries, scope, paging, left, &text)?;
    Ok(add_words(numbers, entries, scope.statement, leaf)?)
}

/// The leaf that a map says.
fn said_leaf(
    entries: &[Entry],
    scope: &Scope<'_, '_>,
    paging: Paging,
    left: usize,
    text: &MapText<'_, '_>,
) -> Result<u64, Fault>
    ensures { result ≡ said_leaf entries.now (context_of scope.now) paging left (map_said_of text.now) }
{
    let map = mapping_in(scope, paging, text)?;
    let to = value_of(scope, text.to)?;
    let Some(bits) = leaf_bits(text.end.flags) else {
        return Err(fault(Wrong::BadFlags, left));
    };
    if !is_fit(&map, to) {
        return Err(fault(Wrong::OutOfRange, left));
    }
    if !is_alone(&map, entries) {
        return Err(fault(Wrong::MappedTwice, left));
    }
    Ok(to / PAGE_BYTES * 1024 + bits)
}

/// Whether the root table and the memory are physical pages, and the page is one of this mode.
fn is_fit(map: &Mapping, to: u64) -> bool
    ensures { result ≡ is_fit map.now to }
{
    is_page(map.root) && is_page(to) && map.page % 4096 == 0 && map.paging.is_valid(map.page)
}

/// Whether an address is that of a physical page.
fn is_page(address: u64) -> bool
    ensures { result ≡ is_page address }
{
    address % 4096 == 0 && address < 1 << 56
}

/// Whether no map above has the page, or its root by another mode.
fn is_alone(map: &Mapping, entries: &[Entry]) -> bool
    ensures { result ≡ is_alone map.now entries.now }
{
    has_leaf(map.statement, entries) && !has_another_mode(map, entries)
}

/// Whether a part made an entry that leads to a page.
fn has_leaf(statement: usize, entries: &[Entry]) -> bool
    ensures { result ≡ list_any (is_leaf_by statement) entries.now }
{
    for entry in entries {
        if entry.map.statement == statement && matches!(entry.level, Level::Kilo) {
            return true;
        }
    }
    false
}

/// Whether a map above has the same root by another mode.
fn has_another_mode(map: &Mapping, entries: &[Entry]) -> bool
    ensures { result ≡ list_any (is_of_another_mode map.now) entries.now }
{
    for entry in entries {
        if is_of_another_mode(map, entry) {
            return true;
        }
    }
    false
}

/// Whether an entry belongs to a map above, of another mode under the same root.
fn is_of_another_mode(map: &Mapping, entry: &Entry) -> bool
    ensures { result ≡ is_of_another_mode map.now entry.now }
{
    entry.map.statement < map.statement
        && entry.map.root == map.root
        && entry.map.paging.width() != map.paging.width()
}

/// Adds the words of the entries that a part made.
fn add_words(
    numbers: &mut Vec<Datum>,
    entries: &[Entry],
    statement: usize,
    leaf: u64,
) -> Result<(), AllocError>
    ensures { OnOk result (numbers.new.items ≡ numbers.old.items ++ written_words statement leaf entries.now) }
{
    for entry in entries {
        if entry.map.statement == statement {
            numbers.push(Datum {
                at: entry.at,
                size: 8,
                value: written_word(entry.level, entry.table, leaf),
            })?;
        }
    }
    Ok(())
}

/// A pointer to the next table, or the leaf.
fn written_word(level: Level, table: u64, leaf: u64) -> u64
    ensures { result ≡ written_word level table leaf }
{
    match level {
        Level::Kilo => leaf,
        _ => table / PAGE_BYTES * 1024 + 1,
    }
}
