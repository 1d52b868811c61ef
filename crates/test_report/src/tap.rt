//! Points of the Test Anything Protocol, version 13 (a reader of version 14 takes them, too).
ghost use Rattle.std.specs.Prelude.{◌≡◌, ℕ, List, ◌++◌, OnOk, Option, chars, flat_map, string_bytes};
ghost use Rattle.test_report.specs.Lines.{block_text, escaped, indented, indented_letter, letter_text, plan_line, point_line};
ghost use Rattle.test_report.specs.Inside.Bare.{IsBare};

use crate::details::{Detail, shown};
use crate::point::Point;
use std::alloc::{AllocError, Global};
use std::fmt::Write;

/// Adds the point of this number, and its details. A point that wasn't judged has no directive, since TAP readers count
/// directives as success.
pub(crate) fn put_point(
    alloc: Global,
    number: u64,
    point: &Point,
    text: &mut String,
) -> Result<(), AllocError>
    ensures { OnOk result ((added : List ℕ) × (string_bytes text.new ≡ string_bytes text.old ++ added)
        × IsBare number point.now added) }
{
    let said = format!(in alloc; "{}", point.said())?;
    put_line(
        number,
        point.holds(),
        point.name.as_str(),
        said.as_str(),
        text,
    )?;
    put_details(alloc, &point.details, text)?;
    Ok(())
}

/// Adds the line of a point: its number, whether it holds, its name, and what is said of it.
fn put_line(
    number: u64,
    holds: bool,
    name: &str,
    said: &str,
    text: &mut String,
) -> Result<(), AllocError>
    ensures { OnOk result (string_bytes text.new ≡ string_bytes text.old ++ point_line number holds name.now said.now) }
{
    let not = if holds { "" } else { "not " };
    write!(text, "{not}ok {number} - ")?;
    put_escaped(name, text)?;
    put_escaped(said, text)?;
    text.push('\n')
}

/// Adds the details below a point, as YAML.
fn put_details(alloc: Global, details: &[Detail], text: &mut String) -> Result<(), AllocError>
    ensures { OnOk result ((block : Option (List ℕ)) × (string_bytes text.new ≡ string_bytes text.old ++ block_text block)) }
{
    if details.is_empty() {
        return Ok(());
    }
    let block = block_of(alloc, details)?;
    put_indented("  ", block.as_str(), text)?;
    Ok(())
}

/// The block of the details.
fn block_of(alloc: Global, details: &[Detail]) -> Result<String, AllocError> {
    let mut block = String::new(alloc);
    block.push_str("---\n")?;
    for detail in details {
        detail.put(alloc, "", &mut block)?;
    }
    block.push_str("...")?;
    Ok(block)
}

/// Adds a text, each line of it behind a margin.
pub(crate) fn put_indented(margin: &str, block: &str, text: &mut String) -> Result<(), AllocError>
    ensures { OnOk result (string_bytes text.new ≡ string_bytes text.old ++ indented margin.now block.now) }
{
    text.push_str(margin)?;
    put_lines(margin, block, text)?;
    text.push('\n')
}

/// Adds a text, each further line of it behind a margin.
fn put_lines(margin: &str, block: &str, text: &mut String) -> Result<(), AllocError>
    ensures { OnOk result (string_bytes text.new ≡ string_bytes text.old
        ++ flat_map (indented_letter margin.now) (chars block.now)) }
{
    for letter in block.chars() {
        put_indented_letter(margin, letter, text)?;
    }
    Ok(())
}

/// Adds a character of such a text.
fn put_indented_letter(margin: &str, letter: char, text: &mut String) -> Result<(), AllocError>
    ensures { OnOk result (string_bytes text.new ≡ string_bytes text.old ++ indented_letter margin.now letter) }
{
    text.push(letter)?;
    if letter == '\n' {
        text.push_str(margin)?;
    }
    Ok(())
}

/// Adds the plan: how many points there are.
pub(crate) fn put_plan(points: u64, text: &mut String) -> Result<(), AllocError>
    ensures { OnOk result (string_bytes text.new ≡ string_bytes text.old ++ plan_line points) }
{
    writeln!(text, "1..{points}")
}

/// Adds a name, with the characters escaped that TAP readers interpret.
fn put_escaped(name: &str, text: &mut String) -> Result<(), AllocError>
    ensures { OnOk result (string_bytes text.new ≡ string_bytes text.old ++ escaped name.now) }
{
    for letter in name.chars() {
        put_letter(letter, text)?;
    }
    Ok(())
}

/// Adds a character of a name.
fn put_letter(letter: char, text: &mut String) -> Result<(), AllocError>
    ensures { OnOk result (string_bytes text.new ≡ string_bytes text.old ++ letter_text letter) }
{
    if letter == '#' || letter == '\\' {
        text.push('\\')?;
    }
    text.push(shown(letter))
}
