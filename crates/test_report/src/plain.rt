//! Points as plain text for a terminal.
use crate::details::shown;
use crate::point::Point;
use crate::verdict::Verdict;
use std::alloc::{AllocError, Global};

/// Adds a point, and its details.
pub(crate) fn put_point(alloc: Global, point: &Point, text: &mut String) -> Result<(), AllocError> {
    text.push_str(match point.verdict {
        Verdict::Holds => "ok    ",
        Verdict::Fails | Verdict::Vacuous(_) | Verdict::NoEnd | Verdict::Misfit(_) => "FAIL  ",
        Verdict::NotJudged(_) => "OPEN  ",
    })?;
    let said = format!(in alloc; "{}", point.said())?;
    for letter in point.name.chars().chain(said.chars()) {
        text.push(shown(letter))?;
    }
    text.push('\n')?;
    for detail in &point.details {
        detail.put(alloc, "      ", text)?;
    }
    Ok(())
}
