//! The words of a pattern, as values.
ghost use Rattle.std.specs.Prelude.{◌≡◌};
ghost use Rattle.condition_script.specs.Grammar.{signed_item};

use crate::names::Name;

/// A word of a step.
#[derive(Clone, Copy, PartialEq, Eq)]
pub enum Item {
    /// A name.
    Word(Name),
    /// A number from 0 on, as the number of the actor's hart.
    Number(u64),
    /// A number below 0, by how much: the error of a reply `ret`.
    Below(u64),
    /// A dash: no address or no ASID.
    Absent,
}

impl Item {
    /// The word of an error.
    pub fn signed(error: i64) -> Item
        ensures { result ≡ signed_item error }
    {
        if error >= 0 {
            Item::Number(error as u64)
        } else {
            Item::Below(error.unsigned_abs())
        }
    }
}
