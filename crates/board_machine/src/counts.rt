//! The stored counts of a board's table.
ghost use Rattle.std.specs.Prelude.{◌≡◌, if◌then◌else◌};

/// The numbers of starts accepted, including the boot start, and of starts entered, since the last reset.
#[derive(Clone, Copy)]
pub struct Counts {
    pub starts: u64,
    pub entries: u64,
}

impl Counts {
    /// The boot start, if `boots` is true, and nothing else.
    pub(crate) fn new(boots: bool) -> Counts
        ensures { result ≡ record { starts = if boots then 1 else 0; entries = 0 } }
    {
        Counts {
            starts: if boots { 1 } else { 0 },
            entries: 0,
        }
    }
}
