//! What a record says of an access beside its reply.
ghost use Rattle.std.specs.Prelude.{◌≡◌};
ghost use Rattle.access_marks.specs.Marks.{unmarked};

/// What a record says of an access beside its reply (Privileged 4.2.1, 4.3.2; Zifencei).
#[derive(Clone, Copy, PartialEq, Eq)]
pub struct Marks {
    /// The access is stale: the entry that it used gave it another physical address, or another fault, than the page tables.
    pub stale: bool,
    /// The access was missed: a fence call that covers it succeeded, and the page tables haven't given what its entry gave since the
    /// call was made.
    pub missed: bool,
    /// The access isn't steady: some TLB that the standard allows may give it another physical address or fault than the page
    /// tables, or, if it is a fetch, some instruction cache another word than the memory.
    pub unsteady: bool,
    /// The access isn't firm: the same, where TLBs may also keep pointers and invalid entries, and walks may read words of
    /// different times. Said only where walks are asked for.
    pub unfirm: bool,
    /// The access isn't lenient: the same, aside from a page fault where the page tables give a leaf. Said only where walks are asked
    /// for.
    pub unlenient: bool,
}

impl Marks {
    /// The marks of an event that is no access.
    pub(crate) fn none() -> Marks
        ensures { result ≡ unmarked }
    {
        Marks {
            stale: false,
            missed: false,
            unsteady: false,
            unfirm: false,
            unlenient: false,
        }
    }
}
