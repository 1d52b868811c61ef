//! The three tokens of a list that only grows: the list, a prefix of it, and the closed list.

ghost use Rattle.std.specs.Prelude.{◌≡◌, ℕ, List, [], ◌∷◌, ◌++◌};
ghost use mathlib.Core.List.{IsPrefix};
ghost use base.Stored.{coded_list};
ghost use denote.Sharing.{said};
ghost use Rattle.ghost_log.specs.Inside.Kept.{latest_owns, begun_owns, whole_owns};

use std::marker::{Model, PhantomData};

/// The list as it is now, and the right to append to it. There is one for each name.
pub struct Log<E> {
    marker: PhantomData<E>,
    pub ghost name: { ℕ },
    pub ghost list: { List E } by { coded_list E.code },
}

impl<E> Model for Log<E> {
    ghost also_owns = { λ s. latest_owns E.row.coded.code s.name s.list };
}

/// A prefix of the list: the list at some time.
pub struct Prefix<E> {
    marker: PhantomData<E>,
    pub ghost name: { ℕ },
    pub ghost list: { List E } by { coded_list E.code },
}

impl<E> Model for Prefix<E> {
    ghost also_owns = { λ s. begun_owns E.row.coded.code s.name s.list };

    ghost also_shares = { λ s _ κ. said (begun_owns E.row.coded.code s.name s.list) κ };
}

/// The closed list, which no longer grows.
pub struct ClosedLog<E> {
    marker: PhantomData<E>,
    pub ghost name: { ℕ },
    pub ghost list: { List E } by { coded_list E.code },
}

impl<E> Model for ClosedLog<E> {
    ghost also_owns = { λ s. whole_owns E.row.coded.code s.name s.list };

    ghost also_shares = { λ s _ κ. said (whole_owns E.row.coded.code s.name s.list) κ };
}

impl<E> Log<E> {
    /// An empty list, with a name of its own.
    pub fn new() -> Log<E>
        ensures { result.list ≡ [] }
    {
        Log {
            marker: PhantomData,
        }
    }

    /// Appends one entry.
    pub fn push(&mut self, entry: &E)
        ensures { (self.new.name ≡ self.old.name) × (self.new.list ≡ self.old.list ++ entry.now ∷ []) }
    {}

    /// The list as it is now, which stays a prefix of it.
    pub fn prefix(&mut self) -> Prefix<E>
        ensures { (self.new ≡ self.old) × (result.name ≡ self.old.name) × (result.list ≡ self.old.list) }
    {
        Prefix {
            marker: PhantomData,
        }
    }

    /// Each prefix begins the list as it is now.
    pub fn begins_with(&mut self, prefix: &Prefix<E>)
        requires { prefix.now.name ≡ self.old.name }
        ensures { (self.new ≡ self.old) × IsPrefix prefix.now.list self.old.list }
    {}

    /// Closes the list.
    pub fn close(self) -> ClosedLog<E>
        ensures { (result.name ≡ self.name) × (result.list ≡ self.list) }
    {
        let Self { marker } = self;
        ClosedLog { marker }
    }
}

impl<E> ClosedLog<E> {
    /// Each prefix begins the closed list.
    pub fn begins_with(&self, prefix: &Prefix<E>)
        requires { prefix.now.name ≡ self.now.name }
        ensures { IsPrefix prefix.now.list self.now.list }
    {}
}

impl<E> Drop for Log<E> {
    fn drop(self) {
        let Self { marker: _ } = self;
    }
}

impl<E> Drop for Prefix<E> {
    fn drop(self) {
        let Self { marker: _ } = self;
    }
}

impl<E> Drop for ClosedLog<E> {
    fn drop(self) {
        let Self { marker: _ } = self;
    }
}

unsafe impl<E> Send for Log<E> {}

unsafe impl<E> Send for Prefix<E> {}

unsafe impl<E> Sync for Prefix<E> {}

unsafe impl<E> Send for ClosedLog<E> {}

unsafe impl<E> Sync for ClosedLog<E> {}
