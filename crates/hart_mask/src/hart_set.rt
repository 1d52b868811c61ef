//! Sets of harts, as 128 bits.

ghost use Rattle.std.specs.Prelude.{◌≡◌, ◌<◌, ◌≤◌, [], ◌∷◌, length, ◌==◌, IfSome, MatchOption};
ghost use Rattle.hart_mask.specs.HartList.{named_by};
ghost use Rattle.hart_mask.specs.Ids.{IsIdSet, intersection_of, has, ids_below, union_of, with_bit, with_id, without_id};

use crate::hart_ids::HartIds;
use std::marker::Model;

/// A set of hart ids, each below 128.
#[derive(Clone, Copy, Debug)]
pub struct HartSet {
    bits: u128,
}

impl Model for HartSet {
    ghost use Rattle.std.specs.Prelude.{List, ℕ, ◌<◌, ◌^◌};
    ghost use Rattle.hart_mask.specs.Ids.{ids_where};
    ghost use Rattle.hart_mask.specs.Bits.{is_set, word_of};
    ghost use Rattle.hart_mask.specs.Inside.Inverse.{word_of-own_ids};

    ghost Value = { List ℕ };

    ghost view = { λ s. ids_where (is_set s.bits) };

    ghost invariant = { λ s. s.bits < 2 ^ 128 };

    ghost inverse = { λ ids. record { bits = word_of ids } };

    ghost inverse_ok = { λ s below i. record { bits = word_of-own_ids s.bits below i } };
}

impl PartialEq for HartSet {
    ghost use Rattle.std.specs.Prelude.{nat_eq};
    ghost use Rattle.std.specs.Cmp.{partial_equiv_from_equiv};
    ghost use Rattle.std.specs.Cmp.Lexicographic.{pointwise, nat_list_eq_equiv};

    ghost eq = { pointwise nat_eq };

    ghost laws = { partial_equiv_from_equiv nat_list_eq_equiv };

    fn eq(&self, other: &HartSet) -> bool {
        self.bits == other.bits
    }
}

impl Eq for HartSet {
    ghost use Rattle.std.specs.Cmp.Lexicographic.{nat_list_eq_equiv};

    ghost laws = { nat_list_eq_equiv };
}

impl Default for HartSet {
    ghost is_default = { λ set. set ≡ [] };

    fn default() -> HartSet {
        HartSet::new()
    }
}

impl HartSet {
    /// The empty set.
    pub fn new() -> HartSet
        ensures { result ≡ [] }
    {
        HartSet { bits: 0 }
    }

    /// The set of the ids below `n`.
    pub fn below(n: u64) -> HartSet
        requires { n ≤ 128 }
        ensures { result ≡ ids_below n }
    {
        if n == 128 {
            return HartSet { bits: u128::MAX };
        }
        HartSet { bits: (1 << n) - 1 }
    }

    /// The set of the ids `base + i` below 128 whose bit i is set in `mask`.
    pub(crate) fn named_by(mask: u64, base: u64) -> HartSet
        requires { base < 128 }
        ensures { result ≡ named_by mask base }
    {
        HartSet {
            bits: u128::from(mask) << base,
        }
    }

    /// Whether hart `id` is in the set. Sets with the same ids are equal.
    pub fn contains(&self, id: u64) -> bool
        requires { id < 128 }
        ensures answer { result ≡ has self.now id }
        ensures whole { IsIdSet self.now }
    {
        self.bits >> id & 1 == 1
    }

    /// Inserts hart `id`.
    pub fn insert(&mut self, id: u64)
        requires { id < 128 }
        ensures { self.new ≡ with_id self.old id }
    {
        self.bits |= 1 << id;
    }

    /// Removes hart `id`.
    pub fn remove(&mut self, id: u64)
        requires { id < 128 }
        ensures { self.new ≡ without_id self.old id }
    {
        self.bits &= !(1 << id);
    }

    /// The ids that are in this set or in the other.
    pub fn union(self, other: HartSet) -> HartSet
        ensures { result ≡ union_of self other }
    {
        HartSet {
            bits: self.bits | other.bits,
        }
    }

    /// The ids that are in both this set and the other.
    pub fn intersection(self, other: HartSet) -> HartSet
        ensures { result ≡ intersection_of self other }
    {
        HartSet {
            bits: self.bits & other.bits,
        }
    }

    /// Inserts hart `id` if `value` is true, and removes it otherwise.
    pub fn set(&mut self, id: u64, value: bool)
        requires { id < 128 }
        ensures { self.new ≡ with_bit self.old id value }
    {
        if value {
            self.insert(id);
        } else {
            self.remove(id);
        }
    }

    /// Removes the lowest id and returns it. None: the set is empty.
    pub fn pop_first(&mut self) -> Option<u64>
        ensures lowest { MatchOption result ((self.old ≡ []) × (self.new ≡ [])) (λ id. self.old ≡ id ∷ self.new) }
        ensures below { IfSome result (λ id. id < 128) }
    {
        if self.bits == 0 {
            return None;
        }
        let id = u64::from(self.bits.trailing_zeros());
        // (the lowest bit is cleared)
        self.bits &= self.bits - 1;
        Some(id)
    }

    /// The ids of the set, in ascending order.
    pub fn iter(&self) -> HartIds
        ensures ids { result ≡ self.now }
        ensures ascending { IsIdSet self.now }
    {
        let set = HartSet { bits: self.bits };
        set.into_iter()
    }

    /// The number of ids in the set.
    pub fn len(&self) -> u64
        ensures { result ≡ length self.now }
    {
        u64::from(self.bits.count_ones())
    }

    /// Whether the set is empty.
    pub fn is_empty(&self) -> bool
        ensures { result ≡ (length self.now == 0) }
    {
        self.bits == 0
    }
}
