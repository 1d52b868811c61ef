//! An iterator over the ids of a set.

ghost use Rattle.std.specs.Prelude.{◌≡◌};
ghost use Rattle.std.specs.Iterator.{YieldsFirst, item_count};

use crate::hart_set::HartSet;
use std::marker::Model;

/// The ids of a set that are still to come, in ascending order.
#[derive(Clone, Debug, Drop)]
pub struct HartIds {
    left: HartSet,
}

impl Model for HartIds {
    ghost use Rattle.std.specs.Prelude.{List, ℕ};

    ghost Value = { List ℕ };

    ghost view = { λ ids. ids.left };
}

impl IntoIterator for HartSet {
    type Item = u64;

    type IntoIter = HartIds;

    ghost into_iter_gives = { λ set ids. ids ≡ set };

    fn into_iter(self) -> HartIds {
        HartIds { left: self }
    }
}

impl Iterator for HartIds {
    type Item = u64;

    ghost next_gives = { YieldsFirst (λ ids. ids) };

    ghost remaining = { item_count (λ ids. ids) };

    fn next(&mut self) -> Option<u64> {
        self.left.pop_first()
    }
}
