//! An iterator over the live fills of a cache.
ghost use Rattle.std.specs.Prelude.{◌≡◌, length, min, reverse};
ghost use Rattle.std.specs.Iterator.{YieldsFirst, item_count};
ghost use Rattle.tlb_model.specs.Inside.Places.{seen};

use crate::cache::Numbered;
use std::iter::ExactSizeIterator;
use std::marker::Model;

/// The live fills of a cache that are still to come, oldest first.
#[derive(Drop)]
pub struct Live<'a, E> {
    places: &'a [E],
    dates: &'a [u64; 16],
    dropped: u16,
    next: u64,
    // (the number of the last fills that are still to come)
    left: u64,
}

impl<'a, E> Model for Live<'a, E> {
    ghost use Rattle.std.specs.Prelude.{◌≡◌, ◌≤◌, List, length, min, reverse};
    ghost use Rattle.tlb_model.specs.declared.cache.Numbered.{Numbered};
    ghost use Rattle.tlb_model.specs.Inside.Places.{seen};

    ghost Value = { List (Numbered E) };

    ghost view = { λ l. reverse (seen l.next l.left l.places.now l.dates.now l.dropped) };

    ghost invariant = { λ l. (length l.places.now ≡ min 16 l.next) × (l.left ≤ length l.places.now) };
}

impl<'a, E> Live<'a, E> {
    /// The live fills in these places: `dates` has their dates, `dropped` a bit for each dropped one, and `next` is the
    /// number of the next fill.
    pub(crate) fn of(places: &'a [E], dates: &'a [u64; 16], dropped: u16, next: u64) -> Live<'a, E>
        requires { length places.now ≡ min 16 next }
        ensures { result ≡ reverse (seen next 16 places.now dates.now dropped) }
    {
        Live {
            places,
            dates,
            dropped,
            next,
            left: places.len() as u64,
        }
    }
}

impl<'a, E: Copy> Iterator for Live<'a, E> {
    type Item = Numbered<E>;

    ghost next_gives = { YieldsFirst (λ fills. fills) };

    ghost remaining = { item_count (λ fills. fills) };

    fn next(&mut self) -> Option<Numbered<E>> {
        for age in (0..self.left).rev() {
            self.left = age;
            let number = self.next - 1 - age;
            let place = number % 16;
            if (self.dropped >> place) % 2 == 0 {
                let date = self.dates[place as usize];
                let item = self.places[place as usize];
                return Some(Numbered { date, number, item });
            }
        }
        None
    }

    fn size_hint(&self) -> (usize, Option<usize>) {
        let len = self.len();
        (len, Some(len))
    }
}

impl<'a, E: Copy> ExactSizeIterator for Live<'a, E> {
    fn len(&self) -> usize {
        let mut len = 0;
        for age in 0..self.left {
            let place = (self.next - 1 - age) % 16;
            if (self.dropped >> place) % 2 == 0 {
                len += 1;
            }
        }
        len
    }
}
