//! A cache of a hart: the latest fills, in their order.
ghost use Rattle.std.specs.Prelude.{◌≡◌, ◌-◌, ◌<◌, ◌≤◌, ◌^◌, ℕ, Bool, true, Ok, Option, Some, length, reverse};
ghost use Rattle.std.specs.Int.{bit_at};
ghost use Rattle.tlb_model.specs.Contents.{cleared, empty, fenced, filled, hit};
ghost use Rattle.tlb_model.specs.Inside.Tags.{Suits};

use crate::fence::Flush;
use crate::live::Live;
use crate::tag::{newest_first, suspects, with_tag};
use arrayvec::ArrayVec;
use std::alloc::AllocError;
use std::marker::Model;

/// An item of a cache.
pub trait Cached: Copy + Default + Drop {
    ghost use Rattle.tlb_model.specs.declared.fence.Flush.{Flush};

    /// The type by which an item is looked up.
    type Key: Copy;

    ghost holds: { Self.Key → Self → Bool };

    ghost covers: { Flush → Self → Bool };

    ghost tag: { Self → ℕ };

    ghost key_tag: { Self.Key → ℕ };

    ghost flush_tag: { Flush → Option ℕ };

    /// Whether the item matches the key.
    fn holds(&self, key: Self::Key) -> bool
        ensures { result ≡ holds key self.now };

    /// Whether the fence covers the item, and so drops it.
    fn is_covered_by(&self, flush: Flush) -> bool
        ensures { result ≡ covers flush self.now };

    /// A byte that the item has in common with each key that it matches, or `ANY`.
    fn tag(&self) -> u8
        ensures { result ≡ tag self.now };

    /// The tag that the items that match the key have, unless theirs is `ANY`.
    fn key_tag(key: Self::Key) -> u8
        ensures { result ≡ key_tag key };

    /// The same for the items that the fence covers. None: they may have any tag.
    fn flush_tag(flush: Flush) -> Option<u8>
        ensures { result ≡ flush_tag flush };

    ghost held: { (key : Self.Key) (item : Self) → holds key item ≡ true → Suits (tag item) (key_tag key) };

    ghost covered: { (flush : Flush) (item : Self) → covers flush item ≡ true
        → (wanted : ℕ) → flush_tag flush ≡ Some wanted → Suits (tag item) wanted };
}

/// An item of a cache, with the date and number of its fill.
#[derive(Clone, Copy, Debug, PartialEq, Eq)]
pub struct Numbered<E> {
    /// The date of its fill: the number of events before it.
    pub date: u64,
    /// The number of its fill: the number of fills of this cache before it.
    pub number: u64,
    /// The item.
    pub item: E,
}

/// A cache of a hart: its live fills, in 16 places (profile). Fill n stays in place n mod 16 until fill n + 16. A fence
/// moves no fill.
#[derive(Debug, Drop)]
pub struct Cache<E: Cached> {
    next: u64,
    // (a bit for each place)
    dropped: u16,
    // (apart from the places, because a look-up compares all of them at once)
    tags: [u8; 16],
    places: ArrayVec<E, 16>,
    dates: [u64; 16],
}

impl<E: Cached> Model for Cache<E> {
    ghost use Rattle.std.specs.Prelude.{◌≡◌, length, min};
    ghost use Rattle.tlb_model.specs.Contents.{Contents};
    ghost use Rattle.tlb_model.specs.Inside.Places.{AreTagged, seen};

    ghost Value = { Contents E };

    ghost view = { λ c. record { next = c.next; live = seen c.next 16 c.places.items c.dates c.dropped } };

    ghost invariant = { λ c. (length c.places.items ≡ min 16 c.next) × AreTagged E.tag c.places.items c.tags };
}

impl<E: Cached> Cache<E> {
    /// An empty cache.
    pub fn new() -> Cache<E>
        ensures { result ≡ empty }
    {
        Cache {
            next: 0,
            dropped: 0,
            tags: [0; 16],
            places: ArrayVec::new(),
            dates: [0; 16],
        }
    }

    /// The hit: of the live items that match the key, the one filled last (profile).
    #[inline(always)]
    pub fn lookup(&self, key: E::Key) -> Option<E>
        ensures { result ≡ hit E.holds key self.now }
    {
        let kept = kept_places(self.places.len() as u64, self.dropped);
        let mut left = newest_first(kept & with_tag(&self.tags, E::key_tag(key)), self.next);
        while left != 0 {
            let bit = 31 - left.leading_zeros();
            left &= !(1 << bit);
            let place = (self.next % 16 + u64::from(bit)) % 16;
            let item = &self.places[place as usize];
            if item.holds(key) {
                return Some(*item);
            }
        }
        None
    }

    /// Fills an item, with this date. It replaces the item filled sixteen fills before (profile).
    pub fn fill(&mut self, date: u64, item: E)
        requires { self.old.next < 2 ^ 63 }
        ensures { self.new ≡ filled self.old date item }
    {
        let place = self.next % 16;
        if self.places.is_full() {
            self.places[place as usize] = item;
        } else {
            self.places.push(item);
        }
        self.tags[place as usize] = item.tag();
        self.dates[place as usize] = date;
        self.dropped &= !(1 << place);
        self.next += 1;
    }

    /// Drops exactly the items that the fence covers (Privileged 4.2.1; Zifencei).
    pub fn apply(&mut self, flush: Flush)
        ensures { self.new ≡ fenced E.covers self.old flush }
    {
        let kept = kept_places(self.places.len() as u64, self.dropped);
        let mut left = kept & suspects(&self.tags, E::flush_tag(flush));
        let mut dropped = self.dropped;
        while left != 0 {
            let place = left.trailing_zeros();
            left &= !(1 << place);
            let is_covered = self.places[place as usize].is_covered_by(flush);
            // (no branch, since it would depend on each item)
            dropped |= u16::from(is_covered) << place;
        }
        self.dropped = dropped;
    }

    /// Drops all items, as a stop of the hart or a reset does (profile).
    pub fn clear(&mut self)
        ensures { self.new ≡ cleared self.old }
    {
        self.dropped = u16::MAX;
    }

    /// The number of the next fill, which is the number of fills so far.
    pub fn fills(&self) -> u64
        ensures { result ≡ self.now.next }
    {
        self.next
    }

    /// A copy. It allocates nothing, and never fails.
    #[inline(always)]
    pub fn try_copy(&self) -> Result<Cache<E>, AllocError>
        ensures { result ≡ Ok self.now }
    {
        let mut places = ArrayVec::new();
        let Ok(()) = places.try_extend_from_slice(&self.places) else {
            unreachable!()
        };
        Ok(Cache {
            next: self.next,
            dropped: self.dropped,
            tags: self.tags,
            places,
            dates: self.dates,
        })
    }

    /// Becomes a copy of another cache.
    pub fn copy_from(&mut self, from: &Cache<E>)
        ensures { self.new ≡ from.now }
    {
        self.next = from.next;
        self.dropped = from.dropped;
        self.tags = from.tags;
        self.places.clear();
        let Ok(()) = self.places.try_extend_from_slice(&from.places) else {
            unreachable!()
        };
        self.dates = from.dates;
    }

    /// The live fills, oldest first.
    pub fn live(&self) -> Live<'_, E>
        ensures live { reverse result ≡ self.now.live }
        ensures room { length result ≤ 16 }
    {
        Live::of(&self.places, &self.dates, self.dropped, self.next)
    }
}

/// A bit for each of so many places. It is set if the place's last fill isn't dropped.
#[inline(always)]
fn kept_places(places: u64, dropped: u16) -> u32
    requires { places ≤ 16 }
    ensures within { result < 2 ^ places }
    ensures few { result < 2 ^ 16 }
    ensures kept { (place : ℕ) → place < places → bit_at result place ≡ 1 - bit_at dropped place }
{
    u32::from(!dropped) % (1 << places)
}
