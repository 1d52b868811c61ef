//! Deadlines that aren't due yet, in order.

ghost use Rattle.std.specs.Prelude.{◌≡◌, ◌+◌, ◌<◌, ◌≤◌, drop, length, [], ◌==◌, MatchOption};
ghost use Rattle.std.specs.List.{insert, position};
ghost use Rattle.std.specs.List.Sorted.{IsNonDecreasingBy};
ghost use Rattle.interrupts.specs.declared.ahead.Member.{Member};
ghost use Rattle.interrupts.specs.Inside.Ahead.{AreLater, IsFirst, IsInserted, IsPlaceOf, member_of, without_hart};

use arrayvec::ArrayVec;
use std::marker::Model;

/// The room for deadlines: one for each of the 128 harts that a board has at most.
const ROOM: usize = 128;

/// A deadline in ticks, and its hart.
#[derive(Clone, Copy, Debug, Default, Drop)]
pub struct Member {
    deadline: u64,
    hart: u64,
}

/// Deadlines that aren't due yet, the soonest first. The members before `start` were already taken from the front;
/// their places are used again once all places are full.
#[derive(Debug, Drop)]
pub struct Ahead {
    members: ArrayVec<Member, ROOM>,
    start: usize,
}

impl Model for Ahead {
    ghost use Rattle.std.specs.Prelude.{◌≤◌, List, drop, length};
    ghost use Rattle.std.specs.List.Sorted.{IsNonDecreasingBy};
    ghost use Rattle.interrupts.specs.declared.ahead.Member.{Member};

    ghost Value = { List Member };

    ghost view = { λ a. drop a.start a.members.items };

    ghost invariant = { λ a. (a.start ≤ length a.members.items)
        × IsNonDecreasingBy (λ (m : Member). m.deadline) (drop a.start a.members.items) };
}

impl Ahead {
    /// No deadline.
    pub fn new() -> Ahead
        ensures { result ≡ [] }
    {
        Ahead {
            members: ArrayVec::new(),
            start: 0,
        }
    }

    /// The same deadlines.
    pub fn copy(&self) -> Ahead
        ensures { result ≡ self.now }
    {
        let mut copy = Ahead::new();
        copy.copy_from(self);
        copy
    }

    /// Becomes a copy of other deadlines.
    pub fn copy_from(&mut self, from: &Ahead)
        ensures { self.new ≡ from.now }
    {
        self.members.clear();
        let Ok(()) = self.members.try_extend_from_slice(&from.members) else {
            unreachable!()
        };
        self.start = from.start;
    }

    /// Inserts a deadline.
    pub fn insert(&mut self, deadline: u64, hart: u64)
        requires { length self.old < 128 }
        ensures { IsInserted (member_of deadline hart) self.old self.new }
    {
        self.start = with_room(&mut self.members, self.start);
        let place = place_of(self.members.as_slice(), self.start, deadline);
        put(&mut self.members, place, Member { deadline, hart });
    }

    /// Removes this hart's first deadline, if it has one.
    pub fn take_out(&mut self, hart: u64)
        ensures { self.new ≡ without_hart hart self.old }
    {
        if let Some(place) = place_of_hart(&self.members.as_slice()[self.start..], hart) {
            self.members.remove(self.start + place);
        }
    }

    /// Removes the first deadline if it isn't later than the time, and returns its hart.
    pub fn pop_due(&mut self, time: u64) -> Option<u64>
        ensures { MatchOption result (AreLater time self.old self.new) (λ hart. IsFirst time hart self.old self.new) }
    {
        let first = *self.members.as_slice().get(self.start)?;
        if first.deadline > time {
            return None;
        }
        self.start += 1;
        Some(first.hart)
    }

    /// Removes all deadlines.
    pub fn clear(&mut self)
        ensures { self.new ≡ [] }
    {
        self.members.clear();
        self.start = 0;
    }
}

/// Makes room for one member if all places are full, by dropping those already taken from the front. It returns the new
/// start.
fn with_room(members: &mut ArrayVec<Member, ROOM>, start: usize) -> usize
    requires within { start ≤ length members.old.items }
    requires some_left { length members.old.items < 128 + start }
    ensures same { drop result members.new.items ≡ drop start members.old.items }
    ensures within { result ≤ length members.new.items }
    ensures room { length members.new.items < 128 }
{
    if !members.is_full() {
        return start;
    }
    let left = members.len() - start;
    members.rotate_left(start);
    members.truncate(left);
    0
}

/// The place for a deadline: before those that are later, and after the others. Most often that is the end; otherwise the
/// place is found by halving.
fn place_of(members: &[Member], start: usize, deadline: u64) -> usize
    requires within { start ≤ length members.now }
    requires in_order { IsNonDecreasingBy (λ (m : Member). m.deadline) (drop start members.now) }
    ensures { IsPlaceOf deadline start members.now result }
{
    let end = members.len();
    if start == end || members[end - 1].deadline <= deadline {
        return end;
    }
    let mut low = start;
    let mut size = end - start;
    while size > 1 {
        let half = size / 2;
        // (no branch: the processor couldn't foresee it)
        low += if members[low + half].deadline <= deadline {
            half
        } else {
            0
        };
        size -= half;
    }
    if members[low].deadline <= deadline {
        low + 1
    } else {
        low
    }
}

/// Inserts a member at a place; there is room for it. At the end no member moves.
fn put(members: &mut ArrayVec<Member, ROOM>, place: usize, member: Member)
    requires within { place ≤ length members.old.items }
    requires room { length members.old.items < 128 }
    ensures { members.new.items ≡ insert members.old.items place member }
{
    if place == members.len() {
        members.push(member);
        return;
    }
    members.insert(place, member);
}

/// The place of this hart's first deadline.
fn place_of_hart(members: &[Member], hart: u64) -> Option<usize>
    ensures { result ≡ position (λ (member : Member). member.hart == hart) members.now }
{
    members.iter().position(|member| member.hart == hart)
}
