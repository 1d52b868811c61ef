//! Ranks of kinds of steps, which change in two turns.
ghost use Rattle.std.specs.Prelude.{◌≡◌, ◌^◌, ◌*◌, ◌+◌, ◌%◌, ◌<◌, ◌≤◌, zero, slice_set, IfOk, None, Some};
ghost use Rattle.seeded_orders.specs.Ranks.{higher, highest, place_of, rank_of, ranking, ranks_from, reranked};

use guest_programs::Step;
use rand_core::utils::NextWord;
use rand_pcg::Pcg64Dxsm;
use std::alloc::{AllocError, Global};
use std::marker::Model;

/// The ranks of all kinds of steps, the clock's and each hart's, and the two turns in which a rank falls.
#[derive(Drop)]
pub(crate) struct Ranks {
    ranks: Vec<u64>,
    first: u64,
    second: u64,
}

impl Model for Ranks {
    ghost use Rattle.seeded_orders.specs.Ranks.{Ranking};

    ghost Value = { Ranking };

    ghost view = { λ r. record { ranks = r.ranks.items; first = r.first; second = r.second } };
}

impl Ranks {
    /// The ranks that a generator gives the kinds of steps of so many harts and the clock, and two turns below 2,048.
    ///
    /// # Errors
    ///
    /// Out of memory.
    pub(crate) fn new(alloc: Global, harts: u64, words: &mut Pcg64Dxsm) -> Result<Ranks, AllocError>
        requires { harts ≤ 128 }
        ensures { IfOk result (λ ranks. ranks ≡ ranking harts words.old) }
    {
        let span = span(words.next_word());
        let first = words.next_word() % span;
        let second = words.next_word() % span;
        let ranks = drawn(alloc, 4 * harts + 1, words)?;
        Ok(Ranks {
            ranks,
            first,
            second,
        })
    }

    /// The step of the highest rank, if there is one. In two turns the rank of the kind that would go first falls.
    pub(crate) fn pick(&mut self, turn: u64, steps: &[Step]) -> Option<Step>
        ensures ranks { self.new ≡ reranked self.old turn (highest self.old.ranks None steps.now) }
        ensures step { result ≡ highest self.new.ranks None steps.now }
    {
        let step = highest(&self.ranks, steps)?;
        if turn == self.first {
            self.put(step, 1);
        } else if turn == self.second {
            self.put(step, 0);
        } else {
            return Some(step);
        }
        highest(&self.ranks, steps)
    }

    /// Gives the kind of a step another rank.
    fn put(&mut self, step: Step, rank: u64)
        ensures ranks { self.new.ranks ≡ slice_set self.old.ranks (place_of step) rank }
        ensures first { self.new.first ≡ self.old.first }
        ensures second { self.new.second ≡ self.old.second }
    {
        let place = place_of(step);
        if place < self.ranks.len() {
            self.ranks[place] = rank;
        }
    }
}

/// The bound of the turns in which a rank falls: a power of 2 below 4,096, so early turns are likely too.
fn span(word: u64) -> u64
    ensures value { result ≡ 2 ^ (word % 12) }
    ensures some { 0 < result }
{
    1 << (word % 12)
}

/// So many ranks, all above those after a fall.
///
/// # Errors
///
/// Out of memory.
fn drawn(alloc: Global, many: u64, words: &mut Pcg64Dxsm) -> Result<Vec<u64>, AllocError>
    ensures { IfOk result (λ v. v.items ≡ ranks_from many words.old) }
{
    let mut ranks = Vec::new(alloc);
    for i in 0..many {
        ranks.push(words.next_word() / 2 + 2)?;
    }
    Ok(ranks)
}

/// The place of the rank of a step's kind: first the clock's, then four for each hart. Hart ids are below 128.
fn place_of(step: Step) -> usize
    ensures { result ≡ place_of step }
{
    match step {
        Step::Tick => 0,
        Step::Serve(h) => 4 * (h % 128) as usize + 1,
        Step::Poll(h) => 4 * (h % 128) as usize + 2,
        Step::Advance(h) => 4 * (h % 128) as usize + 3,
        Step::Guest(h) => 4 * (h % 128) as usize + 4,
    }
}

/// The rank of a step's kind.
fn rank_of(ranks: &[u64], step: Step) -> u64
    ensures { result ≡ rank_of ranks.now step }
{
    ranks.get(place_of(step)).copied().unwrap_or(0)
}

/// The step of the highest rank, if there is one; the first among equals.
fn highest(ranks: &[u64], steps: &[Step]) -> Option<Step>
    ensures { result ≡ highest ranks.now None steps.now }
{
    let mut best = None;
    for step in steps {
        best = Some(higher(ranks, best, *step));
    }
    best
}

/// The step of the higher rank; the earlier one if the ranks are equal.
fn higher(ranks: &[u64], best: Option<Step>, step: Step) -> Step
    ensures { result ≡ higher ranks.now best step }
{
    match best {
        Some(best) if rank_of(ranks, step) <= rank_of(ranks, best) => best,
        _ => step,
    }
}
