//! How the next step is picked: by random words, or by ranks (profile).
ghost use Rattle.std.specs.Prelude.{◌≡◌, ◌≤◌, IfOk};
ghost use Rattle.seeded_orders.specs.Orders.{pick, picked, picker_of};

use crate::ranks::Ranks;
use guest_programs::Step;
use rand_core::utils::NextWord;
use rand_pcg::Pcg64Dxsm;
use std::alloc::{AllocError, Global};

/// What picks each step of an order (profile).
#[derive(Drop)]
pub(crate) enum Picker {
    /// The step at the generator's next word, modulo their number.
    Even(Pcg64Dxsm),
    /// The step whose kind has the highest rank.
    Ranked(Ranks),
}

impl Picker {
    /// The picker of an order of a seed, for this many harts.
    ///
    /// # Errors
    ///
    /// Out of memory.
    pub(crate) fn new(
        alloc: Global,
        harts: u64,
        seed: u64,
        order: u64,
    ) -> Result<Picker, AllocError>
        requires { harts ≤ 128 }
        ensures { IfOk result (λ picker. picker ≡ picker_of harts seed order) }
    {
        let mut words = Pcg64Dxsm::new(u128::from(seed), u128::from(order));
        if order % 2 == 0 {
            return Ok(Picker::Even(words));
        }
        Ok(Picker::Ranked(Ranks::new(alloc, harts, &mut words)?))
    }

    /// Picks one of these steps, if there is one, in a turn; turns count from 0.
    pub(crate) fn pick(&mut self, turn: u64, steps: &[Step]) -> Option<Step>
        ensures { (result, self.new) ≡ pick self.old turn steps.now }
    {
        match self {
            Picker::Even(words) => picked(words.next_word(), steps),
            Picker::Ranked(ranks) => ranks.pick(turn, steps),
        }
    }
}

/// The step that a word picks, if there is one.
#[tactic(auto, using(crate::proofs::Picking::picked_none, crate::proofs::Picking::picked_some))]
fn picked(word: u64, steps: &[Step]) -> Option<Step>
    ensures { result ≡ picked word steps.now }
{
    if steps.is_empty() {
        return None;
    }
    let place = word % steps.len() as u64;
    steps.get(place as usize).copied()
}
