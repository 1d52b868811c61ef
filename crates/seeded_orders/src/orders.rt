//! The order of a seed and a number, and its record.
ghost use Rattle.std.specs.Prelude.{◌≡◌, ◌↔◌, ◌⊎◌, IfErr, IfOk, IsErrOf, OnOk, Some};
ghost use Rattle.board_terms.specs.Limits.{IsGood};
ghost use Rattle.board_core.specs.Opening.{opening_at};
ghost use Rattle.board_core.specs.Replies.{IsLegal};
ghost use Rattle.guest_script.specs.Grammar.{content};
ghost use Rattle.guest_programs.specs.Programs.{IsProgram};
ghost use Rattle.guest_programs.specs.declared.ends.RunFault.TheVariants.{BadConfig, NoMemory};
ghost use Rattle.seeded_orders.specs.Orders.{IsTried, met_before, ordered, past_with};
ghost use Rattle.guest_programs.specs.Places.{AreAt};
ghost use Rattle.guest_programs.specs.Steps.{Task, steps, task_of};

use crate::pickers::Picker;
use board_core::Board;
use guest_programs::{
    End, Guests, Met, Places, RunEnd, RunFault, Step, end_of, new_board, program_in,
};
use guest_script::Script;
use std::alloc::{AllocError, Global};

/// Runs a program on a new board, in the order of a seed and a number: each turn takes one of the steps that the
/// program's actors can take on their own (profile).
///
/// # Errors
///
/// `BadConfig`: a number of the board line is outside the limits. `NoMemory`: out of memory.
pub fn try_order(alloc: Global, script: &Script, seed: u64, order: u64) -> Result<RunEnd, RunFault>
    requires { IsProgram (content script.now.body) }
    ensures bad { IsErrOf result BadConfig ↔ ¬ IsGood script.now.config }
    ensures fault { IfErr result (λ fault. (fault ≡ BadConfig) ⊎ (fault ≡ NoMemory)) }
    ensures opening { IfOk result (λ run. run.board.opening ≡ opening_at script.now.config) }
    ensures legal { IfOk result (λ run. IsLegal run.board.opening run.board.past) }
    ensures tried { IfOk result
        (λ run. IsTried script.now.config (task_of (content script.now.body)) seed order run.board.past run.end) }
{
    let mut board = new_board(alloc, &script.config)?;
    let program = program_in(alloc, &script.body)?;
    let end = try_order_on(alloc, &program, program.ticks, &mut board, seed, order)?;
    Ok(RunEnd { end, board })
}

/// Puts a board back to its first opening, and runs guests and a clock's ticks on it, in the order of a seed and a
/// number: each turn takes one of the steps that these actors can take on their own (profile).
///
/// # Errors
///
/// Out of memory.
pub fn try_order_on<G: Guests>(
    alloc: Global,
    guests: &G,
    ticks: &[u64],
    board: &mut Board,
    seed: u64,
    order: u64,
) -> Result<End, AllocError>
    ensures config { board.new.opening.config ≡ board.old.opening.config }
    ensures opening { OnOk result (board.new.opening ≡ opening_at board.old.opening.config) }
    ensures legal { IsLegal board.new.opening board.new.past }
    ensures tried { IfOk result
        (λ end. IsTried board.old.opening.config (record { guests = G.next guests.now; ticks = ticks.now }) seed order
        board.new.past end) }
{
    let ended = follow_anew(alloc, guests, ticks, board, seed, order);
    let _legal = board.history();
    ended
}

/// Puts a board back to its first opening, and runs guests and ticks on it, in the order of a seed and a number.
fn follow_anew<G: Guests>(
    alloc: Global,
    guests: &G,
    ticks: &[u64],
    board: &mut Board,
    seed: u64,
    order: u64,
) -> Result<End, AllocError>
    ensures config { board.new.opening.config ≡ board.old.opening.config }
    ensures opening { OnOk result (board.new.opening ≡ opening_at board.old.opening.config) }
    ensures tried { IfOk result
        (λ end. IsTried board.old.opening.config (record { guests = G.next guests.now; ticks = ticks.now }) seed order
        board.new.past end) }
{
    let harts = board.config().harts;
    let mut places = Places::new(alloc, guests, harts, ticks)?;
    let mut picker = Picker::new(alloc, harts, seed, order)?;
    board.begin_anew(alloc)?;
    let met = follow(alloc, board, guests, &mut places, &mut picker)?;
    end_of(alloc, board, guests, met)
}

/// Takes a step each turn until no step can be taken or the history is full, and returns which of the two.
///
/// # Errors
///
/// Out of memory.
fn follow<G: Guests>(
    alloc: Global,
    board: &mut Board,
    guests: &G,
    places: &mut Places<'_, G::Place>,
    picker: &mut Picker,
) -> Result<Met, AllocError>
    ensures opening { board.new.opening ≡ board.old.opening }
    ensures past { OnOk result ((p : Task) → p.guests ≡ G.next guests.now
        → AreAt (G.rest guests.now) p board.old.opening.config.harts board.old.past places.old
        → board.new.past ≡ ordered board.old.opening p board.old.opening.config.limit 0 picker.old board.old.past) }
    ensures met { IfOk result (λ met. (p : Task) → p.guests ≡ G.next guests.now
        → AreAt (G.rest guests.now) p board.old.opening.config.harts board.old.past places.old
        → met ≡ met_before (steps board.new.opening p board.new.past)) }
{
    let mut steps = Vec::new(alloc);
    for i in 0..board.config().limit {
        places.list(guests, board, &mut steps)?;
        let Some(step) = picker.pick(i, &steps) else {
            return Ok(Met::Nothing);
        };
        take(board, guests, places, step);
    }
    places.list(guests, board, &mut steps)?;
    Ok(met_before(&steps))
}

/// What an order has met that ends while these steps are left.
fn met_before(left: &[Step]) -> Met
    ensures { result ≡ met_before left.now }
{
    if left.is_empty() {
        Met::Nothing
    } else {
        Met::FullHistory
    }
}

/// Takes a step.
fn take<G: Guests>(board: &mut Board, guests: &G, places: &mut Places<'_, G::Place>, step: Step)
    ensures opening { board.new.opening ≡ board.old.opening }
    ensures past { (p : Task) → AreAt (G.rest guests.now) p board.old.opening.config.harts board.old.past places.old
        → board.new.past ≡ past_with board.old.opening p board.old.past (Some step) }
    ensures places { (p : Task) → p.guests ≡ G.next guests.now
        → AreAt (G.rest guests.now) p board.old.opening.config.harts board.old.past places.old
        → AreAt (G.rest guests.now) p board.old.opening.config.harts board.new.past places.new }
{
    let Some(op) = places.op(guests, step) else {
        return;
    };
    let actor = step.actor();
    if let Ok(reply) = board.step(actor, op) {
        places.see(guests, actor, op, reply);
    }
}
