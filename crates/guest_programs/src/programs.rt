//! Programs of scripts, and what guests of blocks do.
ghost use Rattle.std.specs.Prelude.{◌≡◌, ◌↔◌, ℕ, List, IfOk, None, length, slice_get};
ghost use Rattle.hsm.specs.declared.hart.HartState.TheVariants.{Started};
ghost use Rattle.board_core.specs.Fences.{outstanding};
ghost use Rattle.board_core.specs.History.{Event};
ghost use Rattle.board_core.specs.Opening.{Opening};
ghost use Rattle.board_core.specs.States.{state};
ghost use Rattle.guest_script.specs.Grammar.{Guest, content};
ghost use Rattle.guest_programs.specs.Blocks.{block_of, done, in_blocks};
ghost use Rattle.guest_programs.specs.Ends.{IsThrough};
ghost use Rattle.guest_programs.specs.Guests.{last_entry, next_op};
ghost use Rattle.guest_programs.specs.Programs.{IsProgram, blocks_of, ticks_of};
ghost use Rattle.guest_programs.specs.Steps.{task_in};

use crate::blocks::{Program, indexed};
use guest_script::Body;
use std::alloc::{AllocError, Global};

/// The program of a script's body.
///
/// # Errors
///
/// Out of memory.
pub fn program_in(alloc: Global, body: &Body) -> Result<Program<'_>, AllocError>
    requires { IsProgram (content body.now) }
    ensures blocks { IfOk result (λ program. (task_in program).guests ≡ blocks_of (content body.now)) }
    ensures ticks { IfOk result (λ program. program.ticks.now ≡ ticks_of (content body.now)) }
{
    match body {
        Body::Empty => indexed(alloc, &[], &[]),
        Body::Program { blocks, clock } => indexed(alloc, blocks, clock),
        Body::Schedule(_) | Body::Trace(_) => unreachable!(),
    }
}

/// What guests of blocks do. The next operation is the one in the entry's block after those done since the entry. A
/// hart is through if and only if these are the whole block, in order. A law: there is nothing to run.
pub fn blocks_in_order()
    ensures next { (blocks : List Guest) (past : List Event) (h : ℕ) → next_op (in_blocks blocks) past h
        ≡ slice_get (block_of blocks (last_entry past h)) (length (done past h)) }
    ensures through { (o : Opening) (past : List Event) (blocks : List Guest) (h : ℕ)
        → (IsThrough o past (in_blocks blocks) h ↔ ((state o past h ≡ Started) × (outstanding o past h ≡ None)
        × (done past h ≡ block_of blocks (last_entry past h)))) }
{}
