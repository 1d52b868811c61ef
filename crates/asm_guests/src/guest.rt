//! Guests between two operations.
ghost use Rattle.std.specs.Prelude.{◌≡◌};
ghost use Rattle.asm_guests.specs.Guests.{at_end, guest_after, after_instruction, at_entry, next_by, settled, without_instruction};

use crate::local::{Did, step};
use crate::operations::op_by;
use crate::replies::{Came, take, take_trap};
use crate::state::{GuestState, RegisterContent, none_known};
use board_terms::{Op, Reply};
use rv64_instructions::Instruction;
use sv39::Spaces;

/// A program's instructions.
pub trait Code {
    ghost use Rattle.std.specs.Prelude.{◌≡◌, ◌≤◌};
    ghost use Rattle.sv39.specs.declared.paging.TheConstants.{ASID_BITS};
    ghost use Rattle.asm_guests.specs.Listings.{Listing};

    // What the program lists.
    ghost listing: { Self → Listing };

    /// The instruction at an address, if there is one.
    fn instruction_at(&self, pc: u64) -> Option<Instruction>
        ensures { result ≡ (listing self.now).instruction pc };

    /// Whether a section ends at an address.
    fn is_end(&self, pc: u64) -> bool
        ensures { result ≡ (listing self.now).is_end pc };

    /// The widths of the board's addresses and address spaces.
    fn spaces(&self) -> Spaces
        ensures widths { result ≡ (listing self.now).spaces }
        ensures narrow { result.asid_len ≤ ASID_BITS };

    /// Whether guests keep their registers at their ends.
    fn keeps(&self) -> bool
        ensures { result ≡ (listing self.now).keeps };
}

/// Why a guest can't go on, although it isn't through.
#[derive(Clone, Copy, PartialEq, Eq)]
pub enum Lost {
    /// No instruction is at its address.
    NoInstruction,
    /// It did as many local steps as it may without an operation.
    Endless,
    /// A trap came, and it hasn't written stvec.
    NoHandler,
    /// SRET to user mode, which boards don't have.
    UserMode,
}

/// A guest between two operations.
#[derive(Clone, Copy)]
pub enum AsmGuest {
    /// Its hart wasn't entered.
    Nowhere,
    /// Before the operation of the instruction at its address.
    Before(GuestState),
    /// Before the operation that clears sstatus.SIE for a trap.
    Trapping(GuestState),
    /// Through. What its registers hold is kept if the program's guests keep them.
    Through([RegisterContent; 32]),
    /// Lost, at this address.
    Astray(Lost, u64),
}

/// The most local steps without an operation.
pub(crate) const MOST_STEPS: u32 = 100_000;

/// The guest at an entry. Where no instruction stands it has nothing to do.
pub fn at_entry<C: Code>(code: &C, addr: u64, hart: u64, opaque: u64) -> AsmGuest
    ensures { result ≡ at_entry (C.listing code.now) addr hart opaque }
{
    match code.instruction_at(addr) {
        Some(_) => settle(code, GuestState::entered(addr, hart, opaque), MOST_STEPS),
        None => AsmGuest::Through(none_known()),
    }
}

/// The guest behind an operation with this reply.
pub fn guest_after<C: Code>(code: &C, guest: AsmGuest, reply: Reply) -> AsmGuest
    ensures { result ≡ guest_after (C.listing code.now) guest reply }
{
    match guest {
        AsmGuest::Before(state) => after_instruction(code, state, reply),
        AsmGuest::Trapping(state) => {
            let mut state = state;
            take_trap(&mut state);
            settle(code, state, MOST_STEPS)
        }
        _ => guest,
    }
}

/// The guest behind the operation of the instruction at its address.
fn after_instruction<C: Code>(code: &C, from: GuestState, reply: Reply) -> AsmGuest
    ensures { result ≡ after_instruction (C.listing code.now) ((C.listing code.now).instruction from.pc) from reply }
{
    let at = from.pc;
    let Some(instruction) = code.instruction_at(at) else {
        return AsmGuest::Astray(Lost::NoInstruction, at);
    };
    let mut state = from;
    match take(&mut state, &instruction, reply, code.spaces()) {
        Came::GoesOn => settle(code, state, MOST_STEPS),
        Came::Traps => AsmGuest::Trapping(state),
        Came::Leaves => AsmGuest::Through(none_known()),
        Came::Strays(lost) => AsmGuest::Astray(lost, at),
    }
}

/// The guest's next operation, if it has one.
pub fn next_operation<C: Code>(code: &C, guest: &AsmGuest) -> Option<Op>
    ensures { result ≡ next_by (C.listing code.now) guest.now }
{
    match guest {
        AsmGuest::Before(state) => {
            let instruction = code.instruction_at(state.pc)?;
            op_by(&instruction, state)
        }
        AsmGuest::Trapping(_) => Some(Op::WriteSstatusSie(false)),
        _ => None,
    }
}

/// The guest from a state on, guest_after its local steps, of which it may do so many.
#[tactic(auto, using(crate::proofs::Settling::settled_more))]
fn settle<C: Code>(code: &C, from: GuestState, most: u32) -> AsmGuest
    ensures { result ≡ settled (C.listing code.now) most from }
{
    let mut state = from;
    let mut left = most;
    'steps: while left > 0 {
        let Some(instruction) = code.instruction_at(state.pc) else {
            return without_instruction(code, &state);
        };
        match step(&mut state, &instruction, code.spaces()) {
            Did::Stepped => {}
            Did::Waits => return AsmGuest::Before(state),
            Did::Ended => return at_end(code, &state),
        }
        left -= 1;
    }
    AsmGuest::Astray(Lost::Endless, state.pc)
}

/// The guest in a state at whose address no instruction is.
fn without_instruction<C: Code>(code: &C, state: &GuestState) -> AsmGuest
    ensures { result ≡ without_instruction (C.listing code.now) state.now }
{
    if code.is_end(state.pc) {
        at_end(code, state)
    } else {
        AsmGuest::Astray(Lost::NoInstruction, state.pc)
    }
}

/// The guest that is through in this state.
fn at_end<C: Code>(code: &C, state: &GuestState) -> AsmGuest
    ensures { result ≡ at_end (C.listing code.now) state.now }
{
    if code.keeps() {
        AsmGuest::Through(state.registers)
    } else {
        AsmGuest::Through(none_known())
    }
}
