//! What the reply to an operation makes of a guest.
ghost use Rattle.std.specs.Prelude.{◌≡◌, ◌≤◌, true};
ghost use Rattle.sv39.specs.declared.paging.TheConstants.{ASID_BITS};
ghost use Rattle.rv64_alu.specs.Immediates.{immediate};
ghost use Rattle.asm_guests.specs.Replies.{access_by, reply_taken, call_returned, came, fault_by, returned, sret, trap_by, trap_taken, value_taken};
ghost use Rattle.asm_guests.specs.Replies.Behind.{GoesOn};
ghost use Rattle.asm_guests.specs.Local.{address, puts};
ghost use Rattle.asm_guests.specs.States.{passed};

use crate::guest::Lost;
use crate::local::{address, write_csr};
use crate::state::{GuestState, RegisterContent};
use board_terms::Reply;
use rv64_instructions::{Instruction, Register};
use sv39::Spaces;

/// How a guest goes on passed an operation.
#[derive(Clone, Copy, PartialEq, Eq)]
pub(crate) enum Came {
    /// It goes on.
    GoesOn,
    /// It goes on at its handler, once sstatus.SIE is 0.
    Traps,
    /// It is through.
    Leaves,
    /// It is lost.
    Strays(Lost),
}

/// Takes the reply to the operation of an instruction.
pub(crate) fn take(
    state: &mut GuestState,
    instruction: &Instruction,
    reply: Reply,
    spaces: Spaces,
) -> Came
    requires { spaces.asid_len ≤ ASID_BITS }
    ensures { came result state.new ≡ reply_taken spaces instruction.now state.old reply }
{
    match instruction {
        Instruction::Ecall => take_return(state, reply),
        Instruction::Csr { how, csr, rd, from } => {
            write_csr(state, *how, *csr, *rd, from, spaces);
            Came::GoesOn
        }
        Instruction::Sret => sret(state),
        _ => take_access(state, instruction, reply),
    }
}

/// Takes the reply to a call: it returns; it waits, and then returns 0 and 0; or it doesn't return.
fn take_return(state: &mut GuestState, reply: Reply) -> Came
    ensures { came result state.new ≡ call_returned state.old reply }
{
    match reply {
        Reply::Ret(ret) => returns(state, ret.error.cast_unsigned(), ret.value),
        Reply::Waiting => returns(state, 0, 0),
        _ => Came::Leaves,
    }
}

/// Puts what a call returns into a0 and a1 (SBI 3, Binary Encoding).
fn returns(state: &mut GuestState, error: u64, value: u64) -> Came
    ensures { came result state.new ≡ GoesOn (returned error value state.old) }
{
    state.put(10, RegisterContent::known(error));
    state.put(11, RegisterContent::known(value));
    state.pass();
    Came::GoesOn
}

/// Takes the reply to an access, or to another operation.
fn take_access(state: &mut GuestState, instruction: &Instruction, reply: Reply) -> Came
    ensures { came result state.new ≡ access_by instruction.now state.old reply }
{
    match reply {
        Reply::Value(word) => take_value(state, instruction, word),
        Reply::Fault(cause) => take_fault(state, instruction, cause.number()),
        _ => pass(state),
    }
}

/// Takes the value that was read.
fn take_value(state: &mut GuestState, instruction: &Instruction, word: u64) -> Came
    ensures { came result state.new ≡ value_taken instruction.now state.old word }
{
    match instruction {
        Instruction::Load {
            kind,
            rd,
            rs1,
            offset,
        } => {
            let value = kind.of(address(state, *rs1, *offset), word);
            put(state, *rd, value)
        }
        Instruction::Amo { rd, .. } => put(state, *rd, word),
        Instruction::Fetch { rd, .. } => put(state, *rd, word),
        Instruction::ReadSip { rd } => put(state, *rd, word),
        _ => pass(state),
    }
}

/// Takes a fault with this number: a trap.
fn take_fault(state: &mut GuestState, instruction: &Instruction, cause: u64) -> Came
    ensures { came result state.new ≡ fault_by instruction.now state.old cause }
{
    match instruction {
        Instruction::Load { rs1, offset, .. } => fault_at(state, cause, *rs1, *offset),
        Instruction::StoreDouble { rs1, offset, .. } => fault_at(state, cause, *rs1, *offset),
        Instruction::Amo { rs1, offset, .. } => fault_at(state, cause, *rs1, *offset),
        Instruction::Fetch { rs1, offset, .. } => fault_at(state, cause, *rs1, *offset),
        _ => pass(state),
    }
}

/// A trap for a fault of an access to this address.
fn fault_at(state: &mut GuestState, cause: u64, base: Register, offset: i32) -> Came
    ensures { came result state.new ≡ trap_by state.old.csrs.stvec cause (address state.old base (immediate offset)) state.old }
{
    let at = address(state, base, offset);
    trap(state, cause, at)
}

/// Goes on passed the instruction.
fn pass(state: &mut GuestState) -> Came
    ensures { came result state.new ≡ GoesOn (passed state.old) }
{
    state.pass();
    Came::GoesOn
}

/// Writes a register, and goes on.
fn put(state: &mut GuestState, rd: Register, value: u64) -> Came
    ensures { came result state.new ≡ GoesOn (puts rd value true state.old) }
{
    state.put(rd.number(), RegisterContent::known(value));
    state.pass();
    Came::GoesOn
}

/// A trap: the guest goes to its handler (Privileged 4.1.1, 4.1.2).
fn trap(state: &mut GuestState, cause: u64, value: u64) -> Came
    ensures { came result state.new ≡ trap_by state.old.csrs.stvec cause value state.old }
{
    let Some(stvec) = state.csrs.stvec else {
        return Came::Strays(Lost::NoHandler);
    };
    state.csrs.interrupts_before = state.csrs.interrupts;
    state.csrs.from_supervisor = true;
    state.csrs.sepc = state.pc;
    state.csrs.scause = cause;
    state.csrs.stval = value;
    state.pc = stvec - stvec % 4;
    if state.csrs.interrupts {
        Came::Traps
    } else {
        Came::GoesOn
    }
}

/// The operation of a trap that clears SIE is done.
pub(crate) fn take_trap(state: &mut GuestState)
    ensures { state.new ≡ trap_taken state.old }
{
    state.csrs.interrupts = false;
}

/// SRET: SIE is SPIE, which becomes 1; SPP becomes 0 (Privileged 3.3.2).
fn sret(state: &mut GuestState) -> Came
    ensures { came result state.new ≡ sret state.old }
{
    if !state.csrs.from_supervisor {
        return Came::Strays(Lost::UserMode);
    }
    state.csrs.interrupts = state.csrs.interrupts_before;
    state.csrs.interrupts_before = true;
    state.csrs.from_supervisor = false;
    state.pc = state.csrs.sepc;
    Came::GoesOn
}
