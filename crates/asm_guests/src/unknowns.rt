//! Instructions that an unknown value decides.
ghost use Rattle.std.specs.Prelude.{◌≡◌, ◌≤◌};
ghost use Rattle.asm_guests.specs.States.{entered};
ghost use Rattle.asm_guests.specs.Unknowns.{argument_count, first_unknown, first_unknown_from, is_by_unknown, lacks, lacks_argument, lacks_call, lacks_for_amo, lacks_operand, unknown_after, unknown_passed};

use crate::guest::{AsmGuest, Code, MOST_STEPS};
use crate::local::{Did, step};
use crate::operations::call_registers;
use crate::replies::{Came, take, take_trap};
use crate::state::GuestState;
use amo::AmoName;
use board_terms::Reply;
use rv64_instructions::{CsrSource, Instruction, Register};
use sbi_abi::call::{BaseCall, HsmCall, RfenceCall};
use sbi_abi::{Call, decode};

/// The address of the first instruction that an unknown value decides, from an entry up to the next operation, which counts.
pub fn unknown_at_entry<C: Code>(code: &C, addr: u64, hart: u64, opaque: u64) -> Option<u64>
    ensures { result ≡ first_unknown_from (C.listing code.now) (entered addr hart opaque) }
{
    first_unknown(code, GuestState::entered(addr, hart, opaque), MOST_STEPS)
}

/// The same behind a guest's operation with this reply.
pub fn unknown_after<C: Code>(code: &C, guest: &AsmGuest, reply: Reply) -> Option<u64>
    ensures { result ≡ unknown_after (C.listing code.now) guest.now reply }
{
    match guest {
        AsmGuest::Before(state) => unknown_passed(code, *state, reply),
        AsmGuest::Trapping(state) => {
            let mut state = *state;
            take_trap(&mut state);
            first_unknown(code, state, MOST_STEPS)
        }
        _ => None,
    }
}

/// The same behind the operation of the instruction at its address.
fn unknown_passed<C: Code>(code: &C, from: GuestState, reply: Reply) -> Option<u64>
    ensures { result ≡ unknown_passed (C.listing code.now) ((C.listing code.now).instruction from.pc) from reply }
{
    let Some(instruction) = code.instruction_at(from.pc) else {
        return None;
    };
    let mut state = from;
    match take(&mut state, &instruction, reply, code.spaces()) {
        Came::GoesOn => first_unknown(code, state, MOST_STEPS),
        Came::Traps | Came::Leaves | Came::Strays(_) => None,
    }
}

/// The same from a state on; of at most so many instructions.
#[tactic(auto, using(crate::proofs::Settling::unknown_more))]
fn first_unknown<C: Code>(code: &C, from: GuestState, most: u32) -> Option<u64>
    ensures { result ≡ first_unknown (C.listing code.now) most from }
{
    let mut state = from;
    let mut left = most;
    'steps: while left > 0 {
        let instruction = code.instruction_at(state.pc)?;
        if is_by_unknown(&instruction, &state) {
            return Some(state.pc);
        }
        match step(&mut state, &instruction, code.spaces()) {
            Did::Stepped => {}
            Did::Waits | Did::Ended => return None,
        }
        left -= 1;
    }
    None
}

/// Whether an unknown value decides what an instruction does.
fn is_by_unknown(instruction: &Instruction, state: &GuestState) -> bool
    ensures { result ≡ is_by_unknown instruction.now state.now }
{
    match instruction {
        Instruction::Branch { rs1, rs2, .. } => lacks(state, *rs1) || lacks(state, *rs2),
        Instruction::JumpRegister { rs1, .. } => lacks(state, *rs1),
        Instruction::Load { rs1, .. } => lacks(state, *rs1),
        Instruction::StoreDouble { rs1, .. } => lacks(state, *rs1),
        Instruction::Amo { name, rd, rs1, .. } => lacks_for_amo(state, *name, *rd, *rs1),
        Instruction::Fetch { rs1, .. } => lacks(state, *rs1),
        Instruction::Csr { from, .. } => lacks_operand(state, from),
        Instruction::ClearSip { from } => lacks_operand(state, from),
        Instruction::SfenceVma { rs1, rs2 } => lacks(state, *rs1) || lacks(state, *rs2),
        Instruction::Ecall => lacks_call(state),
        _ => false,
    }
}

/// Whether the value of a register is unknown.
fn lacks(state: &GuestState, register: Register) -> bool
    ensures { result ≡ lacks state.now register }
{
    !state.content(register).is_known
}

/// Whether the operand of a CSR instruction is unknown.
fn lacks_operand(state: &GuestState, from: &CsrSource) -> bool
    ensures { result ≡ lacks_operand from.now state.now }
{
    match from {
        CsrSource::Register(register) => lacks(state, *register),
        CsrSource::Immediate(_) => false,
    }
}

/// Whether an AMO's address is unknown, or what it compares (Zacas).
fn lacks_for_amo(state: &GuestState, name: AmoName, rd: Register, rs1: Register) -> bool
    ensures { result ≡ lacks_for_amo name rd rs1 state.now }
{
    match name {
        AmoName::Cas => lacks(state, rd) || lacks(state, rs1),
        _ => lacks(state, rs1),
    }
}

/// Whether a7, a6 or an argument that the call has is unknown.
fn lacks_call(state: &GuestState) -> bool
    ensures { result ≡ lacks_call state.now }
{
    let call = decode(&call_registers(state));
    !state.content_at(17).is_known
        || !state.content_at(16).is_known
        || lacks_argument(state, argument_count(&call))
}

/// Whether one of the first so many arguments is unknown.
fn lacks_argument(state: &GuestState, count: u8) -> bool
    requires { count ≤ 6 }
    ensures { result ≡ lacks_argument state.now count }
{
    let mut some = false;
    for i in 0..count {
        some |= !state.content_at(10 + i).is_known;
    }
    some
}

/// How many arguments a call has.
fn argument_count(call: &Call) -> u8
    ensures is { result ≡ argument_count call.now }
    ensures few { result ≤ 6 }
{
    match call {
        Call::Base(BaseCall::ProbeExtension(_)) => 1,
        Call::Base(_) => 0,
        Call::Time(_) => 1,
        Call::Ipi(_) => 2,
        Call::Rfence(RfenceCall::RemoteFenceI { .. }) => 2,
        Call::Rfence(RfenceCall::RemoteSfenceVma { .. }) => 4,
        Call::Rfence(_) => 5,
        Call::Hsm(HsmCall::HartStop) => 0,
        Call::Hsm(HsmCall::HartGetStatus(_)) => 1,
        Call::Hsm(_) => 3,
        Call::Srst(_) => 2,
        Call::Unsupported => 0,
    }
}
