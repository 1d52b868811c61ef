//! Local instructions: those that a guest does alone.
ghost use Rattle.std.specs.Prelude.{◌≡◌, ◌≤◌};
ghost use Rattle.sv39.specs.declared.paging.TheConstants.{ASID_BITS};
ghost use Rattle.rv64_alu.specs.Immediates.{immediate};
ghost use Rattle.asm_guests.specs.Local.{LocalTurn, address, branches, csr_turn, local_turn_of, jumps, puts, sip_turn, local_turn};
ghost use Rattle.asm_guests.specs.Local.LocalTurn.{Steps};
ghost use Rattle.asm_guests.specs.States.{passed};
ghost use Rattle.asm_guests.specs.Csrs.{csr_done};

use crate::csrs::{has_bit_at, is_board_csr, written_value};
use crate::state::{GuestState, RegisterContent};
use rv64_alu::{Comparison, immediate};
use rv64_instructions::{Csr, CsrHow, CsrSource, Instruction, Register};
use sv39::Spaces;

/// What an instruction was for its guest.
#[derive(Clone, Copy, PartialEq, Eq)]
pub(crate) enum Did {
    /// A local step.
    Stepped,
    /// Nothing yet: it is an operation of the board.
    Waits,
    /// The guest's end.
    Ended,
}

/// Does an instruction, if it is local.
pub(crate) fn step(state: &mut GuestState, instruction: &Instruction, spaces: Spaces) -> Did
    requires { spaces.asid_len ≤ ASID_BITS }
    ensures { local_turn_of result state.new ≡ local_turn spaces instruction.now state.old }
{
    match instruction {
        Instruction::Compute { op, rd, rs1, rs2 } => {
            let first = state.content(*rs1);
            let second = state.content(*rs2);
            let value = op.of(first.value, second.value);
            put(state, *rd, value, first.is_known && second.is_known)
        }
        Instruction::ComputeImmediate {
            op,
            rd,
            rs1,
            immediate: n,
        } => {
            let first = state.content(*rs1);
            let value = op.of(first.value, immediate(*n));
            put(state, *rd, value, first.is_known)
        }
        Instruction::Value { rd, value } => put(state, *rd, *value, true),
        Instruction::Branch { when, rs1, rs2, to } => branch(state, *when, *rs1, *rs2, *to),
        Instruction::Jump { rd, to } => jump(state, *rd, *to),
        Instruction::JumpRegister { rd, rs1, offset } => {
            let target = address(state, *rs1, *offset);
            jump(state, *rd, target - target % 2)
        }
        Instruction::Csr { how, csr, rd, from } => on_csr(state, *how, *csr, *rd, from, spaces),
        Instruction::ClearSip { from } => clear_sip(state, from),
        Instruction::Fence => pass(state),
        Instruction::Ebreak => Did::Ended,
        _ => Did::Waits,
    }
}

/// Writes a register, and goes on.
fn put(state: &mut GuestState, rd: Register, value: u64, is_known: bool) -> Did
    ensures { local_turn_of result state.new ≡ Steps (puts rd value is_known state.old) }
{
    state.put(rd.number(), RegisterContent { value, is_known });
    pass(state)
}

/// Goes on passed the instruction.
fn pass(state: &mut GuestState) -> Did
    ensures { local_turn_of result state.new ≡ Steps (passed state.old) }
{
    state.pass();
    Did::Stepped
}

/// The address that a register's value and an offset make.
pub(crate) fn address(state: &GuestState, base: Register, offset: i32) -> u64
    ensures { result ≡ address state.now base (immediate offset) }
{
    state.value(base).wrapping_add(immediate(offset))
}

/// A branch; one to itself, if it is taken, ends the guest.
fn branch(state: &mut GuestState, when: Comparison, rs1: Register, rs2: Register, to: u64) -> Did
    ensures { local_turn_of result state.new ≡ branches when rs1 rs2 to state.old }
{
    if !when.is_taken(state.value(rs1), state.value(rs2)) {
        return pass(state);
    }
    if to == state.pc {
        return Did::Ended;
    }
    state.pc = to;
    Did::Stepped
}

/// A jump that links; one to itself ends the guest.
fn jump(state: &mut GuestState, rd: Register, to: u64) -> Did
    ensures { local_turn_of result state.new ≡ jumps state.old rd to }
{
    if to == state.pc {
        return Did::Ended;
    }
    let link = state.pc.wrapping_add(4);
    state.put(rd.number(), RegisterContent::known(link));
    state.pc = to;
    Did::Stepped
}

/// A CSR instruction: a read alone, or a write to a CSR that the board doesn't have, is local.
fn on_csr(
    state: &mut GuestState,
    how: CsrHow,
    csr: Csr,
    rd: Register,
    from: &CsrSource,
    spaces: Spaces,
) -> Did
    requires { spaces.asid_len ≤ ASID_BITS }
    ensures { local_turn_of result state.new ≡ csr_turn spaces how csr rd from.now state.old }
{
    if !how.writes(from) {
        let old = state.csrs.value(csr);
        return put(state, rd, old, true);
    }
    if is_board_csr(csr) {
        return Did::Waits;
    }
    write_csr(state, how, csr, rd, from, spaces);
    Did::Stepped
}

/// Writes a CSR, gives the old value to a register, and goes on.
pub(crate) fn write_csr(
    state: &mut GuestState,
    how: CsrHow,
    csr: Csr,
    rd: Register,
    from: &CsrSource,
    spaces: Spaces,
)
    requires { spaces.asid_len ≤ ASID_BITS }
    ensures { state.new ≡ csr_done spaces how csr rd from.now state.old }
{
    let old = state.csrs.value(csr);
    let value = written_value(how, old, state.operand(from));
    state.csrs.write(csr, value, spaces);
    state.put(rd.number(), RegisterContent::known(old));
    state.pass();
}

/// A clearing of sip: nothing to do, unless SSIP's bit is in its operand.
fn clear_sip(state: &mut GuestState, from: &CsrSource) -> Did
    ensures { local_turn_of result state.new ≡ sip_turn from.now state.old }
{
    if has_bit_at(state.operand(from), 1) {
        return Did::Waits;
    }
    pass(state)
}
