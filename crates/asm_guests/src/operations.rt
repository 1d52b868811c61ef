//! The operation of the board that an instruction is.
ghost use Rattle.std.specs.Prelude.{◌≡◌, ◌<◌};
ghost use Rattle.asm_guests.specs.Operations.{amo_op, call_registers, csr_op, op_by, unless_zero, word_around};

use crate::csrs::{has_bit_at, written_value};
use crate::local::address;
use crate::state::GuestState;
use amo::AmoName;
use board_terms::Op;
use rv64_instructions::{Csr, Instruction, Register};
use sbi_abi::Regs;

/// The operation of an instruction, if it isn't local.
pub(crate) fn op_by(instruction: &Instruction, state: &GuestState) -> Option<Op>
    ensures { result ≡ op_by instruction.now state.now }
{
    Some(match instruction {
        Instruction::Load {
            kind,
            rs1,
            offset,
            ..
        } => { Op::Load(word_around(kind.size(), address(state, *rs1, *offset))) }
        Instruction::StoreDouble { rs2, rs1, offset } => {
            Op::Store(address(state, *rs1, *offset), state.value(*rs2))
        }
        Instruction::Amo {
            name,
            rd,
            rs2,
            rs1,
            offset,
        } => amo_op(state, *name, *rd, *rs2, address(state, *rs1, *offset)),
        Instruction::Fetch { rs1, offset, .. } => Op::Fetch(address(state, *rs1, *offset)),
        Instruction::Csr { how, csr, from, .. } => {
            let value = written_value(*how, state.csrs.value(*csr), state.operand(from));
            return csr_op(*csr, value);
        }
        Instruction::ReadSip { .. } => Op::ReadSip,
        Instruction::ClearSip { .. } => Op::ClearSsip,
        Instruction::FenceI => Op::FenceI,
        Instruction::SfenceVma { rs1, rs2 } => {
            Op::Sfence(unless_zero(state, *rs1), unless_zero(state, *rs2))
        }
        Instruction::Wfi => Op::Wfi,
        Instruction::Ecall => Op::Ecall(call_registers(state)),
        Instruction::Sret => Op::WriteSstatusSie(state.csrs.interrupts_before),
        _ => return None,
    })
}

/// The address of the word of 8 bytes around a naturally aligned address; any other address as it is.
fn word_around(size: u64, at: u64) -> u64
    requires { 0 < size }
    ensures { result ≡ word_around size at }
{
    if at % size == 0 { at - at % 8 } else { at }
}

/// An AMO at an address. A compare-and-swap expects what its result's register holds (Zacas).
fn amo_op(state: &GuestState, name: AmoName, rd: Register, rs2: Register, at: u64) -> Op
    ensures { result ≡ amo_op state.now name rd rs2 at }
{
    let second = state.value(rs2);
    let first = match name {
        AmoName::Cas => state.value(rd),
        _ => second,
    };
    Op::Amo(at, name.amo(first, second))
}

/// a7, a6, and a0 to a5 (SBI 3, Binary Encoding).
pub(crate) fn call_registers(state: &GuestState) -> Regs
    ensures { result ≡ call_registers state.now }
{
    Regs {
        eid: state.content_at(17).value,
        fid: state.content_at(16).value,
        a: [
            state.content_at(10).value,
            state.content_at(11).value,
            state.content_at(12).value,
            state.content_at(13).value,
            state.content_at(14).value,
            state.content_at(15).value,
        ],
    }
}

/// The value of a register, or None for x0, by the register's number (Privileged 4.2.1).
fn unless_zero(state: &GuestState, register: Register) -> Option<u64>
    ensures { result ≡ unless_zero state.now register }
{
    if register.number() == 0 {
        return None;
    }
    Some(state.content_at(register.number()).value)
}

/// The write of a CSR that the board has.
fn csr_op(csr: Csr, value: u64) -> Option<Op>
    ensures { result ≡ csr_op csr value }
{
    match csr {
        Csr::Sstatus => Some(Op::WriteSstatusSie(has_bit_at(value, 1))),
        Csr::Sie => Some(Op::WriteSie(value)),
        Csr::Satp => Some(Op::WriteSatp(value)),
        _ => None,
    }
}
