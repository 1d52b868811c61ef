//! The rule of each form of operands.
ghost use Rattle.asm_tokens.specs.Readings.{spots_of};
ghost use Rattle.std.specs.Prelude.{◌≡◌};
ghost use Rattle.asm_expressions.specs.Symbols.{context_of};
ghost use Rattle.asm_instructions.specs.Rules.{instructions_of, at_mnemonic, rule_by, takes_sets};

use crate::compute::{
    extended, fixed_immediate, from_zero, immediate, load_address, load_immediate, nop, registers,
    shift, turned_registers, upper, upper_here, with_zero,
};
use crate::jumps::{
    branch_registers, branch_zero, call, goto, jump_link, jump_register, jump_register_link, ret,
    tail,
};
use crate::made::Made;
use crate::memory::{StoreSize, atomic, fetch, load, store};
use crate::operands::{Operands, read_operands};
use crate::supervisor::{alone, fence, on_csr, read_csr, sfence, write_csr};
use crate::taken::takes_of;
use asm_expressions::{Fault, Scope, Wrong};
use asm_mnemonics::OperandForm;
use asm_tokens::Placed;
use rv64_instructions::Instruction;

/// The machine's instructions that a form and its operands make; `left` is the place of the mnemonic.
///
/// # Errors
///
/// The first fault of an operand; or what is wrong with the operands together, at the mnemonic.
pub fn instructions_of(
    scope: &Scope<'_, '_>,
    form: OperandForm,
    left: usize,
    tokens: &[Placed<'_>],
) -> Result<Made, Fault>
    ensures { result ≡ instructions_of (context_of scope.now) form left (spots_of tokens.now) }
{
    if takes_sets(form) {
        return at_mnemonic(left, fence(tokens));
    }
    let operands = read_operands(scope, takes_of(form), tokens)?;
    at_mnemonic(left, rule(form, scope.here, &operands))
}

/// Whether the operands of this form are sets of accesses, which aren't values.
fn takes_sets(form: OperandForm) -> bool
    ensures { result ≡ takes_sets form }
{
    matches!(form, OperandForm::Fence)
}

/// What is wrong, at its place.
fn at_mnemonic(left: usize, made: Result<Made, Wrong>) -> Result<Made, Fault>
    ensures { result ≡ at_mnemonic left made }
{
    match made {
        Ok(made) => Ok(made),
        Err(wrong) => Err(Fault { wrong, left }),
    }
}

/// The rule of a form.
#[tactic(auto, unfolding(crate::specs::Rules::rule_by))]
fn rule(form: OperandForm, here: u64, operands: &Operands) -> Result<Made, Wrong>
    ensures { result ≡ rule_by form here operands.now }
{
    match form {
        OperandForm::Registers(op) => registers(op, operands),
        OperandForm::TurnedRegisters(op) => turned_registers(op, operands),
        OperandForm::Immediate(op) => immediate(op, operands),
        OperandForm::Shift(op) => shift(op, operands),
        OperandForm::Lui => upper(operands),
        OperandForm::Auipc => upper_here(here, operands),
        OperandForm::Load(kind) => load(kind, here, operands),
        OperandForm::StoreDouble => store(StoreSize::Double, here, operands),
        OperandForm::StoreNarrow(name) => store(StoreSize::Narrow(name), here, operands),
        OperandForm::Amo(name) => atomic(name, operands),
        OperandForm::Fetch => fetch(operands),
        OperandForm::Branch(when) => branch_registers(when, false, here, operands),
        OperandForm::TurnedBranch(when) => branch_registers(when, true, here, operands),
        OperandForm::BranchToZero(when) => branch_zero(when, false, here, operands),
        OperandForm::BranchFromZero(when) => branch_zero(when, true, here, operands),
        OperandForm::Jal => jump_link(here, operands),
        OperandForm::Jalr => jump_register_link(operands),
        OperandForm::Goto => goto(here, operands),
        OperandForm::JumpRegister => jump_register(operands),
        OperandForm::Return => ret(operands),
        OperandForm::Call => call(here, operands),
        OperandForm::Tail => tail(here, operands),
        OperandForm::LoadAddress => load_address(here, operands),
        OperandForm::LoadImmediate => load_immediate(operands),
        OperandForm::Nop => nop(operands),
        OperandForm::FixedImmediate(op, n) => fixed_immediate(op, n, operands),
        OperandForm::FromZero(op) => from_zero(op, operands),
        OperandForm::WithZero(op) => with_zero(op, operands),
        OperandForm::Extended(op, bits) => extended(op, bits, operands),
        OperandForm::Csr(how) => on_csr(how, true, operands),
        OperandForm::CsrImmediate(how) => on_csr(how, false, operands),
        OperandForm::ReadCsr => read_csr(operands),
        OperandForm::WriteCsr(how) => write_csr(how, true, operands),
        OperandForm::WriteCsrImmediate(how) => write_csr(how, false, operands),
        OperandForm::Fence | OperandForm::FenceTso => alone(Instruction::Fence, operands),
        OperandForm::FenceI => alone(Instruction::FenceI, operands),
        OperandForm::SfenceVma => sfence(operands),
        OperandForm::Wfi => alone(Instruction::Wfi, operands),
        OperandForm::Ecall => alone(Instruction::Ecall, operands),
        OperandForm::Ebreak => alone(Instruction::Ebreak, operands),
        OperandForm::Sret => alone(Instruction::Sret, operands),
        OperandForm::Refused(_) => Err(Wrong::Refused),
    }
}
