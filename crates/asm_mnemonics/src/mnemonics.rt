//! The table of mnemonics.
ghost use Rattle.std.specs.Prelude.{◌≡◌, map, option_map};
ghost use Rattle.asm_mnemonics.specs.Mnemonics.{before_order, row_form, only_amo, operands_of, refused, row_of, unlisted};

use crate::forms::{OperandForm, OperandForm as Form, Unsupported};
use amo::{AmoFunction, AmoName};
use rv64_alu::{AluOp, Comparison, LoadKind, WordOp};
use rv64_instructions::CsrHow;

/// All mnemonics, each with the form of its operands.
pub const MNEMONICS: [(&[u8], OperandForm); 147] = [
    (b"add", Form::Registers(AluOp::Add)),
    (b"sub", Form::Registers(AluOp::Sub)),
    (b"sll", Form::Registers(AluOp::Sll)),
    (b"slt", Form::Registers(AluOp::Slt)),
    (b"sltu", Form::Registers(AluOp::Sltu)),
    (b"xor", Form::Registers(AluOp::Xor)),
    (b"srl", Form::Registers(AluOp::Srl)),
    (b"sra", Form::Registers(AluOp::Sra)),
    (b"or", Form::Registers(AluOp::Or)),
    (b"and", Form::Registers(AluOp::And)),
    (b"mul", Form::Registers(AluOp::Mul)),
    (b"mulh", Form::Registers(AluOp::Mulh)),
    (b"mulhsu", Form::Registers(AluOp::Mulhsu)),
    (b"mulhu", Form::Registers(AluOp::Mulhu)),
    (b"div", Form::Registers(AluOp::Div)),
    (b"divu", Form::Registers(AluOp::Divu)),
    (b"rem", Form::Registers(AluOp::Rem)),
    (b"remu", Form::Registers(AluOp::Remu)),
    (b"addw", Form::Registers(AluOp::Word(WordOp::Add))),
    (b"subw", Form::Registers(AluOp::Word(WordOp::Sub))),
    (b"sllw", Form::Registers(AluOp::Word(WordOp::Sll))),
    (b"srlw", Form::Registers(AluOp::Word(WordOp::Srl))),
    (b"sraw", Form::Registers(AluOp::Word(WordOp::Sra))),
    (b"mulw", Form::Registers(AluOp::Word(WordOp::Mul))),
    (b"divw", Form::Registers(AluOp::Word(WordOp::Div))),
    (b"divuw", Form::Registers(AluOp::Word(WordOp::Divu))),
    (b"remw", Form::Registers(AluOp::Word(WordOp::Rem))),
    (b"remuw", Form::Registers(AluOp::Word(WordOp::Remu))),
    (b"sgt", Form::TurnedRegisters(AluOp::Slt)),
    (b"sgtu", Form::TurnedRegisters(AluOp::Sltu)),
    (b"addi", Form::Immediate(AluOp::Add)),
    (b"slti", Form::Immediate(AluOp::Slt)),
    (b"sltiu", Form::Immediate(AluOp::Sltu)),
    (b"xori", Form::Immediate(AluOp::Xor)),
    (b"ori", Form::Immediate(AluOp::Or)),
    (b"andi", Form::Immediate(AluOp::And)),
    (b"addiw", Form::Immediate(AluOp::Word(WordOp::Add))),
    (b"slli", Form::Shift(AluOp::Sll)),
    (b"srli", Form::Shift(AluOp::Srl)),
    (b"srai", Form::Shift(AluOp::Sra)),
    (b"slliw", Form::Shift(AluOp::Word(WordOp::Sll))),
    (b"srliw", Form::Shift(AluOp::Word(WordOp::Srl))),
    (b"sraiw", Form::Shift(AluOp::Word(WordOp::Sra))),
    (b"lui", Form::Lui),
    (b"auipc", Form::Auipc),
    (b"lb", Form::Load(LoadKind::Lb)),
    (b"lh", Form::Load(LoadKind::Lh)),
    (b"lw", Form::Load(LoadKind::Lw)),
    (b"ld", Form::Load(LoadKind::Ld)),
    (b"lbu", Form::Load(LoadKind::Lbu)),
    (b"lhu", Form::Load(LoadKind::Lhu)),
    (b"lwu", Form::Load(LoadKind::Lwu)),
    (b"sb", Form::StoreNarrow(AmoName::Store1)),
    (b"sh", Form::StoreNarrow(AmoName::Store2)),
    (b"sw", Form::StoreNarrow(AmoName::Store4)),
    (b"sd", Form::StoreDouble),
    (b"amoswap.w", Form::Amo(AmoName::Half(AmoFunction::Swap))),
    (b"amoswap.d", Form::Amo(AmoName::Double(AmoFunction::Swap))),
    (b"amoadd.w", Form::Amo(AmoName::Half(AmoFunction::Add))),
    (b"amoadd.d", Form::Amo(AmoName::Double(AmoFunction::Add))),
    (b"amoand.w", Form::Amo(AmoName::Half(AmoFunction::And))),
    (b"amoand.d", Form::Amo(AmoName::Double(AmoFunction::And))),
    (b"amoor.w", Form::Amo(AmoName::Half(AmoFunction::Or))),
    (b"amoor.d", Form::Amo(AmoName::Double(AmoFunction::Or))),
    (b"amoxor.w", Form::Amo(AmoName::Half(AmoFunction::Xor))),
    (b"amoxor.d", Form::Amo(AmoName::Double(AmoFunction::Xor))),
    (b"amomin.w", Form::Amo(AmoName::Half(AmoFunction::Min))),
    (b"amomin.d", Form::Amo(AmoName::Double(AmoFunction::Min))),
    (b"amomax.w", Form::Amo(AmoName::Half(AmoFunction::Max))),
    (b"amomax.d", Form::Amo(AmoName::Double(AmoFunction::Max))),
    (b"amominu.w", Form::Amo(AmoName::Half(AmoFunction::Minu))),
    (b"amominu.d", Form::Amo(AmoName::Double(AmoFunction::Minu))),
    (b"amomaxu.w", Form::Amo(AmoName::Half(AmoFunction::Maxu))),
    (b"amomaxu.d", Form::Amo(AmoName::Double(AmoFunction::Maxu))),
    (b"amocas.d", Form::Amo(AmoName::Cas)),
    (b"fetch", Form::Fetch),
    (b"beq", Form::Branch(Comparison::Eq)),
    (b"bne", Form::Branch(Comparison::Ne)),
    (b"blt", Form::Branch(Comparison::Lt)),
    (b"bge", Form::Branch(Comparison::Ge)),
    (b"bltu", Form::Branch(Comparison::Ltu)),
    (b"bgeu", Form::Branch(Comparison::Geu)),
    (b"bgt", Form::TurnedBranch(Comparison::Lt)),
    (b"ble", Form::TurnedBranch(Comparison::Ge)),
    (b"bgtu", Form::TurnedBranch(Comparison::Ltu)),
    (b"bleu", Form::TurnedBranch(Comparison::Geu)),
    (b"beqz", Form::BranchToZero(Comparison::Eq)),
    (b"bnez", Form::BranchToZero(Comparison::Ne)),
    (b"bltz", Form::BranchToZero(Comparison::Lt)),
    (b"bgez", Form::BranchToZero(Comparison::Ge)),
    (b"bgtz", Form::BranchFromZero(Comparison::Lt)),
    (b"blez", Form::BranchFromZero(Comparison::Ge)),
    (b"jal", Form::Jal),
    (b"jalr", Form::Jalr),
    (b"j", Form::Goto),
    (b"jr", Form::JumpRegister),
    (b"ret", Form::Return),
    (b"call", Form::Call),
    (b"tail", Form::Tail),
    (b"la", Form::LoadAddress),
    (b"lla", Form::LoadAddress),
    (b"li", Form::LoadImmediate),
    (b"nop", Form::Nop),
    (b"mv", Form::FixedImmediate(AluOp::Add, 0)),
    (b"not", Form::FixedImmediate(AluOp::Xor, -1)),
    (b"neg", Form::FromZero(AluOp::Sub)),
    (b"negw", Form::FromZero(AluOp::Word(WordOp::Sub))),
    (b"sext.w", Form::FixedImmediate(AluOp::Word(WordOp::Add), 0)),
    (b"seqz", Form::FixedImmediate(AluOp::Sltu, 1)),
    (b"snez", Form::FromZero(AluOp::Sltu)),
    (b"sltz", Form::WithZero(AluOp::Slt)),
    (b"sgtz", Form::FromZero(AluOp::Slt)),
    (b"zext.b", Form::FixedImmediate(AluOp::And, 255)),
    (b"sext.b", Form::Extended(AluOp::Sra, 56)),
    (b"sext.h", Form::Extended(AluOp::Sra, 48)),
    (b"zext.h", Form::Extended(AluOp::Srl, 48)),
    (b"zext.w", Form::Extended(AluOp::Srl, 32)),
    (b"csrrw", Form::Csr(CsrHow::Write)),
    (b"csrrwi", Form::CsrImmediate(CsrHow::Write)),
    (b"csrrs", Form::Csr(CsrHow::Set)),
    (b"csrrsi", Form::CsrImmediate(CsrHow::Set)),
    (b"csrrc", Form::Csr(CsrHow::Clear)),
    (b"csrrci", Form::CsrImmediate(CsrHow::Clear)),
    (b"csrr", Form::ReadCsr),
    (b"csrw", Form::WriteCsr(CsrHow::Write)),
    (b"csrwi", Form::WriteCsrImmediate(CsrHow::Write)),
    (b"csrs", Form::WriteCsr(CsrHow::Set)),
    (b"csrsi", Form::WriteCsrImmediate(CsrHow::Set)),
    (b"csrc", Form::WriteCsr(CsrHow::Clear)),
    (b"csrci", Form::WriteCsrImmediate(CsrHow::Clear)),
    (b"fence", Form::Fence),
    (b"fence.i", Form::FenceI),
    (b"fence.tso", Form::FenceTso),
    (b"sfence.vma", Form::SfenceVma),
    (b"wfi", Form::Wfi),
    (b"ecall", Form::Ecall),
    (b"ebreak", Form::Ebreak),
    (b"sret", Form::Sret),
    (b"amocas.w", Form::Refused(Unsupported::Cas)),
    (b"amocas.q", Form::Refused(Unsupported::Cas)),
    (b"rdtime", Form::Refused(Unsupported::Counter)),
    (b"rdcycle", Form::Refused(Unsupported::Counter)),
    (b"rdinstret", Form::Refused(Unsupported::Counter)),
    (b"mret", Form::Refused(Unsupported::Machine)),
    (b"uret", Form::Refused(Unsupported::Machine)),
    (b"hfence.vvma", Form::Refused(Unsupported::Machine)),
    (b"hfence.gvma", Form::Refused(Unsupported::Machine)),
];

/// The form of a mnemonic, if a word is one. An AMO can have `.aq`, `.rl` or `.aqrl` behind it.
pub fn operands_of(word: &[u8]) -> Option<OperandForm>
    ensures { result ≡ operands_of word.now }
{
    match row_of(word) {
        Some(form) => Some(form),
        None => unlisted(word),
    }
}

/// The form in the first row of the table with this word.
#[tactic(auto, unfolding(crate::specs::Mnemonics::row_of))]
fn row_of(word: &[u8]) -> Option<OperandForm>
    ensures { result ≡ row_of word.now }
{
    row_form(&MNEMONICS, word)
}

/// The form in the first row with this word.
fn row_form(rows: &[(&[u8], OperandForm)], word: &[u8]) -> Option<OperandForm>
    ensures { result ≡ row_form word.now (map (λ row. (row.0.now, row.1)) rows.now) }
{
    for row in rows {
        if row.0 == word {
            return Some(row.1);
        }
    }
    None
}

/// The form of a word that no row has: an instruction that isn't obeyed, or an AMO with its order.
fn unlisted(word: &[u8]) -> Option<OperandForm>
    ensures { result ≡ unlisted word.now }
{
    if let Some(refusal) = refused(word) {
        return Some(OperandForm::Refused(refusal));
    }
    only_amo(row_of(before_order(word)?)?)
}

/// Why an instruction isn't obeyed whose name begins like this word.
fn refused(word: &[u8]) -> Option<Unsupported>
    ensures { result ≡ refused word.now }
{
    if word.starts_with(b"lr.") || word.starts_with(b"sc.") {
        return Some(Unsupported::Reservation);
    }
    if word.starts_with(b"c.") {
        return Some(Unsupported::Compressed);
    }
    if word.starts_with(b"f") {
        return Some(Unsupported::Float);
    }
    None
}

/// The word before the order of an AMO.
fn before_order(word: &[u8]) -> Option<&[u8]>
    ensures { option_map (λ name. name.now) result ≡ before_order word.now }
{
    if let Some(name) = word.strip_suffix(b".aqrl") {
        return Some(name);
    }
    if let Some(name) = word.strip_suffix(b".aq") {
        return Some(name);
    }
    word.strip_suffix(b".rl")
}

/// A form, if it is an AMO's.
fn only_amo(form: OperandForm) -> Option<OperandForm>
    ensures { result ≡ only_amo form }
{
    match form {
        OperandForm::Amo(_) => Some(form),
        _ => None,
    }
}
