//! Forms: the operands that stand behind a mnemonic, and what they make.
use amo::AmoName;
use rv64_alu::{AluOp, Comparison, LoadKind};
use rv64_instructions::CsrHow;

/// The operands of an instruction, and what it does with them.
#[derive(Clone, Copy, PartialEq, Eq)]
pub enum OperandForm {
    /// `rd, rs1, rs2`: an operation on two registers.
    Registers(AluOp),
    /// `rd, rs1, rs2`: the same with the second register first.
    TurnedRegisters(AluOp),
    /// `rd, rs1, imm`: an operation on a register and an immediate of 12 bits, which is signed.
    Immediate(AluOp),
    /// `rd, rs1, shamt`: a shift by a constant below 64, or 32 for a word.
    Shift(AluOp),
    /// `rd, imm`: LUI, with an immediate of 20 bits.
    Lui,
    /// `rd, imm`: AUIPC, with an immediate of 20 bits.
    Auipc,
    /// `rd, offset(rs1)`, or `rd, symbol`: a load.
    Load(LoadKind),
    /// `rs2, offset(rs1)`, or `rs2, symbol, rt`: SD.
    StoreDouble,
    /// `rs2, offset(rs1)`, or `rs2, symbol, rt`: a store of 1, 2 or 4 bytes.
    StoreNarrow(AmoName),
    /// `rd, rs2, (rs1)`: an AMO, or AMOCAS.D.
    Amo(AmoName),
    /// `rd, offset(rs1)`: a fetch as a value (profile).
    Fetch,
    /// `rs1, rs2, target`: a branch.
    Branch(Comparison),
    /// `rs2, rs1, target`: a branch whose registers are turned.
    TurnedBranch(Comparison),
    /// `rs, target`: a branch that compares a register with 0.
    BranchToZero(Comparison),
    /// `rs, target`: a branch that compares 0 with a register.
    BranchFromZero(Comparison),
    /// `rd, target`, or `target`: JAL, whose `rd` is ra by default.
    Jal,
    /// `rd, offset(rs1)`, `rd, rs1, offset`, `rd, rs1` or `rs1`: JALR, whose `rd` is ra by default.
    Jalr,
    /// `target`: JAL with x0.
    Goto,
    /// `rs`, or `offset(rs)`: JALR with x0.
    JumpRegister,
    /// No operands: JALR of ra with x0.
    Return,
    /// `symbol`, or `rd, symbol`: AUIPC and JALR, which link to ra or rd.
    Call,
    /// `symbol`: AUIPC and JALR by t1, which don't link.
    Tail,
    /// `rd, symbol`: AUIPC and ADDI.
    LoadAddress,
    /// `rd, imm`: LUI, ADDIW, SLLI and ADDI, as many as the value needs.
    LoadImmediate,
    /// No operands: ADDI of x0.
    Nop,
    /// `rd, rs`: an operation on a register and an immediate that the mnemonic says.
    FixedImmediate(AluOp, i32),
    /// `rd, rs`: an operation on x0 and a register.
    FromZero(AluOp),
    /// `rd, rs`: an operation on a register and x0.
    WithZero(AluOp),
    /// `rd, rs`: a shift to the left by so many bits, and then this shift to the right by as many.
    Extended(AluOp, i32),
    /// `rd, csr, rs1`: a CSR instruction.
    Csr(CsrHow),
    /// `rd, csr, uimm`: a CSR instruction with an immediate of 5 bits.
    CsrImmediate(CsrHow),
    /// `rd, csr`: CSRRS with x0.
    ReadCsr,
    /// `csr, rs1`: a CSR instruction without a result.
    WriteCsr(CsrHow),
    /// `csr, uimm`: a CSR instruction with an immediate, without a result.
    WriteCsrImmediate(CsrHow),
    /// `pred, succ`, or no operands: FENCE.
    Fence,
    /// No operands: FENCE.TSO.
    FenceTso,
    /// No operands: FENCE.I.
    FenceI,
    /// `rs1, rs2`, `rs1` or no operands: SFENCE.VMA.
    SfenceVma,
    /// No operands: WFI.
    Wfi,
    /// No operands: ECALL.
    Ecall,
    /// No operands: EBREAK.
    Ebreak,
    /// No operands: SRET.
    Sret,
    /// An instruction that isn't obeyed.
    Refused(Unsupported),
}

/// Why an instruction isn't obeyed, with what to write instead (profile).
#[derive(Clone, Copy, PartialEq, Eq)]
pub enum Unsupported {
    /// LR and SC: write `amocas.d`, or another AMO.
    Reservation,
    /// A floating-point instruction: boards have none.
    Float,
    /// A compressed instruction: write it without `c.`.
    Compressed,
    /// A read of a counter: boards have none.
    Counter,
    /// An instruction of machine mode, or of a hypervisor.
    Machine,
    /// AMOCAS of 4 or 16 bytes: write `amocas.d`.
    Cas,
}
