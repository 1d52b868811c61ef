//! Instructions.
use crate::csr::{Csr, CsrHow, CsrSource};
use crate::register::Register;
use amo::AmoName;
use rv64_alu::{AluOp, Comparison, LoadKind};

/// An instruction, as the assembler reads it: a target is an address (unprivileged ISA 2, 5, 7, 9; Privileged 3.3, 4.2).
#[derive(Clone, Copy, PartialEq, Eq)]
pub enum Instruction {
    /// An operation on two registers.
    Compute {
        /// The operation.
        op: AluOp,
        /// The register that is written.
        rd: Register,
        /// The first operand.
        rs1: Register,
        /// The second operand.
        rs2: Register,
    },
    /// An operation on a register and an immediate.
    ComputeImmediate {
        /// The operation.
        op: AluOp,
        /// The register that is written.
        rd: Register,
        /// The first operand.
        rs1: Register,
        /// The second operand.
        immediate: i32,
    },
    /// LUI, and AUIPC at its address: a value that is known when the text is read.
    Value {
        /// The register that is written.
        rd: Register,
        /// The value.
        value: u64,
    },
    /// A branch.
    Branch {
        /// When it is taken.
        when: Comparison,
        /// The first operand.
        rs1: Register,
        /// The second operand.
        rs2: Register,
        /// Where it goes.
        to: u64,
    },
    /// JAL.
    Jump {
        /// The register that gets the address behind it.
        rd: Register,
        /// Where it goes.
        to: u64,
    },
    /// JALR.
    JumpRegister {
        /// The register that gets the address behind it.
        rd: Register,
        /// The base of the address.
        rs1: Register,
        /// Its offset.
        offset: i32,
    },
    /// A load.
    Load {
        /// The load.
        kind: LoadKind,
        /// The register that is written.
        rd: Register,
        /// The base of the address.
        rs1: Register,
        /// Its offset.
        offset: i32,
    },
    /// SD.
    StoreDouble {
        /// What is stored.
        rs2: Register,
        /// The base of the address.
        rs1: Register,
        /// Its offset.
        offset: i32,
    },
    /// An AMO, AMOCAS.D, or a store of 1, 2 or 4 bytes, which writes x0 (unprivileged ISA 8.4, 2.6; Zacas).
    Amo {
        /// What it does.
        name: AmoName,
        /// The register that gets the old value; of AMOCAS.D it also has the expected one.
        rd: Register,
        /// The operand, or what is stored.
        rs2: Register,
        /// The base of the address.
        rs1: Register,
        /// Its offset, which only stores have.
        offset: i32,
    },
    /// A fetch of the word of 8 bytes at an address, as a value (profile).
    Fetch {
        /// The register that is written.
        rd: Register,
        /// The base of the address.
        rs1: Register,
        /// Its offset.
        offset: i32,
    },
    /// A CSR is read and written.
    Csr {
        /// How it is written.
        how: CsrHow,
        /// The CSR.
        csr: Csr,
        /// The register that gets the old value.
        rd: Register,
        /// The operand.
        from: CsrSource,
    },
    /// CSRRS of sip with x0: it is read.
    ReadSip {
        /// The register that is written.
        rd: Register,
    },
    /// CSRRC of sip without a result: SSIP is cleared, if its bit is set in the operand.
    ClearSip {
        /// The operand.
        from: CsrSource,
    },
    /// FENCE, in all its forms: it does nothing, since memory is in order here (profile).
    Fence,
    /// FENCE.I (Zifencei).
    FenceI,
    /// SFENCE.VMA: with x0, of all addresses or address spaces.
    SfenceVma {
        /// The address.
        rs1: Register,
        /// The address space.
        rs2: Register,
    },
    /// WFI.
    Wfi,
    /// ECALL.
    Ecall,
    /// SRET.
    Sret,
    /// EBREAK: the guest is through (profile).
    Ebreak,
}
