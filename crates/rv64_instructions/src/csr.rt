//! CSRs, and how instructions access them.
ghost use Rattle.std.specs.Prelude.{◌≡◌};
ghost use Rattle.rv64_instructions.specs.CsrSources.{is_zero_source, writes_csr};

use crate::register::Register;

/// A CSR of a supervisor that guests can name (Privileged 4.1).
#[derive(Clone, Copy, PartialEq, Eq)]
pub enum Csr {
    /// sstatus, of which SIE, SPIE and SPP are kept (Privileged 4.1.1).
    Sstatus,
    /// sie (Privileged 4.1.3).
    Sie,
    /// stvec (Privileged 4.1.2).
    Stvec,
    /// sscratch (Privileged 4.1.6).
    Sscratch,
    /// sepc (Privileged 4.1.7).
    Sepc,
    /// scause (Privileged 4.1.8).
    Scause,
    /// stval (Privileged 4.1.9).
    Stval,
    /// satp (Privileged 4.1.11).
    Satp,
}

/// How an instruction writes a CSR (unprivileged ISA 9.1).
#[derive(Clone, Copy, PartialEq, Eq)]
pub enum CsrHow {
    /// CSRRW and CSRRWI: the operand.
    Write,
    /// CSRRS and CSRRSI: the operand's bits become 1.
    Set,
    /// CSRRC and CSRRCI: the operand's bits become 0.
    Clear,
}

/// The operand of a CSR instruction (unprivileged ISA 9.1).
#[derive(Clone, Copy, PartialEq, Eq)]
pub enum CsrSource {
    /// The value of a register.
    Register(Register),
    /// An immediate of 5 bits.
    Immediate(u8),
}

impl CsrSource {
    /// Whether it is x0, or the immediate 0.
    pub fn is_zero(&self) -> bool
        ensures { result ≡ is_zero_source self.now }
    {
        match self {
            CsrSource::Register(register) => register.number() == 0,
            CsrSource::Immediate(n) => *n == 0,
        }
    }
}

impl CsrHow {
    /// Whether an instruction with this operand writes its CSR (unprivileged ISA 9.1).
    pub fn writes(self, from: &CsrSource) -> bool
        ensures { result ≡ writes_csr self from.now }
    {
        match self {
            CsrHow::Write => true,
            CsrHow::Set | CsrHow::Clear => !from.is_zero(),
        }
    }
}
