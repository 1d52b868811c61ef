//! Names of CSRs.
ghost use Rattle.std.specs.Prelude.{◌≡◌};
ghost use Rattle.asm_instructions.specs.Csrs.{csr_named};

use crate::operands::CsrName;
use rv64_instructions::Csr;

/// The CSR of this name (Privileged 2.2, table 2.3).
pub(crate) fn csr_named(word: &[u8]) -> Option<CsrName>
    ensures { result ≡ csr_named word.now }
{
    if word == b"sip".as_slice() {
        return Some(CsrName::Sip);
    }
    if word == b"sstatus".as_slice() {
        return Some(CsrName::Kept(Csr::Sstatus));
    }
    if word == b"sie".as_slice() {
        return Some(CsrName::Kept(Csr::Sie));
    }
    if word == b"stvec".as_slice() {
        return Some(CsrName::Kept(Csr::Stvec));
    }
    if word == b"sscratch".as_slice() {
        return Some(CsrName::Kept(Csr::Sscratch));
    }
    if word == b"sepc".as_slice() {
        return Some(CsrName::Kept(Csr::Sepc));
    }
    if word == b"scause".as_slice() {
        return Some(CsrName::Kept(Csr::Scause));
    }
    if word == b"stval".as_slice() {
        return Some(CsrName::Kept(Csr::Stval));
    }
    if word == b"satp".as_slice() {
        return Some(CsrName::Kept(Csr::Satp));
    }
    None
}
