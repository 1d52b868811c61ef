//! CSRs of a guest.
ghost use Rattle.std.specs.Prelude.{◌≡◌, ◌≤◌, ◌^◌};
ghost use Rattle.sv39.specs.declared.paging.TheConstants.{ASID_BITS};
ghost use Rattle.asm_guests.specs.Csrs.{bit_if, csr_value, csr_written, has_bit_at, is_board_csr, kept_sie, sstatus_of, written_value};
ghost use Rattle.asm_guests.specs.States.{entered_csrs};

use rv64_instructions::{Csr, CsrHow};
use sv39::{Satp, Spaces};

/// A guest's CSRs. satp, sie and SIE are copies of the board's; the board doesn't have the others (Privileged 4.1).
#[derive(Clone, Copy)]
pub struct GuestCsrs {
    /// satp.
    pub satp: Satp,
    /// sie, of which the board keeps SSIE and STIE.
    pub sie: u64,
    /// sstatus.SIE: whether interrupts are enabled.
    pub interrupts: bool,
    /// sstatus.SPIE: whether they were enabled before the last trap.
    pub interrupts_before: bool,
    /// sstatus.SPP: whether the last trap came from supervisor mode.
    pub from_supervisor: bool,
    /// stvec, once it is written.
    pub stvec: Option<u64>,
    /// sepc.
    pub sepc: u64,
    /// scause.
    pub scause: u64,
    /// stval.
    pub stval: u64,
    /// sscratch.
    pub sscratch: u64,
}

impl GuestCsrs {
    /// The CSRs at an entry (SBI 9.1).
    pub(crate) fn entered() -> GuestCsrs
        ensures { result ≡ entered_csrs }
    {
        GuestCsrs {
            satp: Satp::bare(),
            sie: 0,
            interrupts: false,
            interrupts_before: false,
            from_supervisor: false,
            stvec: None,
            sepc: 0,
            scause: 0,
            stval: 0,
            sscratch: 0,
        }
    }

    /// The value of a CSR; stvec is 0 before it is written.
    pub(crate) fn value(&self, csr: Csr) -> u64
        ensures { result ≡ csr_value csr self.now }
    {
        match csr {
            Csr::Sstatus => self.sstatus(),
            Csr::Sie => self.sie,
            Csr::Stvec => self.stvec.unwrap_or(0),
            Csr::Sscratch => self.sscratch,
            Csr::Sepc => self.sepc,
            Csr::Scause => self.scause,
            Csr::Stval => self.stval,
            Csr::Satp => self.satp.bits(),
        }
    }

    /// sstatus.
    fn sstatus(&self) -> u64
        ensures { result ≡ sstatus_of self.now }
    {
        bit_if(self.interrupts, 2)
            + bit_if(self.interrupts_before, 32)
            + bit_if(self.from_supervisor, 256)
    }

    /// Writes a CSR. satp and sie keep what the board keeps, and sepc no bit below 2 (Privileged 4.1.3, 4.1.7, 4.1.11).
    pub(crate) fn write(&mut self, csr: Csr, value: u64, spaces: Spaces)
        requires { spaces.asid_len ≤ ASID_BITS }
        ensures { self.new ≡ csr_written spaces csr value self.old }
    {
        match csr {
            Csr::Sstatus => {
                self.interrupts = has_bit_at(value, 1);
                self.interrupts_before = has_bit_at(value, 5);
                self.from_supervisor = has_bit_at(value, 8);
            }
            Csr::Sie => self.sie = kept_sie(value),
            Csr::Stvec => self.stvec = Some(value),
            Csr::Sscratch => self.sscratch = value,
            Csr::Sepc => self.sepc = value & (u64::MAX - 3),
            Csr::Scause => self.scause = value,
            Csr::Stval => self.stval = value,
            Csr::Satp => self.satp = self.satp.write(value, spaces),
        }
    }
}

/// What a bit is worth, if it is set.
fn bit_if(is_set: bool, worth: u64) -> u64
    ensures bit { result ≡ bit_if is_set worth }
    ensures small { result ≤ worth }
{
    if is_set { worth } else { 0 }
}

/// Whether a value has the bit at a place.
pub(crate) fn has_bit_at(value: u64, place: u32) -> bool
    requires { place ≤ 15 }
    ensures { result ≡ has_bit_at value place }
{
    (value >> place) % 2 == 1
}

/// The bits that sie keeps: SSIE and STIE.
fn kept_sie(value: u64) -> u64
    ensures { result ≡ kept_sie value }
{
    bit_if(has_bit_at(value, 1), 2) + bit_if(has_bit_at(value, 5), 32)
}

/// Whether the board has the CSR: a write is an operation of the board.
pub(crate) fn is_board_csr(csr: Csr) -> bool
    ensures { result ≡ is_board_csr csr }
{
    matches!(csr, Csr::Sstatus | Csr::Sie | Csr::Satp)
}

/// What an instruction writes, from the old value and its operand (unprivileged ISA 9.1).
pub(crate) fn written_value(how: CsrHow, old: u64, operand: u64) -> u64
    ensures { result ≡ written_value how old operand }
{
    match how {
        CsrHow::Write => operand,
        CsrHow::Set => old | operand,
        CsrHow::Clear => old & !operand,
    }
}
