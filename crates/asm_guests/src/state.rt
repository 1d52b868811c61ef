//! The state of a guest: its registers, its CSRs, and where it is.
ghost use Rattle.std.specs.Prelude.{◌≡◌, ◌<◌};
ghost use Rattle.asm_guests.specs.Csrs.{operand};
ghost use Rattle.asm_guests.specs.States.{passed, register_content, entered, known, none_known, with_register, unknown, value_held};

use crate::csrs::GuestCsrs;
use rv64_instructions::{CsrSource, Register};

/// What a register holds. An unknown value counts as 0.
#[derive(Clone, Copy)]
pub struct RegisterContent {
    /// Its value.
    pub value: u64,
    /// Whether it is known.
    pub is_known: bool,
}

/// The state of a guest (unprivileged ISA 2.1).
#[derive(Clone, Copy)]
pub struct GuestState {
    /// The address of the next instruction.
    pub pc: u64,
    /// The registers, by their numbers. (x0 is 0, whatever is here.)
    pub registers: [RegisterContent; 32],
    /// The CSRs.
    pub csrs: GuestCsrs,
}

impl RegisterContent {
    /// A value that is known.
    pub(crate) fn known(value: u64) -> RegisterContent
        ensures { result ≡ known value }
    {
        RegisterContent {
            value,
            is_known: true,
        }
    }

    /// An unknown value.
    pub(crate) fn unknown() -> RegisterContent
        ensures { result ≡ unknown }
    {
        RegisterContent {
            value: 0,
            is_known: false,
        }
    }
}

/// Nothing is known of any register.
pub(crate) fn none_known() -> [RegisterContent; 32]
    ensures { result ≡ none_known }
{
    [RegisterContent::unknown(); 32]
}

impl GuestState {
    /// The state at an entry: the hart's id in a0, the opaque value in a1 (SBI 9.1, 9.4).
    pub(crate) fn entered(addr: u64, hart: u64, opaque: u64) -> GuestState
        ensures { result ≡ entered addr hart opaque }
    {
        let mut state = GuestState {
            pc: addr,
            registers: none_known(),
            csrs: GuestCsrs::entered(),
        };
        state.put(10, RegisterContent::known(hart));
        state.put(11, RegisterContent::known(opaque));
        state
    }

    /// What a register holds; x0 holds 0.
    pub(crate) fn content(&self, register: Register) -> RegisterContent
        ensures { result ≡ register_content self.now register }
    {
        self.content_at(register.number())
    }

    /// What the register of this number holds.
    pub(crate) fn content_at(&self, number: u8) -> RegisterContent
        requires { number < 32 }
        ensures { result ≡ register_content self.now number }
    {
        if number == 0 {
            return RegisterContent::known(0);
        }
        self.registers[usize::from(number)]
    }

    /// The value of a register.
    pub(crate) fn value(&self, register: Register) -> u64
        ensures { result ≡ value_held self.now register }
    {
        self.content(register).value
    }

    /// Writes a register; x0 isn't written.
    pub(crate) fn put(&mut self, number: u8, content: RegisterContent)
        requires { number < 32 }
        ensures { self.new ≡ with_register self.old number content }
    {
        if number != 0 {
            self.registers[usize::from(number)] = content;
        }
    }

    /// Goes on passed the instruction.
    pub(crate) fn pass(&mut self)
        ensures { self.new ≡ passed self.old }
    {
        self.pc = self.pc.wrapping_add(4);
    }

    /// The value of a CSR instruction's operand (unprivileged ISA 9.1).
    pub(crate) fn operand(&self, from: &CsrSource) -> u64
        ensures { result ≡ operand from.now self.now }
    {
        match from {
            CsrSource::Register(register) => self.value(*register),
            CsrSource::Immediate(n) => u64::from(*n),
        }
    }
}
