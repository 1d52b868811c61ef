//! Registers.
ghost use Rattle.std.specs.Prelude.{◌≡◌, ◌↔◌, ◌<◌, IfSome, IsSome};

use std::marker::Model;

/// A register, x0 to x31 (unprivileged ISA 2.1).
#[derive(Clone, Copy, PartialEq, Eq)]
pub struct Register {
    number: u8,
}

impl Model for Register {
    ghost use Rattle.std.specs.Prelude.{ℕ, ◌<◌};

    ghost Value = { ℕ };

    ghost view = { λ register. register.number };

    ghost invariant = { λ register. register.number < 32 };

    ghost inverse = { λ number. record { number = number } };
}

impl Register {
    /// The register of this number, if there is one.
    pub fn new(number: u8) -> Option<Register>
        ensures exists { IsSome result ↔ (number < 32) }
        ensures number { IfSome result (λ register. register ≡ number) }
    {
        if number < 32 {
            Some(Register { number })
        } else {
            None
        }
    }

    /// x0, which holds 0.
    pub fn zero() -> Register
        ensures { result ≡ 0 }
    {
        Register { number: 0 }
    }

    /// x1, the return address (RISC-V psABI).
    pub fn ra() -> Register
        ensures { result ≡ 1 }
    {
        Register { number: 1 }
    }

    /// x6, a temporary.
    pub fn t1() -> Register
        ensures { result ≡ 6 }
    {
        Register { number: 6 }
    }

    /// Its number.
    pub fn number(self) -> u8
        ensures number { result ≡ self }
        ensures within { result < 32 }
    {
        self.number
    }
}
