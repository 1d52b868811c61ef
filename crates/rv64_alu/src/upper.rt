//! Values from immediates.
ghost use Rattle.std.specs.Prelude.{◌≡◌, ◌<◌, ◌^◌};
ghost use Rattle.rv64_alu.specs.Immediates.{auipc, immediate, lui};

use crate::word::extended;

/// The second operand that an immediate of 12 bits is: its sign-extension (unprivileged ISA 2.3).
pub fn immediate(imm: i32) -> u64
    ensures { result ≡ immediate imm }
{
    i64::from(imm).cast_unsigned()
}

/// LUI: the 20 bits of the immediate above 12 zeros, sign-extended (unprivileged ISA 5.2).
pub fn lui(imm: u32) -> u64
    requires { imm < 2 ^ 20 }
    ensures { result ≡ lui imm }
{
    extended(imm << 12)
}

/// AUIPC: the value of LUI plus the address of the instruction (unprivileged ISA 5.2).
pub fn auipc(pc: u64, imm: u32) -> u64
    requires { imm < 2 ^ 20 }
    ensures { result ≡ auipc pc imm }
{
    pc.wrapping_add(lui(imm))
}
