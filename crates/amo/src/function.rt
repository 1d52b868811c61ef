//! The functions of AMOs.
ghost use Rattle.std.specs.Prelude.{◌≡◌};
ghost use Rattle.std.specs.Int.{w32, w64};
ghost use Rattle.amo.specs.Functions.{made};

/// What an AMO makes of the old value in memory and its operand (unprivileged ISA 8.4).
#[derive(Clone, Copy, Debug, PartialEq, Eq)]
pub enum AmoFunction {
    /// The operand.
    Swap,
    /// Their sum.
    Add,
    /// Their bitwise AND.
    And,
    /// Their bitwise OR.
    Or,
    /// Their bitwise exclusive OR.
    Xor,
    /// The smaller signed number.
    Min,
    /// The larger signed number.
    Max,
    /// The smaller unsigned number.
    Minu,
    /// The larger unsigned number.
    Maxu,
}

impl AmoFunction {
    /// What it makes of values of 8 bytes.
    pub fn on_double(self, old: u64, operand: u64) -> u64
        ensures { result ≡ made self w64 old operand }
    {
        let is_low = old.cast_signed() <= operand.cast_signed();
        match self {
            AmoFunction::Swap => operand,
            AmoFunction::Add => old.wrapping_add(operand),
            AmoFunction::And => old & operand,
            AmoFunction::Or => old | operand,
            AmoFunction::Xor => old ^ operand,
            AmoFunction::Min => { if is_low { old } else { operand } }
            AmoFunction::Max => { if is_low { operand } else { old } }
            AmoFunction::Minu => old.min(operand),
            AmoFunction::Maxu => old.max(operand),
        }
    }

    /// What it makes of values of 4 bytes.
    pub fn on_half(self, old: u32, operand: u32) -> u32
        ensures { result ≡ made self w32 old operand }
    {
        let is_low = old.cast_signed() <= operand.cast_signed();
        match self {
            AmoFunction::Swap => operand,
            AmoFunction::Add => old.wrapping_add(operand),
            AmoFunction::And => old & operand,
            AmoFunction::Or => old | operand,
            AmoFunction::Xor => old ^ operand,
            AmoFunction::Min => { if is_low { old } else { operand } }
            AmoFunction::Max => { if is_low { operand } else { old } }
            AmoFunction::Minu => old.min(operand),
            AmoFunction::Maxu => old.max(operand),
        }
    }
}
