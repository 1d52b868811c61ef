//! Comparisons of branches.
ghost use Rattle.std.specs.Prelude.{◌≡◌};
ghost use Rattle.rv64_alu.specs.Comparisons.{is_taken};

/// When a branch is taken (unprivileged ISA 2.5).
#[derive(Clone, Copy, PartialEq, Eq)]
pub enum Comparison {
    /// BEQ: the registers are equal.
    Eq,
    /// BNE: they aren't equal.
    Ne,
    /// BLT: the first is below the second as a signed number.
    Lt,
    /// BGE: the first is at least the second as a signed number.
    Ge,
    /// BLTU: the first is below the second as an unsigned number.
    Ltu,
    /// BGEU: the first is at least the second as an unsigned number.
    Geu,
}

impl Comparison {
    /// Whether a branch on these registers is taken.
    pub fn is_taken(self, a: u64, b: u64) -> bool
        ensures { result ≡ is_taken self a b }
    {
        match self {
            Comparison::Eq => a == b,
            Comparison::Ne => a != b,
            Comparison::Lt => a.cast_signed() < b.cast_signed(),
            Comparison::Ge => b.cast_signed() <= a.cast_signed(),
            Comparison::Ltu => a < b,
            Comparison::Geu => b <= a,
        }
    }
}
