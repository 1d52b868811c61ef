//! The sie register of a hart.
ghost use Rattle.std.specs.Prelude.{◌≡◌, ◌+◌};
ghost use Rattle.board_rules.specs.Csrs.{bits_of, enables, interrupt_bits, none_enabled, sie_of};

/// A hart's sie: which of a board's interrupts it enables (Privileged 4.1.3).
#[derive(Clone, Copy, Debug, PartialEq, Eq)]
pub struct Sie {
    /// Supervisor software interrupts: SSIE, bit 1.
    pub ssie: bool,
    /// Supervisor timer interrupts: STIE, bit 5.
    pub stie: bool,
}

impl Sie {
    /// No interrupt is enabled.
    pub fn none() -> Sie
        ensures { result ≡ none_enabled }
    {
        Sie {
            ssie: false,
            stie: false,
        }
    }

    /// The bits that sie keeps of a written value: SSIE and STIE (Privileged 4.1.3; that there are no others: profile).
    pub fn of(value: u64) -> Sie
        ensures { result ≡ sie_of value }
    {
        Sie {
            ssie: value >> 1 & 1 == 1,
            stie: value >> 5 & 1 == 1,
        }
    }

    /// Whether a pending interrupt is enabled.
    pub fn enables(self, ssip: bool, stip: bool) -> bool
        ensures { result ≡ enables self ssip stip }
    {
        self.ssie && ssip || self.stie && stip
    }

    /// sie as a guest reads it: SSIE in bit 1, and STIE in bit 5.
    pub fn bits(self) -> u64
        ensures { result ≡ bits_of self }
    {
        interrupt_bits(self.ssie, self.stie)
    }
}

/// The bits of sie and sip: software interrupts in bit 1, and timer interrupts in bit 5 (Privileged 4.1.3).
pub fn interrupt_bits(software: bool, timer: bool) -> u64
    ensures { result ≡ interrupt_bits software timer }
{
    let low = if software { 2 } else { 0 };
    let high = if timer { 32 } else { 0 };
    low + high
}
