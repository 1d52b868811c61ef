//! What an order leaves at its end.

/// The registers of guests, and the words of the memory, at an order's end.
pub trait FinalState {
    ghost use Rattle.std.specs.Prelude.{◌≡◌, ◌<◌};
    ghost use Rattle.end_conditions.specs.Finals.{Finals};

    // What they hold.
    ghost finals: { Self → Finals };

    /// What a register of a hart's guest holds; an unknown value counts as 0. None: there is no such hart.
    fn register(&self, hart: u64, number: u8) -> Option<u64>
        requires { number < 32 }
        ensures { result ≡ (finals self.now).register hart number };

    /// What a word of the memory holds. None: there is no such word.
    fn word(&self, address: u64) -> Option<u64>
        ensures { result ≡ (finals self.now).word address };
}
