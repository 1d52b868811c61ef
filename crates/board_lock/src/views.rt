//! Views: what a seat sees of its hart.
ghost use Rattle.std.specs.Prelude.{◌≡◌, IfSome, None};
ghost use Rattle.std.specs.Option.{option_map};
ghost use Rattle.board_terms.specs.declared.op.Op.TheVariants.{Advance, Poll, Serve};
ghost use Rattle.board_core.specs.Refusals.{IsAccepted, Situation};
ghost use Rattle.board_lock.specs.Coming.{Sees, firmware_choice};

use board_core::{HartSet, HartState, Op};

/// What a seat sees of its hart between two calls. It is a hint: other threads' calls can be accepted before the caller
/// uses it.
#[derive(Clone, Copy, Debug)]
pub struct HartView {
    /// The hart of the seat; None for the clock, which has no state.
    pub hart: Option<HartNow>,
    /// Whether the power is off.
    pub is_off: bool,
    /// The number of events.
    pub events: u64,
}

/// What decides what a hart can do next.
#[derive(Clone, Copy, Debug)]
pub struct HartNow {
    /// The hart's state.
    pub state: HartState,
    /// The harts that its fence call waits for. None: it is in no fence call.
    pub outstanding: Option<HartSet>,
    /// The number of fences that wait at the hart.
    pub waiting: u64,
    /// Whether the hart has wake: a pending interrupt is enabled in sie.
    pub wake: bool,
}

impl HartNow {
    /// The next operation of the hart's firmware, if it has one. It first serves a waiting fence, and polls a fence
    /// call as soon as the call waits for no hart.
    pub fn firmware_choice(&self) -> Option<&'static Op>
        ensures exact { option_map (λ op. op.now) result ≡ firmware_choice self.now }
        ensures happens { (s : Situation) → Sees s self.now → IfSome result (λ op. IsAccepted op.now s) }
        ensures serve { (s : Situation) → Sees s self.now → result ≡ None → ¬ IsAccepted Serve s }
        ensures poll { (s : Situation) → Sees s self.now → result ≡ None → ¬ IsAccepted Poll s }
        ensures advance { (s : Situation) → Sees s self.now → result ≡ None → self.now.outstanding ≡ None
            → ¬ IsAccepted Advance s }
    {
        if self.waiting > 0 && self.state.is_interruptible() {
            return Some(&Op::Serve);
        }
        if let Some(harts) = self.outstanding {
            return if harts.is_empty() {
                Some(&Op::Poll)
            } else {
                None
            };
        }
        if self.state.goes_on(self.wake) {
            return Some(&Op::Advance);
        }
        None
    }
}
