//! The parts of a line in the form in which steps are printed.
use crate::op_shape::OpShape;
use crate::said::Said;
use board_terms::Actor;

/// The parts of a line, without its number and its operation's numbers.
#[derive(Clone, Copy)]
pub struct Plain {
    /// The actor of the step.
    pub actor: Actor,
    /// The shape of the operation.
    pub op: OpShape,
    /// The reply or refusal, in a trace.
    pub said: Option<Said>,
}
