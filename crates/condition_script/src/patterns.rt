//! Patterns of steps, as values.
use crate::items::Item;

/// A pattern of steps: the words of an actor's line and of its reply, None for `_`.
#[derive(Drop)]
pub struct Pattern {
    /// The actor, the operation, and its numbers.
    pub step: Vec<Option<Item>>,
    /// The reply, and its numbers.
    pub reply: Vec<Option<Item>>,
}
