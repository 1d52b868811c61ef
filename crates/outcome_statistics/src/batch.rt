//! Which orders are tried.
use conditions::Condition;
use guest_script::Script;

/// Orders of a program with numbers of a range, picked from a seed, and the conditions on their records.
#[derive(Clone, Copy)]
pub struct Batch<'a> {
    /// The program.
    pub script: &'a Script,
    /// The conditions.
    pub conditions: &'a [Condition],
    /// The seed.
    pub seed: u64,
    /// The number of the first order.
    pub from: u64,
    /// The number behind the last.
    pub to: u64,
}
