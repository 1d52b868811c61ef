//! The options of a test.
use crate::limit::Limit;
use test_report::Mode;

/// Which outputs are terminals.
#[derive(Clone, Copy)]
pub struct Screen {
    /// Standard output is a terminal: points are printed as plain text.
    pub is_read: bool,
    /// Standard error is a terminal: it shows the progress.
    pub is_watched: bool,
}

/// Which orders of a seed are tried.
#[derive(Clone, Copy)]
pub enum Orders {
    /// The first of them, this many.
    First(u64),
    /// Only the one of this number.
    One(u64),
}

/// The options of a test (profile).
#[derive(Drop)]
pub struct Options<'a> {
    /// Whether to test or to explore.
    pub mode: Mode,
    /// Which orders of each program are tried.
    pub orders: Orders,
    /// The seed of the orders.
    pub seed: u64,
    /// How many orders are tried at a time.
    pub jobs: u64,
    /// How many runs on threads are tried of each program.
    pub runs: u64,
    /// Whether all orders are explored, and no seeded ones tried, if a program's states are few.
    pub are_few_seen: bool,
    /// The limit of states of `explore`.
    pub states: usize,
    /// Whether outcomes are reported.
    pub outcomes: bool,
    /// Which outputs are terminals.
    pub screen: Screen,
    /// The folder that records are written into.
    pub failed: &'a str,
    /// How long orders are tried, of all programs together.
    pub limit: Limit,
    /// The file that the points are also written into, if any.
    pub tap: Option<&'a str>,
    /// The files.
    pub files: Vec<&'a str>,
}
