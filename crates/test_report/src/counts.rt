//! How many orders a program has, where all were seen.
use guest_programs::End;
use std::fmt;

/// How many orders end in each way, at most 2^128-1 of each.
#[derive(Clone, Copy)]
pub struct Counts {
    /// The power was off.
    pub off: u128,
    /// Each hart was done.
    pub quiet: u128,
    /// Some hart wasn't, and none went on.
    pub stuck: u128,
}

impl Counts {
    /// Before any order was counted.
    pub fn new() -> Counts {
        Counts {
            off: 0,
            quiet: 0,
            stuck: 0,
        }
    }

    /// Adds orders with this end. No order that has no limit ends by one.
    pub fn see(&mut self, end: End, many: u128) {
        match end {
            End::Off => self.off = self.off.saturating_add(many),
            End::Quiet => self.quiet = self.quiet.saturating_add(many),
            End::Stuck => self.stuck = self.stuck.saturating_add(many),
            End::HistoryFull | End::GateLimit => {}
        }
    }

    /// Adds the orders of another program.
    pub(crate) fn add(&mut self, other: Counts) {
        self.see(End::Off, other.off);
        self.see(End::Quiet, other.quiet);
        self.see(End::Stuck, other.stuck);
    }

    /// How many end in each way.
    fn ends(&self) -> [(&'static str, u128); 3] {
        [
            ("off", self.off),
            ("quiet", self.quiet),
            ("stuck", self.stuck),
        ]
    }

    /// How many they are.
    pub(crate) fn all(&self) -> u128 {
        self.off
            .saturating_add(self.quiet)
            .saturating_add(self.stuck)
    }
}

/// `35, quiet 30, stuck 5`.
impl fmt::Display for Counts {
    fn fmt<W: fmt::Write>(&self, f: &mut fmt::Formatter<W>) -> fmt::Result {
        let all = self.all();
        let more = or_more(all);
        write!(f, "{all}{more}")?;
        for (end, many) in self.ends() {
            if many > 0 {
                write!(f, ", {end} {many}")?;
            }
        }
        Ok(())
    }
}

/// A number whose digits stand in threes: `1,284`; the greatest has more behind it.
#[derive(Clone, Copy)]
pub(crate) struct Grouped(pub(crate) u128);

impl fmt::Display for Grouped {
    fn fmt<W: fmt::Write>(&self, f: &mut fmt::Formatter<W>) -> fmt::Result {
        let Grouped(number) = *self;
        // (a number of 128 bits has 39 digits at most)
        let mut is_begun = false;
        for place in 0..13u32 {
            let unit = 1000u128.saturating_pow(12u32.saturating_sub(place));
            let three = number.checked_div(unit).unwrap_or(0) % 1000;
            if is_begun {
                write!(f, ",{three:03}")?;
            } else if three > 0 || place == 12 {
                is_begun = true;
                write!(f, "{three}")?;
            }
        }
        write!(f, "{}", or_more(number))
    }
}

/// What is said behind a count: that there may be more.
pub(crate) fn or_more(many: u128) -> &'static str {
    if many == u128::MAX { " or more" } else { "" }
}

/// The orders of a program, all of which were seen.
#[derive(Clone, Copy)]
pub enum AllOrders {
    /// Their number.
    Counted(Counts),
    /// Some come back to a state, and so are endless; the others, if any, end at this many states.
    Endless(Counts),
}

/// `35, quiet 30, stuck 5`, or `some without end, some quiet`, or `all without end`.
impl fmt::Display for AllOrders {
    fn fmt<W: fmt::Write>(&self, f: &mut fmt::Formatter<W>) -> fmt::Result {
        match self {
            AllOrders::Counted(orders) => write!(f, "{orders}"),
            AllOrders::Endless(states) if states.all() == 0 => write!(f, "all without end"),
            AllOrders::Endless(states) => {
                write!(f, "some without end")?;
                for (end, many) in states.ends() {
                    if many > 0 {
                        write!(f, ", some {end}")?;
                    }
                }
                Ok(())
            }
        }
    }
}
