//! The summary of all files.
use crate::counts::{AllOrders, Counts};
use crate::report::{Mode, Report};
use outcome_statistics::Ends;
use std::alloc::AllocError;
use std::fmt::Write;

/// The summary of all files.
#[derive(Clone, Copy)]
pub(crate) struct Summary {
    mode: Mode,
    files: u64,
    points: u64,
    failed: u64,
    unjudged: u64,
    /// How the orders and runs ended that were tried, and how many different records these have.
    ends: Ends,
    records: u64,
    /// How many programs have finitely many orders, where all were seen, and how many these are together.
    counted: u64,
    orders: Counts,
    /// How many have orders without end.
    endless: u64,
    is_cut: bool,
}

impl Summary {
    /// The summary of this report's files.
    pub(crate) fn of(report: &Report) -> Summary {
        let mut sum = Summary {
            mode: report.mode,
            files: report.files.len() as u64,
            points: 0,
            failed: 0,
            unjudged: 0,
            ends: Ends::new(),
            records: 0,
            counted: 0,
            orders: Counts::new(),
            endless: 0,
            is_cut: report.is_cut(),
        };
        for file in &report.files {
            sum.points = sum.points.saturating_add(file.points.len() as u64);
            let (failed, unjudged) = file.counted();
            sum.failed = sum.failed.saturating_add(failed);
            sum.unjudged = sum.unjudged.saturating_add(unjudged);
            sum.ends.add(file.ends);
            sum.records = sum.records.saturating_add(file.records);
            sum.see_orders(file.orders);
        }
        sum
    }

    /// All orders of a program were seen.
    fn see_orders(&mut self, orders: Option<AllOrders>) {
        match orders {
            Some(AllOrders::Counted(orders)) => {
                self.counted = self.counted.saturating_add(1);
                self.orders.add(orders);
            }
            Some(AllOrders::Endless(_)) => self.endless = self.endless.saturating_add(1),
            None => {}
        }
    }

    /// Puts its lines.
    pub(crate) fn put(&self, text: &mut String) -> Result<(), AllocError> {
        let Summary {
            points,
            failed,
            unjudged,
            files,
            ..
        } = *self;
        write!(text, "{points} points, {failed} failed")?;
        if unjudged > 0 {
            write!(text, ", {unjudged} not judged")?;
        }
        text.push('\n')?;
        let are_all_seen = self.ends.orders() == 0 && (self.counted > 0 || self.endless > 0);
        if self.mode == Mode::Explore || are_all_seen {
            writeln!(text, "{files} files")?;
        } else {
            self.put_tried(text)?;
        }
        if self.mode == Mode::Test {
            self.put_seen(text)?;
        }
        if self.is_cut {
            let done = match self.mode {
                Mode::Test => "tried",
                Mode::Explore => "seen",
            };
            writeln!(text, "cut short: not all orders were {done}")?;
        }
        Ok(())
    }

    /// Puts how many orders were tried, and how they ended.
    fn put_tried(&self, text: &mut String) -> Result<(), AllocError> {
        let Summary { files, records, .. } = *self;
        let orders = self.ends.orders();
        let Ends {
            off,
            full,
            quiet,
            stuck,
        } = self.ends;
        writeln!(
            text,
            "{files} files, {orders} orders, {records} different records"
        )?;
        writeln!(
            text,
            "ends: {off} off, {full} history-full, {quiet} quiet, {stuck} stuck"
        )
    }

    /// Adds how many programs there are whose orders were all seen.
    fn put_seen(&self, text: &mut String) -> Result<(), AllocError> {
        let Summary {
            counted,
            orders,
            endless,
            ..
        } = *self;
        if counted > 0 {
            writeln!(text, "all orders of {counted} programs: {orders}")?;
        }
        if endless > 0 {
            writeln!(text, "all orders of {endless} programs: some without end")?;
        }
        Ok(())
    }
}
