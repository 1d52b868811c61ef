//! How fast orders are tried, for the line that shows the progress.
ghost use Rattle.std.specs.Prelude.{◌<◌};

use std::io;
use std::rt::Clock;
use std::time::Instant;

/// How many orders are tried before the time is checked again: at first, and at most.
const FIRST_BATCH: u64 = 16;

const LAST_BATCH: u64 = 65_536;

/// How long a batch takes, in milliseconds: from about a tenth of a second to a half.
const SHORT: u64 = 100;

const LONG: u64 = 500;

/// How long no progress is shown, in milliseconds.
const QUIET: u64 = 2_000;

/// How fast orders are tried.
#[derive(Clone, Copy)]
pub(crate) struct Pace {
    begun: Instant,
    last: u64,
    batch: u64,
    /// Standard error is a terminal.
    is_watched: bool,
}

impl Pace {
    /// From now on.
    pub(crate) fn begin(clock: &impl Clock, is_watched: bool) -> io::Result<Pace> {
        Ok(Pace {
            begun: Instant::now(clock)?,
            last: 0,
            batch: FIRST_BATCH,
            is_watched,
        })
    }

    /// How many orders are tried next.
    pub(crate) fn batch(&self) -> u64
        ensures { 0 < result }
    {
        self.batch.max(1)
    }

    /// After a batch: shows how many of all orders or runs were tried, and how long the others will take, if it takes long.
    pub(crate) fn see<R: Clock + Eprint>(
        &mut self,
        rt: &R,
        name: &str,
        tried: u64,
        of: u64,
    ) -> io::Result<()> {
        let spent = self.begun.elapsed(rt)?.as_millis();
        let now = u64::try_from(spent).unwrap_or(u64::MAX);
        let spent = now.saturating_sub(self.last);
        self.last = now;
        if spent < SHORT {
            self.batch = self.batch.saturating_mul(2).min(LAST_BATCH);
        } else if spent > LONG {
            self.batch /= 2;
        }
        if self.is_told() {
            let rate = tried.saturating_mul(1_000) / now.max(1);
            let left = of.saturating_sub(tried) / rate.max(1);
            let _ = eprint!(rt; "\r\x1b[K{tried} of {of} {name}, {rate} a second, {left} s to go");
        }
        Ok(())
    }

    /// Erases the progress.
    pub(crate) fn end(&self, rt: &impl Eprint) {
        if self.is_told() {
            let _ = eprint!(rt; "\r\x1b[K");
        }
    }

    /// Whether it takes long, and there is a terminal.
    fn is_told(&self) -> bool {
        self.is_watched && self.last >= QUIET
    }
}
