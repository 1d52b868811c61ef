//! How long orders may be tried.
ghost use Rattle.std.specs.Prelude.{◌≡◌, ◌≢◌, true, IfOk, None};

use std::io;
use std::rt::Clock;
use std::time::Instant;

/// How long orders are tried.
#[derive(Clone, Copy)]
pub struct Limit {
    /// When it began.
    pub begun: Instant,
    /// How many seconds there are, if limited.
    pub seconds: Option<u64>,
}

impl Limit {
    /// From now on, for this many seconds, or without limit.
    ///
    /// # Errors
    ///
    /// There is no clock.
    pub fn begin(clock: &impl Clock, seconds: Option<u64>) -> io::Result<Limit> {
        let begun = Instant::now(clock)?;
        Ok(Limit { begun, seconds })
    }

    /// How many milliseconds have passed.
    ///
    /// # Errors
    ///
    /// There is no clock.
    pub fn millis(&self, clock: &impl Clock) -> io::Result<u64> {
        let spent = self.begun.elapsed(clock)?.as_millis();
        Ok(u64::try_from(spent).unwrap_or(u64::MAX))
    }

    /// Whether the time is over: never without a limit.
    ///
    /// # Errors
    ///
    /// There is no clock.
    pub fn is_over(&self, clock: &impl Clock) -> io::Result<bool>
        ensures { IfOk result (λ over. over ≡ true → self.now.seconds ≢ None) }
    {
        match self.seconds {
            Some(seconds) => Ok(self.begun.elapsed(clock)?.as_secs() >= seconds),
            None => Ok(false),
        }
    }
}
