//! The scripts of the rows.

/// The board line alone.
pub const EMPTY: &[u8] = b"board 2 1 10 0 0x80000000 0x0\n";

/// A board of no hart.
pub const NO_HARTS: &[u8] = b"board 0 1 10 0 0x80000000 0x0\n";

/// A hart that shuts the board down.
pub const SHUTDOWN: &[u8] = b"board 1 1 10 0 0x80000000 0x0
at 0x80000000
ecall 0x53525354 0
";

/// Hart 0 starts hart 1, which stops.
pub const ONE_ORDER: &[u8] = b"board 2 4 100 0 0x80000000 0x0
at 0x80000000
ecall 0x48534d 0 1 0x80001000 0x7
at 0x80001000
ecall 0x48534d 1
";

/// A hart that waits for an interrupt which none sends.
pub const NEVER_WOKEN: &[u8] = b"board 1 1 10 0 0x80000000 0x0
at 0x80000000
wfi
";

/// A hart with an operation to do, whose entry is all that the history holds.
pub const ENTERING: &[u8] = b"board 1 1 1 0 0x80000000 0x0
at 0x80000000
sip
";

/// A clock that ticks once, beside a hart with nothing to do.
pub const ONE_TICK: &[u8] = b"board 1 1 10 0 0x80000000 0x0
clock
tick 3
";

/// A hart that does more operations than the history holds.
pub const LONG: &[u8] = b"board 1 1 3 0 0x80000000 0x0
at 0x80000000
sip
sip
sip
";

/// A hart that waits for an interrupt which none sends, beside a clock that ticks.
pub const SLEEPING: &[u8] = b"board 1 1 10 0 0x80000000 0x0
at 0x80000000
wfi
clock
tick 5
";

/// A hart that starts another one, which stops, beside a clock that ticks.
pub const STOPPING: &[u8] = b"board 2 2 20 0 0x80000000 0x0
at 0x80000000
ecall 0x48534d 0 1 0x80001000 0
at 0x80001000
sip
ecall 0x48534d 1
clock
tick 5
tick 6
";

/// Hart 0 starts hart 1, and each fences the other.
pub const CROSSING: &[u8] = b"board 2 4 100 0 0x80000000 0x0
at 0x80000000
ecall 0x48534d 0 1 0x80001000 0
ecall 0x52464e43 1 0x2 0
at 0x80001000
ecall 0x52464e43 1 0x1 0
";

/// Hart 0 starts hart 1, and each reads sip twice.
pub const READING: &[u8] = b"board 2 4 100 0 0x80000000 0x0
at 0x80000000
ecall 0x48534d 0 1 0x80001000 0
sip
sip
at 0x80001000
sip
sip
";

/// Hart 0 starts the others and interrupts them; one of them stops; the clock ticks.
pub const THREE: &[u8] = b"board 3 3 40 0 0x80000000 0x0
at 0x80000000
ecall 0x48534d 0 1 0x80001000 0x7
ecall 0x48534d 0 2 0x80002000 0x7
ecall 0x735049 0 0x6 0
at 0x80001000
sip
clearssip
at 0x80002000
sip
ecall 0x48534d 1
clock
tick 3
tick 4
";

/// Hart 0 starts hart 1 and reboots the board, again and again. Hart 1 reads sip.
pub const REBOOTING: &[u8] = b"board 2 2 40 0 0x80000000 0x0
at 0x80000000
ecall 0x48534d 0 1 0x80001000 0
ecall 0x53525354 0 1 0
at 0x80001000
sip
";

/// A hart that reads sip, beside a clock that ticks.
pub const TICKING: &[u8] = b"board 1 1 10 0 0x80000000 0x0
at 0x80000000
sip
clock
tick 5
tick 6
";

/// A hart that shuts the board down, beside a clock that ticks.
pub const LEAVING: &[u8] = b"board 1 1 10 0 0x80000000 0x0
at 0x80000000
ecall 0x53525354 0
clock
tick 5
";

/// A hart that does more operations than the history holds, beside a clock that ticks.
pub const CROWDED: &[u8] = b"board 1 1 3 0 0x80000000 0x0
at 0x80000000
sip
sip
sip
clock
tick 5
";

/// A hart that shuts the board down with the last event that the history holds.
pub const LAST: &[u8] = b"board 1 1 2 0 0x80000000 0x0
at 0x80000000
ecall 0x53525354 0
";

/// A hart that does as many operations as the history holds.
pub const EXACT: &[u8] = b"board 1 1 3 0 0x80000000 0x0
at 0x80000000
sip
sip
";

/// A hart that shuts the board down with an operation left to do.
pub const UNFINISHED: &[u8] = b"board 1 1 10 0 0x80000000 0x0
at 0x80000000
ecall 0x53525354 0
sip
";

/// A hart that waits for an interrupt which none sends, and whose entry is all that the history holds.
pub const ASLEEP: &[u8] = b"board 1 1 1 0 0x80000000 0x0
at 0x80000000
wfi
";

/// A clock without ticks yet, on a board for thousands of events.
pub const CLOCK: &[u8] = b"board 1 1 5000 0 0x80000000 0x0
clock
";

/// A clock without ticks yet, on a board for a thousand events.
pub const SHORT_CLOCK: &[u8] = b"board 1 1 1000 0 0x80000000 0x0
clock
";

/// A tick of one.
pub const TICK_LINE: &[u8] = b"tick 1\n";

/// A tick in which no time passes.
pub const NO_TIME: &[u8] = b"tick 0\n";

/// Harts 1 and 2 wait for a deadline, which the clock's first tick reaches. Hart 0 starts them; its block goes on.
pub const RESTING: &[u8] = b"board 3 2 5000 0 0x80000000 0x0
clock
tick 5
at 0x80001000
sie 0x20
ecall 0x54494d45 0 5
wfi
sip
at 0x80000000
ecall 0x48534d 0 1 0x80001000 0
ecall 0x48534d 0 2 0x80001000 0
";

/// Hart 1 waits for an interrupt, which hart 2 sends. Hart 0 starts them; its block goes on. The clock would tick.
pub const WOKEN_BY_AN_IPI: &[u8] = b"board 3 3 5000 0 0x80000000 0x0
clock
tick 5
at 0x80001000
sie 0x2
wfi
sip
at 0x80002000
ecall 0x735049 0 0x2 0
at 0x80000000
ecall 0x48534d 0 1 0x80001000 0
ecall 0x48534d 0 2 0x80002000 0
";

/// A hart reads sip.
pub const SIP_LINE: &[u8] = b"sip\n";
