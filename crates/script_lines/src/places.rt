//! The numbers that can follow a name, and the arguments that do.
ghost use Rattle.std.specs.Prelude.{◌≡◌, false};
ghost use Rattle.script_lines.specs.Names.{any_numbers, argument_at, number_at, number_or};

/// The largest hart id.
pub const LAST_HART: u64 = 127;

/// The numbers that can follow a name: from `least` to `most` of them, each at most `limit` or, if allowed, a dash.
#[derive(Clone, Copy, Debug, PartialEq, Eq)]
pub struct Places {
    /// The least number of numbers.
    pub least: usize,
    /// The most numbers.
    pub most: usize,
    /// The largest value of each.
    pub limit: u64,
    /// Whether a dash can stand for a number.
    pub may_be_absent: bool,
}

/// Numbers of any size, from `least` to `most` of them.
#[inline(always)]
pub fn any_numbers(least: usize, most: usize) -> Places
    ensures { result ≡ any_numbers least most }
{
    Places {
        least,
        most,
        limit: u64::MAX,
        may_be_absent: false,
    }
}

/// The argument at a place. None: it is a dash, or there is none.
pub fn argument_at(arguments: &[Option<u64>], place: usize) -> Option<u64>
    ensures { result ≡ argument_at arguments.now place }
{
    match arguments.get(place) {
        Some(argument) => *argument,
        None => None,
    }
}

/// The number at a place, or 0 if it is a dash or there is none.
pub fn number_at(arguments: &[Option<u64>], place: usize) -> u64
    ensures { result ≡ number_at arguments.now place }
{
    argument_at(arguments, place).unwrap_or(0)
}

/// The number at a place, or `other` if there are fewer arguments.
pub fn number_or(other: u64, arguments: &[Option<u64>], place: usize) -> u64
    ensures { result ≡ number_or other arguments.now place }
{
    if place < arguments.len() {
        number_at(arguments, place)
    } else {
        other
    }
}
