//! Replies and refusals without their numbers.
ghost use Rattle.std.specs.Prelude.{◌≡◌, ◌+◌, ◌≤◌, ◌++◌, vec_len, vec_capacity};
ghost use Rattle.script_lines.specs.Packing.{said_count, said_made, said_numbers, said_shape_of};

use crate::op_shape::number_from;
use crate::said::Said;

/// The most numbers of a reply.
pub const SAID_NUMBERS: usize = 3;

/// A reply or refusal without its numbers, or nothing.
#[derive(Clone, Copy, Debug)]
pub enum SaidShape {
    Nothing,
    Ret,
    Waiting,
    Gone,
    Entry,
    Value,
    Fault,
    Served,
    Moved,
    Done,
    Refused,
}

impl SaidShape {
    /// The shape of a reply or refusal. Its numbers are appended.
    #[inline(always)]
    pub fn put(said: Option<Said>, numbers: &mut Vec<u64>) -> SaidShape
        requires { vec_len numbers.old + SAID_NUMBERS ≤ vec_capacity numbers.old }
        ensures shape { result ≡ said_shape_of said }
        ensures numbers { numbers.new.items ≡ numbers.old.items ++ said_numbers said }
        ensures made { said_made result (said_numbers said) ≡ said }
        ensures len { vec_len numbers.new ≡ vec_len numbers.old + said_count result }
        ensures few { said_count result ≤ SAID_NUMBERS }
        ensures capacity { vec_capacity numbers.new ≡ vec_capacity numbers.old }
    {
        match said {
            None => SaidShape::Nothing,
            Some(Said::Ret { error, value }) => {
                numbers.push_reserved(error.cast_unsigned());
                numbers.push_reserved(value);
                SaidShape::Ret
            }
            Some(Said::Waiting) => SaidShape::Waiting,
            Some(Said::Gone) => SaidShape::Gone,
            Some(Said::Entry { addr, hart, opaque }) => {
                numbers.push_reserved(addr);
                numbers.push_reserved(hart);
                numbers.push_reserved(opaque);
                SaidShape::Entry
            }
            Some(Said::Value(value)) => {
                numbers.push_reserved(value);
                SaidShape::Value
            }
            Some(Said::Fault(cause)) => {
                numbers.push_reserved(cause);
                SaidShape::Fault
            }
            Some(Said::Served) => SaidShape::Served,
            Some(Said::Moved(state)) => {
                numbers.push_reserved(state);
                SaidShape::Moved
            }
            Some(Said::Done) => SaidShape::Done,
            Some(Said::Refused(n)) => {
                numbers.push_reserved(n);
                SaidShape::Refused
            }
        }
    }

    /// The number of its numbers.
    pub fn count(self) -> usize
        ensures { result ≡ said_count self }
    {
        match self {
            SaidShape::Ret => 2,
            SaidShape::Entry => 3,
            SaidShape::Value | SaidShape::Fault | SaidShape::Moved | SaidShape::Refused => 1,
            SaidShape::Nothing | SaidShape::Waiting | SaidShape::Gone => 0,
            SaidShape::Served | SaidShape::Done => 0,
        }
    }

    /// The reply or refusal of this shape, with these numbers.
    pub fn said(self, numbers: &[u64]) -> Option<Said>
        ensures { result ≡ said_made self numbers.now }
    {
        match self {
            SaidShape::Nothing => None,
            SaidShape::Ret => Some(Said::Ret {
                error: number_from(numbers, 0).cast_signed(),
                value: number_from(numbers, 1),
            }),
            SaidShape::Waiting => Some(Said::Waiting),
            SaidShape::Gone => Some(Said::Gone),
            SaidShape::Entry => Some(Said::Entry {
                addr: number_from(numbers, 0),
                hart: number_from(numbers, 1),
                opaque: number_from(numbers, 2),
            }),
            SaidShape::Value => Some(Said::Value(number_from(numbers, 0))),
            SaidShape::Fault => Some(Said::Fault(number_from(numbers, 0))),
            SaidShape::Served => Some(Said::Served),
            SaidShape::Moved => Some(Said::Moved(number_from(numbers, 0))),
            SaidShape::Done => Some(Said::Done),
            SaidShape::Refused => Some(Said::Refused(number_from(numbers, 0))),
        }
    }
}
