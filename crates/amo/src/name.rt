//! Operations on the word of 8 bytes around an address, without their numbers.
ghost use Rattle.std.specs.Prelude.{◌≡◌, ◌≤◌};
ghost use Rattle.amo.specs.Names.{amo_first, amo_name, amo_second, count, made_of, reads_by};

use crate::amo::Amo;
use crate::function::AmoFunction;

/// An operation on the word of 8 bytes around its address, without its numbers.
#[derive(Clone, Copy, Debug, PartialEq, Eq)]
pub enum AmoName {
    /// An AMO on 8 bytes.
    Double(AmoFunction),
    /// An AMO on 4 bytes.
    Half(AmoFunction),
    /// A compare-and-swap on 8 bytes.
    Cas,
    /// A store of 1 byte.
    Store1,
    /// A store of 2 bytes.
    Store2,
    /// A store of 4 bytes.
    Store4,
}

impl Amo {
    /// Its first number: the operand, the expected value, or the value that is stored.
    pub fn first(self) -> u64
        ensures { result ≡ amo_first self }
    {
        match self {
            Amo::Double(_, operand) | Amo::Half(_, operand) => operand,
            Amo::Cas(expected, _) => expected,
            Amo::Store1(value) | Amo::Store2(value) | Amo::Store4(value) => value,
        }
    }

    /// Its second number, or 0 if it has none.
    pub fn second(self) -> u64
        ensures { result ≡ amo_second self }
    {
        match self {
            Amo::Cas(_, value) => value,
            _ => 0,
        }
    }
}

impl AmoName {
    /// The name of an operation.
    pub fn of(amo: Amo) -> AmoName
        ensures { result ≡ amo_name amo }
    {
        match amo {
            Amo::Double(function, _) => AmoName::Double(function),
            Amo::Half(function, _) => AmoName::Half(function),
            Amo::Cas(..) => AmoName::Cas,
            Amo::Store1(_) => AmoName::Store1,
            Amo::Store2(_) => AmoName::Store2,
            Amo::Store4(_) => AmoName::Store4,
        }
    }

    /// The operation of this name, with these numbers; only a compare-and-swap has the second one.
    pub fn amo(self, first: u64, second: u64) -> Amo
        ensures { result ≡ made_of self first second }
    {
        match self {
            AmoName::Double(function) => Amo::Double(function, first),
            AmoName::Half(function) => Amo::Half(function, first),
            AmoName::Cas => Amo::Cas(first, second),
            AmoName::Store1 => Amo::Store1(first),
            AmoName::Store2 => Amo::Store2(first),
            AmoName::Store4 => Amo::Store4(first),
        }
    }

    /// How many numbers its operation has.
    pub fn count(self) -> usize
        ensures count { result ≡ count self }
        ensures few { result ≤ 2 }
    {
        match self {
            AmoName::Cas => 2,
            AmoName::Double(_) | AmoName::Half(_) => 1,
            AmoName::Store1 | AmoName::Store2 | AmoName::Store4 => 1,
        }
    }

    /// Whether its operation reads the old value.
    pub fn reads(self) -> bool
        ensures { result ≡ reads_by self }
    {
        match self {
            AmoName::Double(_) | AmoName::Half(_) | AmoName::Cas => true,
            AmoName::Store1 | AmoName::Store2 | AmoName::Store4 => false,
        }
    }
}
